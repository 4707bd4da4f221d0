//! What may come next.

ghost use Rattle.std.specs.Prelude.{◌≡◌, ◌∷◌, ◌++◌, [], IfOk, OnOk};
ghost use Rattle.ix_next.specs.Candidates.{candidate_text};
ghost use Rattle.ix_desk.specs.MenuLines as spec;

use arrayvec::ArrayVec;
use ix_next::Candidate;
use std::alloc::{AllocError, Global};

/// A line for each candidate, in their order: its name and, in parentheses, its values, `$1`, `$2`,
/// .. for the new ones. Want of memory is the one error.
pub fn menu_lines(alloc: Global, menu: &[Candidate]) -> Result<Vec<u8>, AllocError>
    ensures { IfOk result (λ lines. lines.items ≡ spec.menu_lines menu.now) }
{
    let mut lines = Vec::new(alloc);
    for candidate in menu {
        write_candidate(&mut lines, candidate)?;
    }
    Ok(lines)
}

fn write_candidate(out: &mut Vec<u8>, candidate: &Candidate) -> Result<(), AllocError>
    ensures { OnOk result
        (out.new.items ≡ out.old.items ++ candidate_text candidate.now ++ 10 ∷ []) }
{
    let mut text = ArrayVec::new();
    candidate.write(&mut text);
    out.extend_from_slice(&text)?;
    out.push(b'\n')?;
    Ok(())
}
