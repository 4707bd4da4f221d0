//! What looks wrong in an expression.

ghost use Rattle.std.specs.Prelude.{◌≡◌, ◌++◌, IfOk, OnOk};
ghost use Rattle.ix_lint.specs.Findings.{findings};
ghost use Rattle.ix_desk.specs.LintLines as spec;

use crate::write::{write_number, write_place};
use ix_expr::Expression;
use ix_lint::{Finding, FindingKind, lint};
use ix_values::Name;
use std::alloc::{AllocError, Global};

/// A line for each thing that looks wrong in the expression, in the order of `ix_lint::lint`.
///
/// `places` says where each node starts in the expression's text, the nodes in pre-order; one that
/// has no place there is told at 0. A line is `at`, the place of the node, and then by its kind:
///
/// - `counts N K L at P`: the name N has K arguments here and mostly L, as at the place P.
/// - `never`: no word is complete in this part.
/// - `owners P Q`: two values can own one action, by the atoms at the places P and Q.
/// - `unused $p`: no atom names the quantifier's parameter.
/// - `value V`: the fixed value V has the name of a parameter in scope.
/// - `apart N K`: one side alone of this `&` has an atom with the name N and K arguments.
/// - `keeps`: each value that was touched stays in the state.
///
/// Where nothing looks wrong there is no line. Want of memory is the one error.
pub fn lint_lines(
    alloc: Global,
    expression: &Expression,
    places: &[usize],
) -> Result<Vec<u8>, AllocError>
    ensures { IfOk result
        (λ lines. lines.items ≡ spec.lint_lines places.now (findings expression.now)) }
{
    let found = lint(alloc, expression)?;
    let mut lines = Vec::new(alloc);
    write_findings(&mut lines, places, &found)?;
    Ok(lines)
}

fn write_findings(out: &mut Vec<u8>, places: &[usize], found: &[Finding]) -> Result<(), AllocError>
    ensures { OnOk result (out.new.items ≡ out.old.items ++ spec.lint_lines places.now found.now) }
{
    for finding in found {
        write_finding(out, places, finding)?;
    }
    Ok(())
}

fn write_finding(out: &mut Vec<u8>, places: &[usize], finding: &Finding) -> Result<(), AllocError>
    ensures { OnOk result
        (out.new.items ≡ out.old.items ++ spec.finding_line places.now finding.now) }
{
    out.extend_from_slice(b"at ")?;
    write_place(out, places, finding.node)?;
    out.extend_from_slice(b": ")?;
    write_kind(out, places, &finding.kind)?;
    out.push(b'\n')?;
    Ok(())
}

fn write_kind(out: &mut Vec<u8>, places: &[usize], kind: &FindingKind) -> Result<(), AllocError>
    ensures { OnOk result
        (out.new.items ≡ out.old.items ++ spec.kind_words places.now kind.now) }
{
    match kind {
        FindingKind::Counts {
            name,
            number,
            most,
            first,
        } => {
            write_counted(out, b"counts ", name, *number)?;
            out.push(b' ')?;
            write_number(out, *most)?;
            out.extend_from_slice(b" at ")?;
            write_place(out, places, *first)
        }
        FindingKind::Never => out.extend_from_slice(b"never"),
        FindingKind::Owners { first, second } => {
            out.extend_from_slice(b"owners ")?;
            write_place(out, places, *first)?;
            out.push(b' ')?;
            write_place(out, places, *second)
        }
        FindingKind::Unused { parameter } => {
            out.extend_from_slice(b"unused $")?;
            out.extend_from_slice(parameter.bytes())
        }
        FindingKind::Value { value } => {
            out.extend_from_slice(b"value ")?;
            out.extend_from_slice(value.bytes())
        }
        FindingKind::Apart { name, number } => write_counted(out, b"apart ", name, *number),
        FindingKind::Keeps => out.extend_from_slice(b"keeps"),
    }
}

/// A word, a name and a number of arguments.
fn write_counted(
    out: &mut Vec<u8>,
    word: &[u8],
    name: &Name,
    number: usize,
) -> Result<(), AllocError>
    ensures { OnOk result
        (out.new.items ≡ out.old.items ++ spec.counted_words word.now name.now number) }
{
    out.extend_from_slice(word)?;
    out.extend_from_slice(name.bytes())?;
    out.push(b' ')?;
    write_number(out, number)
}
