//! Marks by place.

ghost use Rattle.std.specs.Prelude.{◌≡◌, true, false, set, replicate, IfOk};
ghost use Rattle.ix_stuck.specs.inside.Marks.{mark_at};

use std::alloc::{AllocError, Global};

/// Whether there is a mark at the place, and it is true.
pub(crate) fn is_marked(marks: &[bool], place: usize) -> bool
    ensures { result ≡ mark_at marks.now place }
{
    match marks.get(place) {
        Some(mark) => *mark,
        None => false,
    }
}

/// So many marks, all false.
pub(crate) fn no_marks(alloc: Global, count: usize) -> Result<Vec<bool>, AllocError>
    ensures { IfOk result (λ marks. marks.items ≡ replicate count false) }
{
    let mut marks = Vec::new(alloc);
    for _count in 0..count {
        marks.push(false)?;
    }
    Ok(marks)
}

/// Sets the mark at the place, if there is one.
pub(crate) fn mark(marks: &mut Vec<bool>, place: usize)
    ensures { marks.new.items ≡ set marks.old.items place true }
{
    if place < marks.len() {
        marks[place] = true;
    }
}
