//! Pieces of lists of entries, which lists share whole.

ghost use Rattle.std.specs.Prelude.{◌≡◌, ◌≤◌, ◌^◌, ◌++◌, [], length, IfOk, OnOk, MatchOption};
ghost use Rattle.std.specs.List.{AllByRecursion};
ghost use Rattle.std.specs.List.Sorted.{IsPartitionedBy};
ghost use Rattle.ix_tree.specs.PlainOf.{plain_entries};
ghost use Rattle.ix_tree.specs.Size.{size_of};
ghost use Rattle.ix_tree.specs.inside.Pieces.{HasEntries, IsAround, in_pieces, leads};

use crate::node::Knot;
use ix_values::Value;
use std::alloc::{AllocError, Global};
use std::marker::Model;
use std::mem;
use std::rc::Rc;

/// At most so many entries stand in one piece.
pub(crate) const MOST_IN_PIECE: usize = 32;

/// Entries that stand one behind the other, with what their Sizes are together. Copies share them.
/// Contracts see the list of the entries.
#[cycle(tree)]
#[derive(Drop)]
pub(crate) struct Piece {
    size: usize,
    entries: Rc<Vec<(Value, Knot)>>,
}

impl Model for Piece {
    ghost use Rattle.std.specs.Prelude.{◌≡◌, ℕ, ◌*◌, List};
    ghost use Rattle.std.specs.Coded.{coded_list, coded_ℕ, coded×};
    ghost use Rattle.ix_tree.specs.Plain.{Plain};
    ghost use Rattle.ix_tree.specs.lemmas.PlainCode.{plain_code};

    ghost Value = { List (List ℕ × Plain) };

    ghost coded = { coded_list (coded× (coded_list coded_ℕ) plain_code) };

    ghost use Rattle.ix_tree.specs.Size.{size_of};
    ghost use Rattle.ix_tree.specs.PlainOf.{plain_entries};

    ghost view = { λ p. p.entries.value.items };

    // The kept number is what the Sizes of the entries are together.
    ghost invariant = { λ p. p.size ≡ size_of (plain_entries p.entries.value.items) };

    ghost size = { λ es. 2 * size_of (plain_entries es) };

    ghost use Rattle.ix_tree.specs.lemmas.Falls.{depth_le-piece};

    ghost size_decreases = { λ p h. depth_le-piece p.entries.value.items };
}

impl Piece {
    /// These entries in a piece, with what their Sizes are together.
    fn new(alloc: Global, entries: Vec<(Value, Knot)>) -> Result<Piece, AllocError>
        requires { length entries.items ≤ MOST_IN_PIECE }
        ensures { IfOk result (λ piece. piece ≡ entries.items) }
    {
        let size = few_size(&entries);
        match Rc::new(alloc, entries) {
            Ok(entries) => Ok(Piece { size, entries }),
            Err(_) => Err(AllocError),
        }
    }

    /// The entries of the piece. Takes no memory.
    pub(crate) fn entries(&self) -> &[(Value, Knot)]
        ensures { result.now ≡ self.now }
    {
        self.entries.as_slice()
    }

    /// What the entries are together: each counts 1 and the Size of its tree.
    pub(crate) fn size(&self) -> usize
        ensures { result ≡ size_of (plain_entries self.now) }
    {
        self.size
    }

    /// An equal piece of the same entries.
    fn share(&self) -> Result<Piece, AllocError>
        ensures { IfOk result (λ piece. piece ≡ self.now) }
    {
        Ok(Piece {
            size: self.size,
            entries: self.entries.clone()?,
        })
    }

    /// Whether the first value of the piece is at most this one.
    fn leads(&self, value: &Value) -> bool
        ensures { result ≡ leads value.now self.now }
    {
        match self.entries() {
            [first, ..] => first.0.cmp(value).is_le(),
            [] => false,
        }
    }
}

/// What the entries, which are no more than those of a piece, are together: each counts 1 and the
/// Size of its tree.
pub(crate) fn few_size(entries: &[(Value, Knot)]) -> usize
    requires { length entries.now ≤ MOST_IN_PIECE }
    ensures { result ≡ size_of (plain_entries entries.now) }
{
    let mut sum = 0;
    for entry in entries {
        sum += 1 + entry.1.size();
    }
    sum
}

/// What the entries of the pieces are together.
pub(crate) fn pieces_size(pieces: &[Piece]) -> usize
    requires { size_of (plain_entries (in_pieces pieces.now)) ≤ 2 ^ 32 }
    ensures { result ≡ size_of (plain_entries (in_pieces pieces.now)) }
{
    let mut sum = 0;
    for piece in pieces {
        sum += piece.size();
    }
    sum
}

/// The pieces before the one in which the value's entry stands or would stand, this one, and those
/// behind it; or None where there is no piece. Those whose first value is at most this one come
/// first. Before all pieces an entry would stand in the first one.
pub(crate) fn around_piece<'a>(
    pieces: &'a [Piece],
    value: &Value,
) -> Option<(&'a [Piece], &'a Piece, &'a [Piece])>
    requires { IsPartitionedBy (leads value.now) pieces.now }
    ensures { MatchOption result
        (pieces.now ≡ [])
        (λ found. IsAround value.now pieces.now found.0.now found.1.now found.2.now) }
{
    if pieces.is_empty() {
        return None;
    }
    let place = pieces
        .partition_point(|piece| piece.leads(value))
        .saturating_sub(1);
    Some((&pieces[..place], &pieces[place], &pieces[place + 1..]))
}

/// Appends equal pieces, in the same order, which share their entries. After an error the first few
/// of them may have been appended.
pub(crate) fn push_shared_pieces(
    shared: &mut Vec<Piece>,
    pieces: &[Piece],
) -> Result<(), AllocError>
    ensures { OnOk result (shared.new.items ≡ shared.old.items ++ pieces.now) }
{
    for piece in pieces {
        shared.push(piece.share()?)?;
    }
    Ok(())
}

/// Appends the entries as pieces, none of them empty. After an error the first few of them may have
/// been appended.
pub(crate) fn push_entries(
    alloc: Global,
    pieces: &mut Vec<Piece>,
    entries: Vec<(Value, Knot)>,
) -> Result<(), AllocError>
    requires { AllByRecursion HasEntries pieces.old.items }
    ensures items { OnOk result
        (in_pieces pieces.new.items ≡ in_pieces pieces.old.items ++ entries.items) }
    ensures some { OnOk result (AllByRecursion HasEntries pieces.new.items) }
{
    if entries.len() <= MOST_IN_PIECE {
        return push_few(alloc, pieces, entries);
    }
    let mut piece = Vec::new(alloc);
    for entry in entries {
        if piece.len() == MOST_IN_PIECE / 2 {
            push_few(alloc, pieces, mem::replace(&mut piece, Vec::new(alloc)))?;
        }
        piece.push(entry)?;
    }
    push_few(alloc, pieces, piece)
}

/// Appends the entries as one piece, or as none where there is no entry.
fn push_few(
    alloc: Global,
    pieces: &mut Vec<Piece>,
    entries: Vec<(Value, Knot)>,
) -> Result<(), AllocError>
    requires few { length entries.items ≤ MOST_IN_PIECE }
    requires some { AllByRecursion HasEntries pieces.old.items }
    ensures items { OnOk result
        (in_pieces pieces.new.items ≡ in_pieces pieces.old.items ++ entries.items) }
    ensures some { OnOk result (AllByRecursion HasEntries pieces.new.items) }
{
    if entries.as_slice().is_empty() {
        return Ok(());
    }
    pieces.push(Piece::new(alloc, entries)?)?;
    Ok(())
}
