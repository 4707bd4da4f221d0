//! States beside their values.

ghost use Rattle.std.specs.Prelude.{◌≡◌, ◌≤◌, ◌^◌, ◌==◌, [], length, IfOk, MatchOption, None, Some};
ghost use Rattle.std.specs.BTreeMap.{is_at};
ghost use Rattle.std.specs.Map.{lookup};
ghost use Rattle.ix_entries.specs.inside.Entries.{KeysAscend, with_entry};
ghost use Rattle.ix_values.specs.Order.{text_cmp};
ghost use Rattle.ix_tree.specs.PlainOf.{plain_entries};
ghost use Rattle.ix_tree.specs.Size.{size_of};

use crate::node::Knot;
use crate::pieces::{
    MOST_IN_PIECE, Piece, around_piece, few_size, pieces_size, push_entries, push_shared_pieces,
};
use crate::share::{share_entries, with_shared_entries};
use ix_entries::around;
use ix_values::Value;
use std::alloc::{AllocError, Global};
use std::marker::Model;

/// States beside their values, in ascending order of the values. Contracts see the list of them.
/// Where one changes, a new list shares the pieces in which nothing changes with the old one.
#[cycle(tree)]
#[derive(Drop)]
pub struct Entries {
    held: Held,
}

/// Where the entries of a list stand.
#[cycle(tree)]
#[derive(Drop)]
enum Held {
    /// In a list of their own: no more than stand in one piece.
    Few(Vec<(Value, Knot)>),
    /// In pieces, none of them empty.
    Cut(Vec<Piece>),
}

impl Model for Entries {
    ghost use Rattle.std.specs.Prelude.{ℕ, ◌+◌, ◌*◌, List};
    ghost use Rattle.std.specs.Coded.{coded_list, coded_ℕ, coded×};
    ghost use Rattle.ix_tree.specs.Plain.{Plain};
    ghost use Rattle.ix_tree.specs.lemmas.PlainCode.{plain_code};

    ghost Value = { List (List ℕ × Plain) };

    ghost coded = { coded_list (coded× (coded_list coded_ℕ) plain_code) };

    ghost use Rattle.ix_tree.specs.Size.{size_of};
    ghost use Rattle.ix_tree.specs.PlainOf.{plain_entries};
    ghost use Rattle.ix_tree.specs.inside.HeldEntries.{IsCutWell, entries_kept};

    ghost view = { λ e. entries_kept e.held };

    // The first few stand in no piece, and no piece is empty.
    ghost invariant = { λ e. IsCutWell e.held };

    ghost size = { λ es. 2 * size_of (plain_entries es) + 1 };

    ghost use Rattle.ix_tree.specs.lemmas.Falls.{depth_le-held};

    ghost size_decreases = { λ e h. depth_le-held e.held };
}

impl Entries {
    /// No entry. Takes no memory.
    pub fn new(alloc: Global) -> Entries
        ensures { result ≡ [] }
    {
        Entries {
            held: Held::Few(Vec::new(alloc)),
        }
    }

    /// These entries.
    pub fn of(alloc: Global, entries: Vec<(Value, Knot)>) -> Result<Entries, AllocError>
        ensures { IfOk result (λ made. made ≡ entries.items) }
    {
        if entries.len() <= MOST_IN_PIECE {
            return Ok(Entries {
                held: Held::Few(entries),
            });
        }
        let mut pieces = Vec::new(alloc);
        push_entries(alloc, &mut pieces, entries)?;
        Ok(Entries {
            held: Held::Cut(pieces),
        })
    }

    /// Whether there is no entry.
    pub fn is_empty(&self) -> bool
        ensures { result ≡ (length self.now == 0) }
    {
        self.iter().next().is_none()
    }

    /// How many entries there are.
    pub fn len(&self) -> usize
        requires { size_of (plain_entries self.now) ≤ 2 ^ 32 }
        ensures number { result ≡ length self.now }
        ensures most { result ≤ size_of (plain_entries self.now) }
    {
        self.iter().count()
    }

    /// What the entries are together: each counts 1 and the Size of its tree.
    pub fn size(&self) -> usize
        requires { size_of (plain_entries self.now) ≤ 2 ^ 32 }
        ensures { result ≡ size_of (plain_entries self.now) }
    {
        match &self.held {
            Held::Few(entries) => few_size(entries),
            Held::Cut(pieces) => pieces_size(pieces),
        }
    }

    /// The entries in their order.
    pub fn iter(&self) -> EntriesLeft<'_>
        ensures { result ≡ self.now }
    {
        match &self.held {
            Held::Few(entries) => EntriesLeft {
                first: entries,
                later: &[],
            },
            Held::Cut(pieces) => EntriesLeft {
                first: &[],
                later: pieces,
            },
        }
    }

    /// The state of the value, or None where the value has no entry. The values ascend strictly.
    pub fn get(&self, value: &Value) -> Option<&Knot>
        requires { KeysAscend text_cmp self.now }
        ensures { MatchOption result
            (lookup (is_at (text_cmp value.now)) self.now ≡ None)
            (λ state. lookup (is_at (text_cmp value.now)) self.now ≡ Some state.now) }
    {
        match &self.held {
            Held::Few(entries) => state_in(entries, value),
            Held::Cut(pieces) => {
                let (_before, piece, _behind) = around_piece(pieces, value)?;
                state_in(piece.entries(), value)
            }
        }
    }

    /// The entries with this state at the value. One that equals the common state leaves no entry.
    /// The values ascend strictly.
    pub fn with(
        &self,
        alloc: Global,
        common: &Knot,
        value: Value,
        state: Knot,
    ) -> Result<Entries, AllocError>
        requires { KeysAscend text_cmp self.now }
        ensures { IfOk result (λ made. made
            ≡ with_entry text_cmp ⟦<Knot as PartialEq>⟧.eq common.now self.now value state) }
    {
        match &self.held {
            Held::Few(entries) => {
                let made = entries_with(alloc, entries, common, value, state)?;
                Entries::of(alloc, made)
            }
            Held::Cut(pieces) => match around_piece(pieces, &value) {
                None => {
                    let made = entries_with(alloc, &[], common, value, state)?;
                    Entries::of(alloc, made)
                }
                Some((before, piece, behind)) => {
                    let made = entries_with(alloc, piece.entries(), common, value, state)?;
                    let mut all = Vec::with_capacity(alloc, pieces.len())?;
                    push_shared_pieces(&mut all, before)?;
                    push_entries(alloc, &mut all, made)?;
                    push_shared_pieces(&mut all, behind)?;
                    Ok(Entries {
                        held: Held::Cut(all),
                    })
                }
            },
        }
    }

    /// The same entries with the same nodes.
    pub fn share(&self, alloc: Global) -> Result<Entries, AllocError>
        ensures { IfOk result (λ made. made ≡ self.now) }
    {
        match &self.held {
            Held::Few(entries) => Ok(Entries {
                held: Held::Few(share_entries(alloc, entries)?),
            }),
            Held::Cut(pieces) => {
                let mut all = Vec::with_capacity(alloc, pieces.len())?;
                push_shared_pieces(&mut all, pieces)?;
                Ok(Entries {
                    held: Held::Cut(all),
                })
            }
        }
    }
}

/// The state of the value, or None where the value has no entry.
fn state_in<'a>(entries: &'a [(Value, Knot)], value: &Value) -> Option<&'a Knot>
    requires { KeysAscend text_cmp entries.now }
    ensures { MatchOption result
        (lookup (is_at (text_cmp value.now)) entries.now ≡ None)
        (λ state. lookup (is_at (text_cmp value.now)) entries.now ≡ Some state.now) }
{
    match entries.binary_search_by(|entry| entry.0.cmp(value)) {
        Ok(place) => Some(&entries[place].1),
        Err(_) => None,
    }
}

/// The entries with this state at the value, made in one pass. A state that equals the common one
/// leaves no entry.
fn entries_with(
    alloc: Global,
    entries: &[(Value, Knot)],
    common: &Knot,
    value: Value,
    state: Knot,
) -> Result<Vec<(Value, Knot)>, AllocError>
    requires { KeysAscend text_cmp entries.now }
    ensures { IfOk result (λ made. made.items
        ≡ with_entry text_cmp ⟦<Knot as PartialEq>⟧.eq common.now entries.now value state) }
{
    let (before, behind) = around(entries, &value);
    let made = Vec::with_capacity(alloc, entries.len().saturating_add(1))?;
    let mut made = with_shared_entries(made, before)?;
    if state != *common {
        made.push_reserved((value, state));
    }
    with_shared_entries(made, behind)
}

/// The entries that are left, in their order. Contracts see the list of them.
#[derive(Drop)]
pub struct EntriesLeft<'a> {
    first: &'a [(Value, Knot)],
    later: &'a [Piece],
}

impl<'a> Model for EntriesLeft<'a> {
    ghost use Rattle.std.specs.Prelude.{ℕ, List};
    ghost use Rattle.std.specs.Coded.{coded_list, coded_ℕ, coded×};
    ghost use Rattle.ix_tree.specs.Plain.{Plain};
    ghost use Rattle.ix_tree.specs.lemmas.PlainCode.{plain_code};

    ghost Value = { List (List ℕ × Plain) };

    ghost coded = { coded_list (coded× (coded_list coded_ℕ) plain_code) };

    ghost use Rattle.std.specs.List.{AllByRecursion};
    ghost use Rattle.ix_tree.specs.inside.Pieces.{HasEntries, entries_in};

    ghost view = { λ left. entries_in left.first.now left.later.now };

    // No piece is empty.
    ghost invariant = { λ left. AllByRecursion HasEntries left.later.now };
}

impl<'a> Iterator for EntriesLeft<'a> {
    ghost use Rattle.std.specs.Iterator.{YieldsFirstRef, item_count};

    type Item = &'a (Value, Knot);

    ghost next_gives = { YieldsFirstRef (λ left. left) };

    ghost remaining = { item_count (λ left. left) };

    fn next(&mut self) -> Option<&'a (Value, Knot)> {
        match self.first.split_first() {
            Some((entry, first)) => {
                self.first = first;
                Some(entry)
            }
            None => {
                let (piece, later) = self.later.split_first()?;
                let (entry, first) = piece.entries().split_first()?;
                self.first = first;
                self.later = later;
                Some(entry)
            }
        }
    }
}
