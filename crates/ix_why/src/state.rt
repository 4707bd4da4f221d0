//! States on the way down through an expression.

ghost use Rattle.std.specs.Prelude.{◌≡◌, [], map, MatchOption, None, Some};
ghost use Rattle.std.specs.Option.{unwrap_or};
ghost use Rattle.ix_entries.specs.inside.Entries.{KeysAscend};
ghost use Rattle.ix_values.specs.Order.{text_cmp};
ghost use Rattle.ix_words.specs.Each.{Each};
ghost use Rattle.ix_tree.specs.Plain.{Plain, items_of, listed};
ghost use Rattle.ix_tree.specs.PlainOf.{plain_entries, plain_map};
ghost use Rattle.ix_can.specs.May.{tree_at};
ghost use Rattle.ix_tree.specs.Order.{first_part};
ghost use Rattle.ix_why.specs.Blames.{only};
ghost use Rattle.ix_why.specs.Trees.{left, right, entries, owner_maps, tree_for};
ghost use Rattle.ix_why.specs.inside.Held.{kept_tree, of_held, entries_held, maps_held};
ghost use Rattle.ix_why.specs.inside.Held.{AscendByValue, IsOwned};

use ix_can::state_at;
use ix_tree::{Entries, Knot, Map, Node};
use ix_values::Value;

/// The state of an expression after its word.
#[derive(Clone, Copy)]
pub(crate) enum State<'a> {
    /// That of the empty word.
    Initial,
    /// The word is complete, and no action may come.
    Done,
    /// This one.
    At(&'a Knot),
}

impl<'a> State<'a> {
    /// That of the only operand or of the left one.
    pub(crate) fn left(self) -> State<'a>
        ensures { kept_tree result ≡ of_held left (kept_tree self.entry) }
    {
        match self {
            State::Initial => State::Initial,
            State::Done => State::Done,
            State::At(knot) => left_of(knot),
        }
    }

    /// That of the right operand.
    pub(crate) fn right(self) -> State<'a>
        ensures { kept_tree result ≡ of_held right (kept_tree self.entry) }
    {
        match self {
            State::Initial => State::Initial,
            State::Done => State::Done,
            State::At(knot) => right_of(knot),
        }
    }

    /// That of a body for the value, where None is outside.
    pub(crate) fn at(self, value: &Option<Value>) -> State<'a>
        requires { AscendByValue (entries_held (kept_tree self)) }
        ensures { kept_tree result ≡ of_held (tree_for value.now) (kept_tree self.entry) }
    {
        match (self, value) {
            (State::At(knot), Some(value)) => state_for(knot, value),
            _ => self.left(),
        }
    }

    /// The states of the values that have one of their own, if there can be any.
    pub(crate) fn entries(self) -> Option<&'a Entries>
        ensures { MatchOption result (entries_held (kept_tree self.entry) ≡ [])
            (λ es. entries_held (kept_tree self.entry) ≡ items_of (plain_entries es.now)) }
    {
        match self {
            State::At(knot) => entries_of(knot),
            _ => None,
        }
    }

    /// That of the value in the only map, or None where there isn't exactly one.
    pub(crate) fn owned(self, value: &Value) -> Option<State<'a>>
        requires { Each (λ m. AscendByValue (items_of (first_part m)))
            (maps_held (kept_tree self)) }
        ensures { MatchOption result (only (maps_held (kept_tree self.entry)) ≡ None)
            (λ s. IsOwned value.now (maps_held (kept_tree self.entry)) (kept_tree s)) }
    {
        match self {
            State::Initial => Some(State::Initial),
            State::Done => None,
            State::At(knot) => owned_in(knot, value),
        }
    }
}

fn state_for<'a>(knot: &'a Knot, value: &Value) -> State<'a>
    requires { AscendByValue (entries knot.now) }
    ensures { kept_tree result ≡ Some (tree_for (Some value.now) knot.entry.now) }
{
    match knot.node() {
        Node::Every(common, entries) | Node::Sync(common, entries) => {
            State::At(state_at(entries, common, value))
        }
        _ => left_of(knot),
    }
}

fn entries_of<'a>(knot: &'a Knot) -> Option<&'a Entries>
    ensures { MatchOption result (entries knot.entry.now ≡ [])
        (λ es. entries knot.entry.now ≡ items_of (plain_entries es.now)) }
{
    match knot.node() {
        Node::Every(_, entries) | Node::Sync(_, entries) => Some(entries),
        _ => None,
    }
}

fn owned_in<'a>(knot: &'a Knot, value: &Value) -> Option<State<'a>>
    requires { Each (λ m. AscendByValue (items_of (first_part m))) (owner_maps knot.now) }
    ensures { MatchOption result (only (owner_maps knot.entry.now) ≡ None)
        (λ s. IsOwned value.now (owner_maps knot.entry.now) (kept_tree s)) }
{
    match knot.node() {
        Node::All(maps) => owned_by(maps, value),
        _ => None,
    }
}

fn owned_by<'a>(maps: &'a [Map], value: &Value) -> Option<State<'a>>
    requires { Each (λ m. AscendByValue (items_of (first_part m)))
        (items_of (listed (map plain_map maps.now))) }
    ensures { MatchOption result
        (only (items_of (listed (map plain_map maps.entry.now))) ≡ None)
        (λ s. IsOwned value.now (items_of (listed (map plain_map maps.entry.now))) (kept_tree s)) }
{
    if maps.len() == 1 {
        Some(state_in(&maps[0].entries, value))
    } else {
        None
    }
}

/// That of the value in a map, where a value without an entry hasn't begun.
fn state_in<'a>(entries: &'a Entries, value: &Value) -> State<'a>
    requires { KeysAscend text_cmp entries.now }
    ensures { (common : Plain) → unwrap_or (kept_tree result) common
        ≡ tree_at value.now common (items_of (plain_entries entries.entry.now)) }
{
    match entries.get(value) {
        Some(knot) => State::At(knot),
        None => State::Initial,
    }
}

fn left_of<'a>(knot: &'a Knot) -> State<'a>
    ensures { kept_tree result ≡ Some (left knot.entry.now) }
{
    match knot.node() {
        Node::Opt(_, state)
        | Node::And(state, _)
        | Node::Couple(state, _)
        | Node::Every(state, _)
        | Node::Sync(state, _) => State::At(state),
        _ => State::Done,
    }
}

fn right_of<'a>(knot: &'a Knot) -> State<'a>
    ensures { kept_tree result ≡ Some (right knot.entry.now) }
{
    match knot.node() {
        Node::And(_, state) | Node::Couple(_, state) => State::At(state),
        _ => State::Done,
    }
}
