//! Names that stand with different numbers of arguments.

ghost use Rattle.std.specs.Prelude.{◌≡◌};
ghost use Rattle.std.specs.List.{find};
ghost use Rattle.ix_expr.specs.inside.FormOf.{form_of};
ghost use Rattle.ix_lint.specs.Counts as spec;

use crate::finding::FindingKind;
use crate::places::Place;
use ix_expr::{Atom, Expr, are_alike};
use ix_values::Name;

/// How many of the atoms have the name and the number of arguments of this one.
fn frequency(places: &[Place], atom: &Atom) -> usize
    ensures { result ≡ spec.frequency places.now atom.now }
{
    places
        .iter()
        .filter(|place| are_alike(atom, &place.atom))
        .count()
}

/// The same, if the atom at the place has this name, and 0 otherwise.
fn named_frequency(places: &[Place], name: &Name, place: &Place) -> usize
    ensures { result ≡ spec.named_frequency places.now name.now place.now }
{
    if place.atom.name() == name {
        frequency(places, &place.atom)
    } else {
        0
    }
}

/// The most that a number of arguments has, of the atoms with this name.
fn greatest_frequency(places: &[Place], name: &Name) -> usize
    ensures { result ≡ spec.greatest_frequency places.now name.now }
{
    let mut most = 0;
    for place in places {
        most = named_frequency(places, name, place).max(most);
    }
    most
}

/// Whether the atom at the place has this name and this frequency.
fn is_leading(places: &[Place], name: &Name, most: usize, place: &Place) -> bool
    ensures { result ≡ spec.is_leading places.now name.now most place.now }
{
    place.atom.name() == name && frequency(places, &place.atom) == most
}

/// The first of the atoms that has this name and this frequency.
fn first_leading(places: &[Place], name: &Name, most: usize) -> Option<Place>
    ensures { result ≡ find (spec.is_leading places.now name.now most) places.now }
{
    for place in places {
        if is_leading(places, name, most, place) {
            return Some(*place);
        }
    }
    None
}

/// The first of these atoms with the name and the number of arguments of this one.
fn first_alike(places: &[Place], atom: &Atom) -> Option<Place>
    ensures { result ≡ find (spec.is_like atom.now) places.now }
{
    for place in places {
        if are_alike(atom, &place.atom) {
            return Some(*place);
        }
    }
    None
}

/// The first atom of this name whose number of arguments has the most.
fn leader(places: &[Place], name: &Name) -> Option<Place>
    ensures { result ≡ spec.leader places.now name.now }
{
    first_leading(places, name, greatest_frequency(places, name))
}

/// Whether the atom at this node is the first of its name and number of arguments.
fn is_first(places: &[Place], node: usize, atom: &Atom) -> bool
    ensures { result ≡ spec.is_first places.now node atom.now }
{
    match first_alike(places, atom) {
        Some(place) => place.node == node,
        None => false,
    }
}

/// What is told of an atom beside the leader of its name.
fn counts_beside(atom: &Atom, leader: Option<Place>) -> Option<FindingKind>
    ensures { result ≡ spec.counts_beside atom.now leader }
{
    match leader {
        Some(place) if !are_alike(atom, &place.atom) => Some(FindingKind::Counts {
            name: *atom.name(),
            number: atom.args().len(),
            most: place.atom.args().len(),
            first: place.node,
        }),
        _ => None,
    }
}

/// What is told of an atom beside the leader of its name among these atoms.
fn beside_leader(places: &[Place], atom: &Atom) -> Option<FindingKind>
    ensures { result ≡ spec.counts_beside atom.now (spec.leader places.now atom.now.name) }
{
    counts_beside(atom, leader(places, atom.name()))
}

/// `counts` at a node, where these are the atoms of the whole expression: the first atom of its
/// name and number of arguments, if most atoms of that name have another number.
pub(crate) fn counts(places: &[Place], node: usize, expr: &Expr) -> Option<FindingKind>
    ensures { result ≡ spec.counts places.now node (form_of expr.now) }
{
    match expr {
        Expr::Atom(atom) => {
            if is_first(places, node, atom) {
                beside_leader(places, atom)
            } else {
                None
            }
        }
        _ => None,
    }
}
