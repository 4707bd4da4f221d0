//! Of which values a tree has entries. Nothing is claimed of the answers: what they lead to is
//! tested.

ghost use Rattle.std.specs.Prelude.{◌≤◌, ◌^◌};
ghost use Rattle.ix_tree.specs.Size.{size_of};

use ix_tree::{Bag, Entries, Knot, Map, Node, Pair, Tree};
use ix_values::Value;
use std::alloc::{AllocError, Global};
use std::collections::BTreeMap;

/// Values, each with the number of the first actions of the history that its own are wanted behind.
pub(crate) type Moments = BTreeMap<Value, usize>;

/// The values that have an entry somewhere in the tree, each with the number 0.
pub(crate) fn entered(alloc: Global, tree: &Tree) -> Result<Moments, AllocError>
    requires { size_of tree.now ≤ 2 ^ 32 }
{
    let mut found = BTreeMap::new(alloc);
    let mut knots = Vec::new(alloc);
    let mut lists = Vec::new(alloc);
    knots.push(tree.knot())?;
    for _ in 0..tree.size() {
        let Some(knot) = knots.pop() else {
            break;
        };
        open_parts(&mut knots, &mut lists, knot)?;
        enter_all(&mut found, &mut knots, &lists)?;
        lists.clear();
    }
    Ok(found)
}

/// Whether the value has an entry somewhere in the tree. Each node that is looked at takes one of
/// the looks; a value that isn't found before there are none left counts as one with an entry.
pub(crate) fn is_held(
    alloc: Global,
    tree: &Tree,
    value: &Value,
    looks: &mut usize,
) -> Result<bool, AllocError> {
    let mut knots = Vec::new(alloc);
    let mut lists = Vec::new(alloc);
    knots.push(tree.knot())?;
    for _ in 0..*looks {
        let Some(knot) = knots.pop() else {
            return Ok(false);
        };
        *looks = looks.saturating_sub(1);
        open_parts(&mut knots, &mut lists, knot)?;
        if is_in_some(&mut knots, &lists, value)? {
            return Ok(true);
        }
        lists.clear();
    }
    Ok(true)
}

/// Opens the parts of a node: its nodes, and its lists of entries.
fn open_parts<'a>(
    knots: &mut Vec<&'a Knot>,
    lists: &mut Vec<&'a Entries>,
    knot: &'a Knot,
) -> Result<(), AllocError> {
    match knot.node() {
        Node::Dead | Node::Start | Node::Done => Ok(()),
        Node::Opt(_, x) => open_one(knots, x),
        Node::Seq(x, _, rest) => {
            knots.push(x)?;
            open_all(knots, rest)
        }
        Node::Star(_, rest) => open_all(knots, rest),
        Node::Par(pairs) => open_pairs(knots, pairs),
        Node::ParStar(bags) | Node::Times(bags) => open_bags(knots, bags),
        Node::Or(x, y) | Node::And(x, y) | Node::Couple(x, y) => open_two(knots, x, y),
        Node::Any(common, entries) | Node::Every(common, entries) | Node::Sync(common, entries) => {
            lists.push(entries)?;
            open_one(knots, common)
        }
        Node::All(maps) => open_maps(lists, maps),
    }
}

fn open_one<'a>(knots: &mut Vec<&'a Knot>, knot: &'a Knot) -> Result<(), AllocError> {
    knots.push(knot)?;
    Ok(())
}

fn open_two<'a>(
    knots: &mut Vec<&'a Knot>,
    first: &'a Knot,
    second: &'a Knot,
) -> Result<(), AllocError> {
    knots.push(first)?;
    knots.push(second)?;
    Ok(())
}

fn open_all<'a>(knots: &mut Vec<&'a Knot>, parts: &'a [Knot]) -> Result<(), AllocError> {
    for part in parts {
        knots.push(part)?;
    }
    Ok(())
}

fn open_pairs<'a>(knots: &mut Vec<&'a Knot>, pairs: &'a [Pair]) -> Result<(), AllocError> {
    for pair in pairs {
        open_two(knots, &pair.first, &pair.second)?;
    }
    Ok(())
}

fn open_bags<'a>(knots: &mut Vec<&'a Knot>, bags: &'a [Bag]) -> Result<(), AllocError> {
    for bag in bags {
        open_all(knots, &bag.items)?;
    }
    Ok(())
}

fn open_maps<'a>(lists: &mut Vec<&'a Entries>, maps: &'a [Map]) -> Result<(), AllocError> {
    for map in maps {
        lists.push(&map.entries)?;
    }
    Ok(())
}

/// Puts the values of all these entries among those that were found, and opens their states.
fn enter_all<'a>(
    found: &mut Moments,
    knots: &mut Vec<&'a Knot>,
    lists: &[&'a Entries],
) -> Result<(), AllocError> {
    for entries in lists {
        enter(found, knots, entries)?;
    }
    Ok(())
}

fn enter<'a>(
    found: &mut Moments,
    knots: &mut Vec<&'a Knot>,
    entries: &'a Entries,
) -> Result<(), AllocError> {
    for entry in entries.iter() {
        found.insert(entry.0, 0)?;
        knots.push(&entry.1)?;
    }
    Ok(())
}

/// Whether the value has an entry in one of these lists. Else the states of the entries are opened.
fn is_in_some<'a>(
    knots: &mut Vec<&'a Knot>,
    lists: &[&'a Entries],
    value: &Value,
) -> Result<bool, AllocError> {
    for entries in lists {
        if is_in(knots, entries, value)? {
            return Ok(true);
        }
    }
    Ok(false)
}

fn is_in<'a>(
    knots: &mut Vec<&'a Knot>,
    entries: &'a Entries,
    value: &Value,
) -> Result<bool, AllocError> {
    for entry in entries.iter() {
        if entry.0 == *value {
            return Ok(true);
        }
        knots.push(&entry.1)?;
    }
    Ok(false)
}
