//! Which states some moves lead from to a complete word.

ghost use Rattle.std.specs.Prelude.{◌≡◌, ◌<◌, ℕ, true, false, length, map, IfOk, MatchOption};
ghost use Rattle.std.specs.Bool.{OnTrue};
ghost use Rattle.ix_expr.specs.inside.FormOf.{form_of};
ghost use Rattle.ix_can.specs.TreeOf.{is_final};
ghost use Rattle.ix_stuck.specs.declared.graph.State.{State};
ghost use Rattle.ix_stuck.specs.inside.Graphs.{At};
ghost use Rattle.ix_stuck.specs.inside.Marks.{AreMarked, EdgesSettled, FinalsMarked};
ghost use Rattle.ix_stuck.specs.inside.Marks.{NoneNearer, mark_at};
ghost use Rattle.ix_stuck.specs.inside.Ruled.{form, EdgesAre};

use crate::graph::{Edge, State};
use crate::marks::{is_marked, mark};
use crate::rules::Rules;
use ix_can::is_final;
use ix_expr::Expr;
use std::alloc::{AllocError, Global};

/// A mark for each state, true where it is known that it can end.
pub(crate) fn finishing(
    rules: Rules<'_>,
    states: &[State],
    edges: &[Edge],
) -> Result<Vec<bool>, AllocError>
    requires { EdgesAre rules states.now edges.now }
    ensures sound { IfOk result (λ marks. AreMarked (form rules.entry) rules.entry.moves.now
        states.now marks.items) }
    ensures as_many { IfOk result (λ marks. length marks.items ≡ length states.now) }
{
    let mut marks = final_marks(rules.alloc, rules.expr, states)?;
    for _ in 0..states.len() {
        if !spread(rules, states, edges, &mut marks) {
            break;
        }
    }
    Ok(marks)
}

/// True for the states that are final.
fn final_marks(alloc: Global, expr: &Expr, states: &[State]) -> Result<Vec<bool>, AllocError>
    ensures { IfOk result (λ marks. marks.items
        ≡ map (λ (state : State). is_final (form_of expr.now) state.tree) states.now) }
{
    let mut marks = Vec::new(alloc);
    for state in states {
        marks.push(is_final(&state.tree, expr))?;
    }
    Ok(marks)
}

/// Marks each state from which a move leads to a marked one, the last move first, and tells whether
/// there was such a state.
fn spread(rules: Rules<'_>, states: &[State], edges: &[Edge], marks: &mut Vec<bool>) -> bool
    requires edges { EdgesAre rules states.now edges.now }
    requires sound { AreMarked (form rules) rules.moves.now states.now marks.old.items }
    ensures as_many { length marks.new.items ≡ length marks.old.items }
    ensures sound { AreMarked (form rules.entry) rules.entry.moves.now states.now marks.new.items }
{
    let mut more = false;
    for index in (0..edges.len()).rev() {
        let edge = edges[index];
        if is_marked(marks, edge.to) && !is_marked(marks, edge.from) {
            mark(marks, edge.from);
            more = true;
        }
    }
    more
}

/// Whether all states that are final are marked, and all from which a move leads to a marked one.
pub(crate) fn is_settled(expr: &Expr, states: &[State], edges: &[Edge], marks: &[bool]) -> bool
    ensures edges { OnTrue result (EdgesSettled edges.now marks.now) }
    ensures finals { OnTrue result (FinalsMarked (form_of expr.now) states.now marks.now) }
{
    has_finals(expr, states, marks) && has_sources(edges, marks)
}

fn has_finals(expr: &Expr, states: &[State], marks: &[bool]) -> bool
    ensures { OnTrue result (FinalsMarked (form_of expr.now) states.now marks.now) }
{
    for (place, state) in states.iter().enumerate() {
        if is_final(&state.tree, expr) && !is_marked(marks, place) {
            return false;
        }
    }
    true
}

fn has_sources(edges: &[Edge], marks: &[bool]) -> bool
    ensures { OnTrue result (EdgesSettled edges.now marks.now) }
{
    for edge in edges {
        if is_marked(marks, edge.to) && !is_marked(marks, edge.from) {
            return false;
        }
    }
    true
}

/// The first place without a mark.
pub(crate) fn first_unmarked(marks: &[bool]) -> Option<usize>
    ensures { MatchOption result ((i : ℕ) → i < length marks.now → mark_at marks.now i ≡ true)
        (λ place. mark_at marks.now place ≡ false) }
{
    marks.iter().position(|mark| !*mark)
}

/// Whether at least so many moves lead to each state without a mark.
pub(crate) fn none_is_nearer(states: &[State], marks: &[bool], depth: usize) -> bool
    ensures { OnTrue result (NoneNearer states.now marks.now depth) }
{
    for (place, state) in states.iter().enumerate() {
        if state.depth < depth && !is_marked(marks, place) {
            return false;
        }
    }
    true
}
