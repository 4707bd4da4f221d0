//! Whether a whole expression can be stuck.

ghost use Rattle.std.specs.Prelude.{◌≡◌, ◌≤◌, [], length, IfOk, IfErr};
ghost use Rattle.ix_values.specs.PlainAction.{Word};
ghost use Rattle.ix_expr.specs.FormFaults.{IsWellFormed};
ghost use Rattle.ix_expr.specs.inside.FormOf.{form_of};
ghost use Rattle.ix_can.specs.TreeOf.{tree_of};
ghost use Rattle.ix_step.specs.inside.Limits.{most_size};
ghost use Rattle.ix_stuck.specs.Answers.{IsAnswer};
ghost use Rattle.ix_stuck.specs.Gone.{AreGone};
ghost use Rattle.ix_stuck.specs.inside.Marks.{LeadsTo};
ghost use Rattle.ix_stuck.specs.inside.Ruled.{form, HoldsUpTo, CanSearch, Led, HasTreeAt};
ghost use Rattle.ix_stuck.specs.inside.Ruled.{Stops, EndTells};

use crate::answer::{Answer, Limits};
use crate::explore::explore;
use crate::finish::{finishing, first_unmarked, is_settled, none_is_nearer};
use crate::gone::{coming, gone};
use crate::graph::{Edge, Halt, State, stands};
use crate::rules::Rules;
use crate::word::{Told, follow, path_to};
use ix_expr::{Env, Expr, Expression};
use ix_step::{BuildFault, LeafTrees, initial};
use ix_tree::Tree;
use ix_values::Action;
use std::alloc::{AllocError, Global};

/// Whether the moves can lead to a word that no moves complete. A move may be taken again and
/// again. Want of memory is the one error.
pub fn stuck(
    alloc: Global,
    expression: &Expression,
    moves: &[Action],
    limits: Limits,
) -> Result<Answer, AllocError>
    requires least { 1 ≤ limits.nodes }
    requires most { limits.nodes ≤ most_size }
    ensures { IfOk result (λ answer. IsAnswer expression.now moves.now limits.nodes answer) }
{
    match answer(alloc, expression.expr(), moves, limits) {
        Ok(answer) => Ok(answer),
        Err(Halt::Memory) => Err(AllocError),
        Err(Halt::Large) => Ok(Answer::Large),
        Err(Halt::Many) => Ok(Answer::Many),
        Err(Halt::Unconfirmed) => Ok(Answer::Unconfirmed),
    }
}

/// The answer for the expression itself, or why there is none.
fn answer(alloc: Global, expr: &Expr, moves: &[Action], limits: Limits) -> Result<Answer, Halt>
    requires formed { IsWellFormed (form_of expr.now) }
    requires least { 1 ≤ limits.nodes }
    requires most { limits.nodes ≤ most_size }
    ensures answer { IfOk result
        (λ answer. IsAnswer (form_of expr.now) moves.now limits.nodes answer) }
    ensures halts { IfErr result (λ halt. EndTells (form_of expr.now) moves.now limits.nodes halt) }
{
    let leaves = LeafTrees::new(alloc)?;
    let start = match initial(alloc, expr, limits.nodes) {
        Ok(start) => start,
        Err(BuildFault::Over { .. }) => return Err(Halt::Large),
        Err(BuildFault::Memory) => return Err(Halt::Memory),
    };
    let rules = Rules {
        alloc,
        expr,
        env: &Env::new(),
        leaves: &leaves,
        moves,
        limits,
        start: &start,
    };
    match search(rules) {
        Ok(answer) => Ok(answer),
        Err(halt) => Err(halt),
    }
}

/// The answer of a search from the tree of the empty word.
fn search(rules: Rules<'_>) -> Result<Answer, Halt>
    requires ready { CanSearch rules }
    requires begun { rules.start.now ≡ tree_of (form rules) [] [] }
    ensures answer { IfOk result (λ answer. IsAnswer (form rules.entry) rules.entry.moves.now
        rules.entry.limits.nodes answer) }
    ensures stops { IfErr result (λ halt. Stops rules.entry halt) }
{
    match explore(rules) {
        Ok(graph) => judge(rules, graph.states.as_slice(), graph.edges.as_slice()),
        Err(halt) => Err(halt),
    }
}

/// The answer of all states and of all moves between them.
fn judge(rules: Rules<'_>, states: &[State], edges: &[Edge]) -> Result<Answer, Halt>
    requires ready { CanSearch rules }
    requires begun { rules.start.now ≡ tree_of (form rules) [] [] }
    requires whole { HoldsUpTo rules states.now edges.now (length states.now) 0 }
    ensures answer { IfOk result (λ answer. IsAnswer (form rules.entry) rules.entry.moves.now
        rules.entry.limits.nodes answer) }
    ensures stops { IfErr result (λ halt. Stops rules.entry halt) }
{
    let found = finishing(rules, states, edges)?;
    let marks = found.as_slice();
    if !is_settled(rules.expr, states, edges, marks) {
        return Err(Halt::Unconfirmed);
    }
    let Some(place) = first_unmarked(marks) else {
        return Ok(Answer::Never {
            states: states.len(),
        });
    };
    let Told { word, tree } = word_to(rules, states, place)?;
    if !none_is_nearer(states, marks, word.len()) {
        return Err(Halt::Unconfirmed);
    }
    let gone = gone_behind(rules, &tree)?;
    Ok(Answer::Stuck { word, gone })
}

/// The word to the state at this place, and its tree.
fn word_to(rules: Rules<'_>, states: &[State], place: usize) -> Result<Told, Halt>
    requires ready { CanSearch rules }
    ensures stands { IfOk result (λ told. HasTreeAt states.now place told.tree) }
    ensures leads { IfOk result (λ told. LeadsTo (form rules.entry) rules.entry.moves.now
        rules.entry.start.now told.word.items told.tree) }
    ensures led { IfOk result (λ told. Led rules.entry told.tree) }
    ensures stops { IfErr result (λ halt. Stops rules.entry halt) }
{
    let path = path_to(rules.alloc, states, place)?;
    let told = follow(rules, &path)?;
    if !stands(states, place, &told.tree) {
        return Err(Halt::Unconfirmed);
    }
    Ok(told)
}

/// The numbers of the atoms that match no action to which some moves lead behind the word of this
/// tree.
fn gone_behind(rules: Rules<'_>, tree: &Tree) -> Result<Vec<usize>, Halt>
    requires ready { CanSearch rules }
    requires led { Led rules tree.now }
    ensures gone { IfOk result (λ gone. (w : Word) → tree.now ≡ tree_of (form rules.entry) [] w
        → AreGone (form rules.entry) rules.entry.moves.now w gone.items) }
    ensures stops { IfErr result (λ halt. Stops rules.entry halt) }
{
    let behind = Rules {
        start: tree,
        ..rules
    };
    let graph = match explore(behind) {
        Ok(graph) => graph,
        Err(Halt::Memory) => return Err(Halt::Memory),
        Err(_) => return Err(Halt::Unconfirmed),
    };
    let coming = coming(rules.alloc, rules.moves, &graph.edges)?;
    let gone = gone(rules.alloc, rules.expr, &coming)?;
    Ok(gone)
}
