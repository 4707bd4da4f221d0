//! The search for all states.

ghost use Rattle.std.specs.Prelude.{◌<◌, ◌+◌, length};
ghost use Rattle.std.specs.Prelude.{IfOk, IfErr, OnOk};
ghost use Rattle.ix_stuck.specs.inside.Graphs.{At};
ghost use Rattle.ix_stuck.specs.inside.Ruled.{CanSearch, Led, HoldsUpTo, Stops, Joins};
ghost use Rattle.ix_stuck.specs.inside.Ruled.{Grows, HasTreeAt};

use crate::graph::{Edge, Graph, Halt, State, stands};
use crate::rules::{Rules, next_tree};
use ix_tree::Tree;
use ix_values::Action;
use std::collections::BTreeMap;

/// The places of the states, by their trees.
type Known = BTreeMap<Tree, usize>;

/// From where a move goes, and which it is.
#[derive(Clone, Copy)]
struct Origin {
    from: usize,
    by: usize,
}

/// All states that the moves lead to from the start, and all moves between them.
pub(crate) fn explore(rules: Rules<'_>) -> Result<Graph, Halt>
    requires { CanSearch rules }
    ensures whole { IfOk result (λ graph. HoldsUpTo rules.entry graph.states.items graph.edges.items
        (length graph.states.items) 0) }
    ensures stops { IfErr result (λ halt. Stops rules.entry halt) }
{
    let mut known = BTreeMap::new(rules.alloc);
    let mut graph = begin(rules, &mut known)?;
    for at in 0..rules.limits.states {
        if at >= graph.states.len() {
            return Ok(graph);
        }
        visit(rules, &mut graph, &mut known, at)?;
    }
    if graph.states.len() <= rules.limits.states {
        Ok(graph)
    } else {
        Err(Halt::Many)
    }
}

/// The graph of the start alone.
fn begin(rules: Rules<'_>, known: &mut Known) -> Result<Graph, Halt>
    requires { CanSearch rules }
    ensures begun { IfOk result (λ graph. HoldsUpTo rules.entry graph.states.items graph.edges.items
        0 0) }
    ensures stops { IfErr result (λ halt. Stops rules.entry halt) }
{
    let mut graph = Graph {
        states: Vec::new(rules.alloc),
        edges: Vec::new(rules.alloc),
    };
    let start = rules.start.copy(rules.alloc)?;
    known.insert(start.copy(rules.alloc)?, 0)?;
    graph.states.push(State {
        tree: start,
        depth: 0,
        from: 0,
        by: 0,
    })?;
    Ok(graph)
}

/// Puts the moves from the state at this place into the graph, and the states that they lead to.
fn visit(rules: Rules<'_>, graph: &mut Graph, known: &mut Known, at: usize) -> Result<(), Halt>
    requires ready { CanSearch rules }
    requires within { at < length graph.old.states.items }
    requires holds { HoldsUpTo rules graph.old.states.items graph.old.edges.items at 0 }
    ensures visited { OnOk result (HoldsUpTo rules.entry graph.new.states.items
        graph.new.edges.items (at + 1) 0) }
    ensures stops { IfErr result (λ halt. Stops rules.entry halt) }
{
    for (by, action) in rules.moves.iter().enumerate() {
        take(rules, graph, known, Origin { from: at, by }, action)?;
    }
    Ok(())
}

/// Puts the move into the graph where it may come, and the state that it leads to.
fn take(
    rules: Rules<'_>,
    graph: &mut Graph,
    known: &mut Known,
    origin: Origin,
    action: &Action,
) -> Result<(), Halt>
    requires ready { CanSearch rules }
    requires within { origin.from < length graph.old.states.items }
    requires holds { HoldsUpTo rules graph.old.states.items graph.old.edges.items origin.from
        origin.by }
    requires action { At rules.moves.now origin.by action.now }
    ensures taken { OnOk result (HoldsUpTo rules.entry graph.new.states.items graph.new.edges.items
        origin.from (origin.by + 1)) }
    ensures within { OnOk result (origin.from < length graph.new.states.items) }
    ensures stops { IfErr result (λ halt. Stops rules.entry halt) }
{
    match next_tree(rules, &graph.states[origin.from].tree, action) {
        Ok(Some(next)) => lead(rules, graph, known, origin, next),
        Ok(None) => Ok(()),
        Err(halt) => Err(halt),
    }
}

/// Puts the move into the graph, and the state that it leads to where that is new.
fn lead(
    rules: Rules<'_>,
    graph: &mut Graph,
    known: &mut Known,
    origin: Origin,
    next: Tree,
) -> Result<(), Halt>
    requires ready { CanSearch rules }
    requires within { origin.from < length graph.old.states.items }
    requires holds { HoldsUpTo rules graph.old.states.items graph.old.edges.items origin.from
        origin.by }
    requires joins { Joins rules graph.old.states.items origin.from origin.by next }
    ensures led { OnOk result (HoldsUpTo rules.entry graph.new.states.items graph.new.edges.items
        origin.from (origin.by + 1)) }
    ensures within { OnOk result (origin.from < length graph.new.states.items) }
    ensures stops { IfErr result (λ halt. Stops rules.entry halt) }
{
    let to = place(rules, graph, known, origin, next)?;
    let near = graph.states[origin.from].depth.saturating_add(1);
    if graph.states[to].depth > near {
        return Err(Halt::Unconfirmed);
    }
    graph.edges.push(Edge {
        from: origin.from,
        by: origin.by,
        to,
    })?;
    Ok(())
}

/// The place of the state with this tree, which is put behind the others where it is new.
fn place(
    rules: Rules<'_>,
    graph: &mut Graph,
    known: &mut Known,
    origin: Origin,
    next: Tree,
) -> Result<usize, Halt>
    requires within { origin.from < length graph.old.states.items }
    requires holds { HoldsUpTo rules graph.old.states.items graph.old.edges.items origin.from
        origin.by }
    requires led { Led rules next }
    ensures stands { IfOk result (λ to. HasTreeAt graph.new.states.items to next) }
    ensures more { Grows graph.old.states.items graph.new.states.items }
    ensures holds { HoldsUpTo rules.entry graph.new.states.items graph.new.edges.items origin.from
        origin.by }
    ensures stops { IfErr result (λ halt. Stops rules.entry halt) }
{
    if let Some(to) = known.get(&next) {
        let found = stands(&graph.states, *to, &next);
        return if found {
            Ok(*to)
        } else {
            Err(Halt::Unconfirmed)
        };
    }
    let to = graph.states.len();
    if to >= rules.limits.states {
        return Err(Halt::Many);
    }
    let depth = graph.states[origin.from].depth.saturating_add(1);
    known.insert(next.copy(rules.alloc)?, to)?;
    graph.states.push(State {
        tree: next,
        depth,
        from: origin.from,
        by: origin.by,
    })?;
    Ok(to)
}
