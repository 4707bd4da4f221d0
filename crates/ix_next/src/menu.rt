//! The menu: which actions may come next.

ghost use Rattle.std.specs.Prelude.{◌≡◌, ◌<◌, ◌≤◌, [], true, false, filter, map, length, IfOk};
ghost use Rattle.std.specs.Prelude.{OnOk, IfErr};
ghost use Rattle.ix_expr.specs.Form.{Form};
ghost use Rattle.ix_expr.specs.inside.FormOf.{form_of};
ghost use Rattle.ix_can.specs.TreeOf.{tree_of};
ghost use Rattle.ix_expr.specs.Atoms.{atoms_of};
ghost use Rattle.ix_next.specs.Fixed.{fixed_in};
ghost use Rattle.ix_next.specs.Candidates.{action_with, candidates, candidate_eq, once};
ghost use Rattle.ix_next.specs.inside.Trials.{new_of, may_come_next, CanAskTrial};
ghost use Rattle.ix_next.specs.Menu as spec;

use crate::atoms::{collect, fixed_values};
use crate::candidate::Candidate;
use crate::fill::{Scope, found};
use crate::fresh::{Known, new_values};
use crate::given::Given;
use crate::trial::{Test, Trial, action};
use indexmap::IndexSet;
use ix_expr::{Atom, Expr, Expression};
use ix_tree::Tree;
use ix_values::{Action, Value};
use std::alloc::{AllocError, Global};

/// The most candidates that are tried for a menu, repeats counted.
pub const CANDIDATE_LIMIT: usize = 1_000_000;

/// The most candidates that are made into moves, repeats counted.
pub const MOVE_LIMIT: usize = 100_000;

/// Why there is no menu, or no list of moves.
#[derive(Clone, Copy, Debug, PartialEq, Eq)]
pub enum MenuFault {
    /// There are too many candidates.
    Many,
    /// Memory ran out.
    Memory,
}

/// The atoms of an expression, and the values that are fixed in it.
#[derive(Drop)]
struct Parts {
    atoms: Vec<Atom>,
    fixed: Vec<Value>,
}

fn parts_of(alloc: Global, expr: &Expr) -> Result<Parts, AllocError>
    ensures atoms { IfOk result (λ parts. parts.atoms.items ≡ atoms_of (form_of expr.now)) }
    ensures fixed { IfOk result (λ parts. parts.fixed.items ≡ fixed_in (form_of expr.now)) }
{
    let mut atoms = Vec::new(alloc);
    collect(&mut atoms, expr)?;
    let fixed = fixed_values(alloc, &atoms)?;
    Ok(Parts { atoms, fixed })
}

/// The actions of the candidates without new values, each once: for each atom of the expression in
/// pre-order those in which each of its parameters has a value that is given for it, or one that is
/// fixed in the expression. Whether they may come isn't asked. `Many` comes where there are more
/// than `MOVE_LIMIT` of them, those that stand there again counted too.
pub fn moves(
    alloc: Global,
    expression: &Expression,
    given: &[Given],
) -> Result<Vec<Action>, MenuFault>
    ensures value { IfOk result (λ moves. moves.items ≡ spec.moves expression.now given.now) }
    ensures few { OnOk result (length (candidates false expression.now given.now) ≤ MOVE_LIMIT) }
    ensures many { IfErr result (λ fault. fault ≡ MenuFault.Many
        → MOVE_LIMIT < length (candidates false expression.now given.now)) }
{
    let Ok(parts) = parts_of(alloc, expression.expr()) else {
        return Err(MenuFault::Memory);
    };
    let scope = Scope {
        alloc,
        fixed: &parts.fixed,
        given,
        new: false,
        limit: MOVE_LIMIT,
        test: Test::Everything,
    };
    match found(&scope, &parts.atoms) {
        Ok(found) => match actions(alloc, found.as_slice()) {
            Ok(moves) => Ok(moves),
            Err(_) => Err(MenuFault::Memory),
        },
        Err(fault) => Err(fault),
    }
}

/// The actions of the candidates, with the value `0` for each new one.
fn actions(alloc: Global, candidates: &[Candidate]) -> Result<Vec<Action>, AllocError>
    ensures { IfOk result
        (λ actions. actions.items ≡ map (action_with (new_of [])) candidates.now) }
{
    let mut actions = Vec::new(alloc);
    for candidate in candidates {
        actions.push(action(candidate, &[]))?;
    }
    Ok(actions)
}

/// The candidates in a list of their own.
fn listed(alloc: Global, candidates: &[Candidate]) -> Result<Vec<Candidate>, AllocError>
    ensures { IfOk result (λ listed. listed.items ≡ candidates.now) }
{
    let mut listed = Vec::new(alloc);
    for candidate in candidates {
        listed.push(*candidate)?;
    }
    Ok(listed)
}

/// The menu: of the candidates of the expression, each once, those that may come behind the
/// history, whose tree `tree` is. They stand atom by atom in pre-order, and at an atom in the order
/// of its parameters' values from the left: given values in the order given, then those fixed in
/// the expression, ascending, then new ones by their numbers. `Many` comes where there are more
/// than `CANDIDATE_LIMIT` candidates, those that stand there again counted too.
pub fn next(
    alloc: Global,
    expression: &Expression,
    tree: &Tree,
    history: &[Action],
    given: &[Given],
) -> Result<Vec<Candidate>, MenuFault>
    requires { tree.now ≡ tree_of expression.now [] history.now }
    ensures value { IfOk result
        (λ menu. spec.IsMenu expression.now history.now given.now menu.items) }
    ensures few { OnOk result
        (length (candidates true expression.now given.now) ≤ CANDIDATE_LIMIT) }
    ensures many { IfErr result (λ fault. fault ≡ MenuFault.Many
        → CANDIDATE_LIMIT < length (candidates true expression.now given.now)) }
{
    let Ok(parts) = parts_of(alloc, expression.expr()) else {
        return Err(MenuFault::Memory);
    };
    let known = Known {
        history,
        fixed: &parts.fixed,
        given,
    };
    let Some(new) = new_values(known) else {
        return Err(MenuFault::Memory);
    };
    match counted(alloc, &parts, given) {
        Ok(_) => {}
        Err(fault) => return Err(fault),
    }
    let trial = Trial {
        expression,
        tree,
        new: &new,
    };
    match tried(alloc, trial, &parts, given) {
        Ok(found) => match listed(alloc, found.as_slice()) {
            Ok(menu) => Ok(menu),
            Err(_) => Err(MenuFault::Memory),
        },
        Err(fault) => Err(fault),
    }
}

/// No candidate, if there are no more than are tried.
fn counted(alloc: Global, parts: &Parts, given: &[Given]) -> Result<IndexSet<Candidate>, MenuFault>
    ensures { (x : Form) → parts.now.atoms.items ≡ atoms_of x → parts.now.fixed.items ≡ fixed_in x
        → IfErr result (λ fault. fault ≡ MenuFault.Many
        → CANDIDATE_LIMIT < length (candidates true x given.now)) }
{
    let scope = Scope {
        alloc,
        fixed: &parts.fixed,
        given,
        new: true,
        limit: CANDIDATE_LIMIT,
        test: Test::Nothing,
    };
    found(&scope, &parts.atoms)
}

/// The candidates of which the action that is tried may come.
fn tried(
    alloc: Global,
    trial: Trial,
    parts: &Parts,
    given: &[Given],
) -> Result<IndexSet<Candidate>, MenuFault>
    requires { CanAskTrial trial }
    ensures value { (x : Form) → parts.now.atoms.items ≡ atoms_of x
        → parts.now.fixed.items ≡ fixed_in x
        → IfOk result (λ found. found.keys
        ≡ filter (may_come_next trial.entry) (once candidate_eq (candidates true x given.now))) }
    ensures few { (x : Form) → parts.now.atoms.items ≡ atoms_of x
        → parts.now.fixed.items ≡ fixed_in x
        → OnOk result (length (candidates true x given.now) ≤ CANDIDATE_LIMIT) }
    ensures many { (x : Form) → parts.now.atoms.items ≡ atoms_of x
        → parts.now.fixed.items ≡ fixed_in x
        → IfErr result (λ fault. fault ≡ MenuFault.Many
        → CANDIDATE_LIMIT < length (candidates true x given.now)) }
{
    let scope = Scope {
        alloc,
        fixed: &parts.fixed,
        given,
        new: true,
        limit: CANDIDATE_LIMIT,
        test: Test::MayCome(trial),
    };
    found(&scope, &parts.atoms)
}
