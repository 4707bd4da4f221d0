//! The walk over the nodes of an expression, in pre-order, to its first form fault.

ghost use Rattle.std.specs.Prelude.{◌≡◌, suc, ◌<◌, ◌≤◌, ◌==◌, ◌∷◌, [], IfNone, IfOk, OnOk};
ghost use Rattle.std.specs.Option.{option_map};
ghost use Rattle.ix_values.specs.Texts.{IsName};
ghost use Rattle.ix_expr.specs.FormFaults.{fault_at, first_code, nodes_below};
ghost use Rattle.ix_expr.specs.inside.FormOf.{form_of};
ghost use Rattle.ix_expr.specs.inside.Scope.{binders};
ghost use Rattle.ix_expr.specs.Spelling.{IsAtom, IsSpelled};
ghost use Rattle.ix_expr.specs.inside.Walk.{walk_code, Walked};
ghost use Rattle.ix_expr.specs.inside.Walk.{atom_node, quantifier_node, operator_node};

use crate::atom::Atom;
use crate::expr::Expr;
use crate::expression::FormFault;
use crate::scope::Scope;
use ix_values::Name;

/// Why an expression isn't well formed.
#[derive(Clone, Copy)]
enum Cause {
    /// An atom has a parameter that no enclosing quantifier binds.
    Unbound,
    /// A quantifier's parameter is bound by an enclosing one.
    BoundTwice,
    /// An atom inside an `all` doesn't name its parameter.
    AllWithoutParameter,
    /// The node is numbered 512, counted from 0.
    TooManyNodes,
    /// The node is at depth 257.
    TooDeep,
    /// A quantifier stands inside eight others.
    TooManyQuantifiers,
}

impl Cause {
    fn code(self) -> u8
        ensures { result ≡ walk_code self }
    {
        match self {
            Cause::Unbound => 5,
            Cause::BoundTwice => 6,
            Cause::AllWithoutParameter => 7,
            Cause::TooManyNodes => 8,
            Cause::TooDeep => 9,
            Cause::TooManyQuantifiers => 13,
        }
    }
}

/// The fault of this cause at the node of this number.
fn fault_of(cause: Cause, node: usize) -> FormFault
    ensures { result ≡ record { code = walk_code cause; node = node } }
{
    FormFault {
        code: cause.code(),
        node,
    }
}

/// Walks over the nodes of `expr`, whose root has this depth, this scope and this number, to the
/// first fault, or to the number behind the last node.
#[cycle(walk)]
pub(crate) fn walk(
    expr: &Expr,
    depth: usize,
    scope: &Scope,
    number: usize,
) -> Result<usize, FormFault>
    requires shallow { depth ≤ 257 }
    requires few { number ≤ 512 }
    ensures walked { Walked number
        (nodes_below depth (binders scope.now) (form_of expr.now)) result }
    ensures spelled { OnOk result (IsSpelled (form_of expr.now)) }
    ensures room { IfOk result (λ next. next ≤ 512) }
{
    match expr {
        Expr::Atom(atom) => visit_atom(atom, depth, scope, number),
        Expr::Opt(y) | Expr::Star(y) | Expr::ParStar(y) | Expr::Times(_, y) => {
            walk_one(y, depth, scope, number)
        }
        Expr::Seq(y, z) | Expr::Par(y, z) | Expr::Or(y, z) | Expr::And(y, z) | Expr::Couple(y, z) =>
            {
                match walk_one(y, depth, scope, number) {
                    Ok(next) => walk(z, depth + 1, scope, next),
                    Err(fault) => Err(fault),
                }
            }
        Expr::Any(parameter, y) | Expr::Every(parameter, y) | Expr::Sync(parameter, y) => {
            walk_inside(false, parameter, y, depth, scope, number)
        }
        Expr::All(parameter, y) => walk_inside(true, parameter, y, depth, scope, number),
    }
}

#[cycle(walk)]
fn walk_one(operand: &Expr, depth: usize, scope: &Scope, number: usize) -> Result<usize, FormFault>
    requires shallow { depth ≤ 257 }
    requires few { number ≤ 512 }
    ensures walked { Walked number
        (operator_node depth (binders scope.now)
        ∷ nodes_below (suc depth) (binders scope.now) (form_of operand.now)) result }
    ensures spelled { OnOk result (IsSpelled (form_of operand.now)) }
    ensures room { IfOk result (λ next. (depth < 257) × (next ≤ 512)) }
{
    match operator_fault(depth, number) {
        Some(cause) => Err(fault_of(cause, number)),
        None => walk(operand, depth + 1, scope, number + 1),
    }
}

#[cycle(walk)]
fn walk_inside(
    is_all: bool,
    parameter: &Name,
    body: &Expr,
    depth: usize,
    scope: &Scope,
    number: usize,
) -> Result<usize, FormFault>
    requires shallow { depth ≤ 257 }
    requires few { number ≤ 512 }
    ensures walked { Walked number
        (quantifier_node depth (binders scope.now) parameter.now
        ∷ nodes_below (suc depth)
        (record { is_all = is_all; parameter = parameter.now } ∷ binders scope.now)
        (form_of body.now)) result }
    ensures spelled { OnOk result (IsName parameter.now × IsSpelled (form_of body.now)) }
    ensures room { IfOk result (λ next. next ≤ 512) }
{
    match quantifier_fault(parameter, depth, scope, number) {
        Some(cause) => Err(fault_of(cause, number)),
        None => {
            prove!(!parameter.bytes().is_empty());
            let inside = Scope::Inside {
                is_all,
                parameter: &*parameter,
                outer: &*scope,
            };
            walk(body, depth + 1, &inside, number + 1)
        }
    }
}

fn visit_atom(atom: &Atom, depth: usize, scope: &Scope, number: usize) -> Result<usize, FormFault>
    requires shallow { depth ≤ 257 }
    requires few { number ≤ 512 }
    ensures walked { Walked number (atom_node depth (binders scope.now) atom.now ∷ []) result }
    ensures spelled { OnOk result (IsAtom atom.now) }
    ensures room { IfOk result (λ next. next ≤ 512) }
{
    match atom_fault(atom, depth, scope, number) {
        Some(cause) => Err(fault_of(cause, number)),
        None => Ok(number + 1),
    }
}

/// The cause of the fault that any node has by its depth and its number.
fn operator_fault(depth: usize, number: usize) -> Option<Cause>
    requires shallow { depth ≤ 257 }
    requires few { number ≤ 512 }
    ensures value { option_map walk_code result
        ≡ first_code ((8, number == 512) ∷ (9, depth == 257) ∷ []) }
    ensures within { IfNone result ((depth < 257) × (number < 512)) }
{
    if number == 512 {
        Some(Cause::TooManyNodes)
    } else if depth == 257 {
        Some(Cause::TooDeep)
    } else {
        None
    }
}

fn quantifier_fault(parameter: &Name, depth: usize, scope: &Scope, number: usize) -> Option<Cause>
    requires shallow { depth ≤ 257 }
    requires few { number ≤ 512 }
    ensures value { option_map walk_code result
        ≡ fault_at number (quantifier_node depth (binders scope.now) parameter.now) }
    ensures within { IfNone result ((depth < 257) × (number < 512)) }
{
    if number == 512 {
        Some(Cause::TooManyNodes)
    } else if depth == 257 {
        Some(Cause::TooDeep)
    } else if scope.has(8) {
        Some(Cause::TooManyQuantifiers)
    } else if scope.binds(parameter) {
        Some(Cause::BoundTwice)
    } else {
        None
    }
}

fn atom_fault(atom: &Atom, depth: usize, scope: &Scope, number: usize) -> Option<Cause>
    requires shallow { depth ≤ 257 }
    requires few { number ≤ 512 }
    ensures value { option_map walk_code result
        ≡ fault_at number (atom_node depth (binders scope.now) atom.now) }
    ensures within { IfNone result ((depth < 257) × (number < 512)) }
    ensures valid { IsAtom atom.now }
{
    prove!(atom.args().len() <= 4);
    if number == 512 {
        Some(Cause::TooManyNodes)
    } else if depth == 257 {
        Some(Cause::TooDeep)
    } else if !scope.binds_all(atom) {
        Some(Cause::Unbound)
    } else if scope.misses(atom) {
        Some(Cause::AllWithoutParameter)
    } else {
        None
    }
}
