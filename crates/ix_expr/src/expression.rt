//! Well-formed expressions.

ghost use Rattle.std.specs.Prelude.{◌≡◌, ◌<◌, ◌≤◌, ◌↔◌, IsOk, IfOk, IfErr, length};
ghost use Rattle.ix_expr.specs.FormFaults.{IsWellFormed, IsFirstFormFault, HasNumbers, nodes_of};
ghost use Rattle.ix_expr.specs.inside.FormOf.{form_of};
ghost use Rattle.ix_expr.specs.Spelling.{IsSpelled};

use crate::expr::Expr;
use crate::scope::Scope;
use crate::walk::walk;
use std::marker::Model;

/// The first form fault of an expression: a code, and the number of the node in pre-order from 0.
///
/// The codes are 5 where an atom has a parameter that no enclosing quantifier binds, 6 where a
/// quantifier's parameter is bound by an enclosing one, 7 where an atom inside an `all` doesn't
/// name its parameter, 8 at the node numbered 512, 9 at a node at depth 257 (the root has depth 1),
/// and 13 at a quantifier inside eight others.
#[derive(Clone, Copy, Debug, PartialEq, Eq)]
pub struct FormFault {
    pub code: u8,
    pub node: usize,
}

/// A well-formed expression, with the number of its nodes.
#[derive(Drop)]
pub struct Expression {
    expr: Expr,
    nodes: usize,
}

impl Model for Expression {
    ghost use Rattle.ix_expr.specs.Form.{Form};
    ghost use Rattle.ix_expr.specs.lemmas.FormCode.{form_code};

    ghost Value = { Form };

    ghost coded = { form_code };

    ghost use Rattle.std.specs.Prelude.{◌≡◌, length};
    ghost use Rattle.ix_expr.specs.inside.FormOf.{form_of};
    ghost use Rattle.ix_expr.specs.FormFaults.{IsWellFormed, nodes_of};
    ghost use Rattle.ix_expr.specs.Spelling.{IsSpelled};

    ghost view = { λ a. form_of a.expr };

    ghost invariant = { λ a. IsSpelled (form_of a.expr) × IsWellFormed (form_of a.expr)
        × (a.nodes ≡ length (nodes_of (form_of a.expr))) };
}

impl Expression {
    /// The expression, or its first form fault; a refused one is dropped. The number of each
    /// `times` must be 2 to 64.
    pub fn new(expr: Expr) -> Result<Expression, FormFault>
        requires numbers { HasNumbers (form_of expr) }
        ensures ok { IsOk result ↔ IsWellFormed (form_of expr) }
        ensures value { IfOk result (λ expression. expression ≡ form_of expr) }
        ensures fault { IfErr result
            (λ fault. IsFirstFormFault (form_of expr) fault.code fault.node) }
    {
        match walk(&expr, 1, &Scope::Whole, 0) {
            Ok(nodes) => Ok(Expression { expr, nodes }),
            Err(fault) => Err(fault),
        }
    }

    /// The expression itself.
    pub fn expr(&self) -> &Expr
        ensures value { form_of result.now ≡ self.now }
        ensures well_formed { IsWellFormed self.now }
        ensures spelled { IsSpelled self.now }
    {
        &self.expr
    }

    /// The number of its nodes, 1 to 512.
    pub fn nodes(&self) -> usize
        ensures value { result ≡ length (nodes_of self.now) }
        ensures within { (0 < result) × (result ≤ 512) }
    {
        self.nodes
    }
}
