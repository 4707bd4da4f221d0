//! Operands that were read, with the places of their nodes.

ghost use Rattle.std.specs.Prelude.{◌≡◌, ◌≤◌, length, IfOk};
ghost use Rattle.ix_parse.specs.Symbols as spec;

use crate::signs::{Operator, Prefix, Quantifier};
use ix_expr::{Arg, Atom, Expr};
use ix_values::Name;
use std::alloc::{AllocError, Global};

/// An operand, and where the token of each of its nodes starts, the nodes in pre-order.
#[derive(Drop)]
pub(crate) struct Operand {
    pub expr: Expr,
    pub places: Vec<usize>,
}

impl Operand {
    ghost use Rattle.ix_parse.specs.declared.signs.WordClass.TheVariants.{Names};
    ghost use Rattle.ix_parse.specs.inside.Operands.{meaning_of};

    pub(crate) fn atom(
        alloc: Global,
        at: usize,
        name: Name,
        args: &[Arg],
    ) -> Result<Operand, AllocError>
        requires named { spec.class_of name ≡ Names }
        requires few { length args.now ≤ 4 }
        ensures { IfOk result (λ x. meaning_of x ≡ spec.named at name args.now) }
    {
        let Some(atom) = Atom::new(name, args) else {
            unreachable!()
        };
        let mut places = Vec::new(alloc);
        places.push(at)?;
        let expr = Expr::Atom(atom);
        Ok(Operand { expr, places })
    }

    pub(crate) fn prefixed(
        self,
        alloc: Global,
        prefix: Prefix,
        at: usize,
    ) -> Result<Operand, AllocError>
        ensures { IfOk result (λ x. meaning_of x ≡ spec.prefixed prefix at (meaning_of self)) }
    {
        let Operand { expr, mut places } = self;
        places.insert(0, at)?;
        let inner = Box::new(alloc, expr)?;
        let expr = match prefix {
            Prefix::Opt => Expr::Opt(inner),
            Prefix::Star => Expr::Star(inner),
            Prefix::ParStar => Expr::ParStar(inner),
        };
        Ok(Operand { expr, places })
    }

    pub(crate) fn quantified(
        self,
        alloc: Global,
        quantifier: Quantifier,
        at: usize,
        param: Name,
    ) -> Result<Operand, AllocError>
        ensures { IfOk result
            (λ x. meaning_of x ≡ spec.quantified quantifier at param (meaning_of self)) }
    {
        let Operand { expr, mut places } = self;
        places.insert(0, at)?;
        let inner = Box::new(alloc, expr)?;
        let expr = match quantifier {
            Quantifier::Any => Expr::Any(param, inner),
            Quantifier::Every => Expr::Every(param, inner),
            Quantifier::Sync => Expr::Sync(param, inner),
            Quantifier::All => Expr::All(param, inner),
        };
        Ok(Operand { expr, places })
    }

    pub(crate) fn counted(self, alloc: Global, number: u8, at: usize) -> Result<Operand, AllocError>
        ensures { IfOk result (λ x. meaning_of x ≡ spec.counted number at (meaning_of self)) }
    {
        let Operand { expr, mut places } = self;
        places.insert(0, at)?;
        let inner = Box::new(alloc, expr)?;
        let expr = Expr::Times(number, inner);
        Ok(Operand { expr, places })
    }

    pub(crate) fn joined(
        self,
        alloc: Global,
        operator: Operator,
        at: usize,
        right: Operand,
    ) -> Result<Operand, AllocError>
        ensures { IfOk result
            (λ x. meaning_of x ≡ spec.joined_meaning operator at (meaning_of self)
            (meaning_of right)) }
    {
        let Operand { expr, mut places } = self;
        let Operand {
            expr: right_expr,
            places: right_places,
        } = right;
        places.insert(0, at)?;
        places.extend_from_slice(right_places.as_slice())?;
        let left = Box::new(alloc, expr)?;
        let right = Box::new(alloc, right_expr)?;
        let expr = match operator {
            Operator::Or => Expr::Or(left, right),
            Operator::And => Expr::And(left, right),
            Operator::Couple => Expr::Couple(left, right),
            Operator::Par => Expr::Par(left, right),
            Operator::Seq => Expr::Seq(left, right),
        };
        Ok(Operand { expr, places })
    }
}
