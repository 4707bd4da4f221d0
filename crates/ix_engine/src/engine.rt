//! The engine.

ghost use Rattle.std.specs.Prelude.{◌≡◌, ◌<◌, ◌≤◌, ◌↔◌, ℕ, [], ◌∷◌, ◌++◌, length};
ghost use Rattle.std.specs.Prelude.{IsTrue, IfOk, IfErr, OnOk, OnErr};
ghost use Rattle.ix_engine.specs.Limits.{most_actions};
ghost use Rattle.ix_expr.specs.Meaning.{IsComplete};
ghost use Rattle.ix_tree.specs.Size.{size_of};
ghost use Rattle.ix_can.specs.TreeOf.{tree_of, tree_size};
ghost use Rattle.ix_step.specs.inside.Limits.{most_size};
ghost use Rattle.ix_engine.specs.inside.Engine.{Allows, Permits, IsTreeAfter, extended_by};
ghost use Rattle.ix_engine.specs.Histories.{AreAllowed, IsRefused, StopsAt};

use crate::extending::{MOST_ACTIONS, Rules, extend};
use crate::{Next, PrepareFault, ResumeFault};
use ix_can::{can, is_final};
use ix_expr::{Env, Expression};
use ix_step::{BuildFault, LeafTrees, initial};
use ix_tree::Tree;
use ix_values::Action;
use std::alloc::{AllocError, Global};
use std::marker::Model;

/// The confirmed actions of an expression, and the state tree of this history, which is always
/// there. What its steps share is made once, with the engine.
#[derive(Drop)]
pub struct Engine {
    expression: Expression,
    env: Env,
    leaves: LeafTrees,
    history: Vec<Action>,
    tree: Tree,
    limit: usize,
}

impl Model for Engine {
    ghost use Rattle.ix_engine.specs.Limits.{most_actions};
    ghost use Rattle.ix_engine.specs.inside.Engine.{EngineState};
    ghost use Rattle.ix_expr.specs.lemmas.FormCode.{form_code};
    ghost use Rattle.std.specs.Coded.{codes};

    ghost Value = { EngineState };

    ghost coded = { Prim.hlevel (codes, form_code) };

    ghost use Rattle.std.specs.Prelude.{◌≡◌, ◌≤◌, ◌-◌, [], length};
    ghost use Rattle.std.specs.Vec.{vec_capacity, vec_len};
    ghost use Rattle.ix_tree.specs.Size.{size_of};
    ghost use Rattle.ix_can.specs.TreeOf.{tree_of};

    ghost view = { λ s. record {
      form = s.expression;
      history = s.history.items;
      limit = s.limit;
      spare = vec_capacity s.history - vec_len s.history;
    } };

    // The tree is that of the history, both are within their limits, and the environment has no
    // parameter in it.
    ghost invariant = { λ s. (s.tree ≡ tree_of s.expression [] s.history.items)
        × (length s.history.items ≤ most_actions)
        × (size_of s.tree ≤ s.limit)
        × (s.limit ≤ 1000000)
        × (s.env ≡ []) };
}

impl Engine {
    /// The engine of an expression with an empty history. The limit, 1 to 1,000,000, is the most
    /// that the Size of its tree may be; `Over` comes exactly where the tree of the empty word is
    /// above it. A refused expression is dropped.
    pub fn new(alloc: Global, expression: Expression, limit: usize) -> Result<Engine, BuildFault>
        requires least { 1 ≤ limit }
        requires most { limit ≤ most_size }
        ensures form { IfOk result (λ s. s.form ≡ expression) }
        ensures history { IfOk result (λ s. s.history ≡ []) }
        ensures limit { IfOk result (λ s. s.limit ≡ limit) }
        ensures within { OnOk result (tree_size expression [] ≤ limit) }
        ensures over { (l : ℕ) → result ≡ Err (BuildFault.Over l)
            → (l ≡ limit) × (limit < tree_size expression []) }
    {
        let Ok(leaves) = LeafTrees::new(alloc) else {
            return Err(BuildFault::Memory);
        };
        match initial(alloc, expression.expr(), limit) {
            Ok(tree) => Ok(Engine {
                expression,
                env: Env::new(),
                leaves,
                history: Vec::new(alloc),
                tree,
                limit,
            }),
            Err(fault) => Err(fault),
        }
    }

    /// Takes a list of actions, the oldest first, as the history of an engine that has none. The
    /// list itself is kept. Of the first action that `prepare` would refuse behind those in front
    /// of it the number and the refusal are told; the engine and the list are dropped then.
    pub fn resume(self, _alloc: Global, actions: Vec<Action>) -> Result<Engine, ResumeFault>
        requires new { self.history ≡ [] }
        ensures history { IfOk result (λ s. s.history ≡ actions.items) }
        ensures form { IfOk result (λ s. s.form ≡ self.form) }
        ensures limit { IfOk result (λ s. s.limit ≡ self.limit) }
        ensures allowed { OnOk result (AreAllowed self.form self.limit actions.items) }
        ensures refused { IfErr result (λ fault. StopsAt self.form self.limit actions.items fault) }
    {
        let Engine {
            expression,
            env,
            leaves,
            history: _,
            mut tree,
            limit,
        } = self;
        for (index, action) in actions.iter().enumerate() {
            let rules = Rules {
                expr: expression.expr(),
                env: &env,
                leaves: &leaves,
                limit,
            };
            match extend(rules, &tree, index, action) {
                Ok(next) => tree = next,
                Err(why) => {
                    let number = index as u64 + 1;
                    return Err(ResumeFault { number, why });
                }
            }
        }
        Ok(Engine {
            expression,
            env,
            leaves,
            history: actions,
            tree,
            limit,
        })
    }

    /// Whether the history extended by the action is a partial word.
    pub fn may(&self, action: &Action) -> bool
        ensures { IsTrue result ↔ Permits self.now action.now }
    {
        can(&self.tree, self.expression.expr(), &self.env, action)
    }

    /// Whether the history is a complete word.
    pub fn is_complete(&self) -> bool
        ensures { IsTrue result ↔ IsComplete self.now.form [] self.now.history }
    {
        is_final(&self.tree, self.expression.expr())
    }

    /// The confirmed actions, the oldest first, at most 1,000,000.
    pub fn history(&self) -> &[Action]
        ensures value { result.now ≡ self.now.history }
        ensures most { length self.now.history ≤ MOST_ACTIONS }
    {
        self.history.as_slice()
    }

    /// The expression.
    pub fn expression(&self) -> &Expression
        ensures { result.now ≡ self.now.form }
    {
        &self.expression
    }

    /// The state tree of the history.
    pub fn tree(&self) -> &Tree
        ensures { result.now ≡ tree_of self.now.form [] self.now.history }
    {
        &self.tree
    }

    /// The Size of the history's tree, at most the limit.
    pub fn nodes(&self) -> usize
        ensures value { result ≡ tree_size self.now.form self.now.history }
        ensures within { result ≤ self.now.limit }
    {
        self.tree.size()
    }

    /// The most that the Size of the tree may be.
    pub fn limit(&self) -> usize
        ensures { result ≡ self.now.limit }
    {
        self.limit
    }

    /// The action with the tree of the extended history; it follows this engine. The refusals in
    /// their order: `NotPartial` exactly where the action may not come next, `Full` exactly where
    /// the history has 1,000,000 actions, `Over` exactly where the Size of the extended history's
    /// tree is above the limit, and want of memory.
    pub fn prepare(&self, _alloc: Global, action: &Action) -> Result<Next, PrepareFault>
        ensures follows { IfOk result (λ next. IsTreeAfter self.now next.action next.tree) }
        ensures action { IfOk result (λ next. next.action ≡ action.now) }
        ensures permitted { OnOk result (Allows self.now action.now) }
        ensures not_partial { (result ≡ Err PrepareFault.NotPartial)
            ↔ ¬ Permits self.now action.now }
        ensures full { (result ≡ Err PrepareFault.Full)
            ↔ (Permits self.now action.now × (length self.now.history ≡ most_actions)) }
        ensures over { (l : ℕ) → result ≡ Err (PrepareFault.Over l)
            → (l ≡ self.now.limit)
            × Permits self.now action.now
            × (length self.now.history < most_actions)
            × (self.now.limit < tree_size self.now.form (extended_by self.now action.now)) }
        ensures refused { IfErr result
            (λ why. IsRefused self.now.form self.now.limit self.now.history action.now why) }
    {
        let expr = self.expression.expr();
        let actions = self.history.len();
        let rules = Rules {
            expr,
            env: &self.env,
            leaves: &self.leaves,
            limit: self.limit,
        };
        match extend(rules, &self.tree, actions, action) {
            Ok(tree) => Ok(Next {
                action: *action,
                tree,
            }),
            Err(fault) => Err(fault),
        }
    }

    /// Takes the memory for one more action, so that `commit` needs none. Nothing else changes.
    pub fn reserve_one(&mut self) -> Result<(), AllocError>
        ensures spare { OnOk result (1 ≤ self.new.spare) }
        ensures form { self.new.form ≡ self.old.form }
        ensures history { self.new.history ≡ self.old.history }
        ensures limit { self.new.limit ≡ self.old.limit }
    {
        self.history.reserve(1)
    }

    /// Extends the history by a prepared action. Takes no memory.
    pub fn commit(&mut self, next: Next)
        requires follows { IsTreeAfter self.old next.action next.tree }
        requires spare { 1 ≤ self.old.spare }
        ensures history { self.new.history ≡ extended_by self.old next.action }
        ensures form { self.new.form ≡ self.old.form }
        ensures limit { self.new.limit ≡ self.old.limit }
    {
        let Next { action, tree } = next;
        let pushed = self.history.push(action);
        prove!(pushed.is_ok());
        self.tree = tree;
    }

    /// Extends the history by an allowed action: `prepare`, `reserve_one` and `commit` in one call.
    /// Any other is refused as by `prepare`, and then nothing changes.
    pub fn take(&mut self, alloc: Global, action: &Action) -> Result<(), PrepareFault>
        ensures taken { OnOk result (self.new.history ≡ extended_by self.old action.now) }
        ensures allowed { OnOk result (Allows self.old action.now) }
        ensures refused { IfErr result
            (λ why. IsRefused self.old.form self.old.limit self.old.history action.now why) }
        ensures kept { OnErr result (self.new.history ≡ self.old.history) }
        ensures form { self.new.form ≡ self.old.form }
        ensures limit { self.new.limit ≡ self.old.limit }
    {
        let next = self.prepare(alloc, action)?;
        self.reserve_one()?;
        self.commit(next);
        Ok(())
    }

    /// Whether `prepare` would give the action, were there memory enough.
    pub fn permitted(&self, alloc: Global, action: &Action) -> Result<bool, AllocError>
        ensures { IfOk result (λ answer. IsTrue answer ↔ Allows self.now action.now) }
    {
        let prepared = self.prepare(alloc, action);
        if matches!(prepared, Err(PrepareFault::Memory)) {
            return Err(AllocError);
        }
        Ok(prepared.is_ok())
    }
}
