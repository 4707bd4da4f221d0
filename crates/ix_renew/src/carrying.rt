//! The carried word.

ghost use Rattle.std.specs.Prelude.{◌≡◌, ◌≤◌, [], IfOk};
ghost use Rattle.ix_can.specs.TreeOf.{tree_of};
ghost use Rattle.ix_step.specs.inside.Limits.{most_size};
ghost use Rattle.ix_engine.specs.Histories.{AreAllowed};
ghost use Rattle.ix_renew.specs.Carried.{IsCarriedFor};
ghost use Rattle.ix_renew.specs.inside.Walking.{CanWalk, IsCarried, rules_form};

use crate::candidates::{Candidate, word_of};
use crate::leads::leads;
use crate::returns::without_returns;
use crate::rules::Rules;
use ix_engine::Engine;
use ix_expr::Env;
use ix_step::{BuildFault, LeafTrees, initial};
use ix_values::Action;
use std::alloc::{AllocError, Global};

/// The word that a renewal carries in place of the engine's history, each action of which is
/// allowed behind those in front of it, as `Engine::resume` found it: a word of no more actions
/// with the same tree, each action of which is allowed too, so `resume` takes it. It is empty where
/// the history's tree is that of the empty word. In general it isn't the shortest, and it may be
/// the history itself. Want of memory is the one error.
///
/// It takes the time of a few starts: one for each of the candidates, and one for each test of one.
pub fn carried(alloc: Global, engine: &Engine) -> Result<Vec<Action>, AllocError>
    requires most { engine.now.limit ≤ most_size }
    requires allowed { AreAllowed engine.now.form engine.now.limit engine.now.history }
    ensures carried { IfOk result (λ word. IsCarriedFor engine.now.form engine.now.limit
        engine.now.history word.items) }
    ensures nothing { tree_of engine.now.form [] engine.now.history
        ≡ tree_of engine.now.form [] [] → IfOk result (λ word. word.items ≡ []) }
{
    let leaves = LeafTrees::new(alloc)?;
    let expr = engine.expression().expr();
    let limit = engine.limit();
    let history = engine.history();
    prove!(engine.nodes() <= limit);
    let first = match initial(alloc, expr, limit) {
        Ok(first) => first,
        Err(BuildFault::Over { .. }) => return Vec::from_slice(alloc, history),
        Err(BuildFault::Memory) => return Err(AllocError),
    };
    if first == *engine.tree() {
        return Ok(Vec::new(alloc));
    }
    search(Rules {
        alloc,
        expr,
        env: &Env::new(),
        leaves: &leaves,
        limit,
        first: &first,
        last: engine.tree(),
        history,
    })
}

/// The first candidate that passes the test, without its returns where that passes it too.
fn search(rules: Rules<'_>) -> Result<Vec<Action>, AllocError>
    requires ready { CanWalk rules }
    requires allowed { AreAllowed (rules_form rules) rules.limit rules.history.now }
    ensures { IfOk result (λ word. IsCarried rules.entry word.items) }
{
    let word = first_that_leads(rules)?;
    let short = without_returns(rules, &word)?;
    if short.len() < word.len() && leads(rules, &short)? {
        return Ok(short);
    }
    Ok(word)
}

/// The first candidate that passes the test. The history itself is the last one, and passes it.
fn first_that_leads(rules: Rules<'_>) -> Result<Vec<Action>, AllocError>
    requires ready { CanWalk rules }
    requires allowed { AreAllowed (rules_form rules) rules.limit rules.history.now }
    ensures { IfOk result (λ word. IsCarried rules.entry word.items) }
{
    for candidate in [Candidate::Steady, Candidate::Entered, Candidate::Touched] {
        let word = word_of(rules, candidate)?;
        if word.len() < rules.history.len() && leads(rules, &word)? {
            return Ok(word);
        }
    }
    Vec::from_slice(rules.alloc, rules.history)
}
