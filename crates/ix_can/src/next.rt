//! Whether an action may come next, from the tree of the word before it.

ghost use Rattle.std.specs.Prelude.{◌≡◌, ◌↔◌, true, false, ◌∷◌, ◌++◌, ◌&&◌, ◌||◌, [], None, Some};
ghost use Rattle.std.specs.Prelude.{map, length, nat_lt, not, IsTrue};
ghost use Rattle.std.specs.List.{list_all, list_any};
ghost use Rattle.ix_words.specs.Each.{Each};
ghost use Rattle.ix_values.specs.PlainAction.{Word};
ghost use Rattle.ix_expr.specs.Environment.{bind};
ghost use Rattle.ix_expr.specs.Fitting.{FitsInside};
ghost use Rattle.ix_expr.specs.Form.{couple};
ghost use Rattle.ix_expr.specs.FormFaults.{Fits};
ghost use Rattle.ix_expr.specs.inside.FormOf.{form_of};
ghost use Rattle.ix_expr.specs.Laws.{EachAtomNames};
ghost use Rattle.ix_expr.specs.Meaning.{IsPartial};
ghost use Rattle.ix_tree.specs.Order.{key, first_part, second_part};
ghost use Rattle.ix_tree.specs.Plain.{couple as couple_of, listed, items_of};
ghost use Rattle.ix_tree.specs.PlainOf.{plain_pair, plain_bag, plain_map, plain_entries};
ghost use Rattle.ix_can.specs.declared.next.Outside.TheVariants.{Refused};
ghost use Rattle.ix_can.specs.inside.CanAsk.{stays, may_or_stays, each_may_or_stays, may_own};
ghost use Rattle.ix_can.specs.inside.CanAsk.{CanAsk, AreProper, UnseenAnswer};
ghost use Rattle.ix_can.specs.Laws.{IsProper, IsRising, ProperEntries};
ghost use Rattle.ix_can.specs.May.{may, may_first, tree_at};
ghost use Rattle.ix_expr.specs.Tests.{in_alphabet};
ghost use Rattle.ix_can.specs.TreeOf.{tree_of};

use crate::first::begins;
use crate::values::{state_at, state_of};
use ix_expr::{Env, Expr, contains, matches, sees};
use ix_tree::{Bag, Entries, Knot, Map, Node, Pair, Tree};
use ix_values::{Action, Name, Value};

/// Whether the word extended by the action is partial, where `tree` is the tree of the word.
pub fn can(tree: &Tree, expr: &Expr, env: &Env, action: &Action) -> bool
    requires fits { Fits (form_of expr.now) env.now }
    requires proper { IsProper (form_of expr.now) tree.now }
    ensures by_tree { result ≡ may (form_of expr.now) env.now tree.now action.now }
    ensures tells { (w : Word) → tree.now ≡ tree_of (form_of expr.now) env.now w
        → IsTrue result ↔ IsPartial (form_of expr.now) env.now (w ++ action.now ∷ []) }
{
    goes_on(expr, env, tree.knot(), action)
}

/// What becomes of an action outside the alphabet.
#[derive(Clone, Copy)]
enum Outside {
    /// It may not come.
    Refused,
    /// It leaves the tree as it is.
    Stays,
}

/// The parameter and the body of a quantifier.
#[derive(Clone, Copy)]
struct Body<'a> {
    parameter: &'a Name,
    expr: &'a Expr,
}

#[cycle(goes_on)]
pub fn goes_on(expr: &Expr, env: &Env, state: &Knot, action: &Action) -> bool
    requires { CanAsk (form_of expr.now) env.now state.now }
    ensures { result ≡ may (form_of expr.now) env.now state.now action.now }
{
    match (expr, state.node()) {
        (Expr::Atom(atom), Node::Start) => matches(atom, env, action),
        (Expr::Opt(y), Node::Opt(_, x)) => goes_on(y, env, x, action),
        (Expr::Seq(y, z), Node::Seq(x, _, rest)) => {
            goes_on(y, env, x, action) || some_goes_on(z, env, rest, action)
        }
        (Expr::Star(y), Node::Star(again, rest)) => {
            begins_again(*again, y, env, action) || some_goes_on(y, env, rest, action)
        }
        (Expr::Par(y, z), Node::Par(pairs)) => some_pair_goes_on(y, z, env, pairs, action),
        (Expr::ParStar(y), Node::ParStar(bags)) => some_bag_goes_on(y, env, bags, action),
        (Expr::Or(y, z), Node::Or(left, right)) => {
            goes_on(y, env, left, action) || goes_on(z, env, right, action)
        }
        (Expr::And(y, z), Node::And(left, right)) => {
            goes_on(y, env, left, action) && goes_on(z, env, right, action)
        }
        (Expr::Couple(y, z), Node::Couple(left, right)) => {
            coupled_go_on(y, z, env, left, right, action)
        }
        (Expr::Any(parameter, expr), Node::Any(common, entries)) => {
            some_goes_on_for(Body { parameter, expr }, env, common, entries, action)
        }
        (Expr::Every(parameter, expr), Node::Every(common, entries)) => {
            let body = Body { parameter, expr };
            each_goes_on_for(body, Outside::Refused, env, common, entries, action)
        }
        (Expr::Sync(parameter, y), Node::Sync(common, entries)) => {
            let body = Body { parameter, expr: y };
            contains(expr, env, action) && each_goes_on_or_stays(body, env, common, entries, action)
        }
        (Expr::All(parameter, expr), Node::All(maps)) => {
            some_map_goes_on(Body { parameter, expr }, env, maps, action)
        }
        (Expr::Times(number, y), Node::Times(bags)) => {
            some_limited_bag_goes_on(*number, y, env, bags, action)
        }
        _ => false,
    }
}

fn begins_again(again: bool, y: &Expr, env: &Env, action: &Action) -> bool
    requires { Fits (form_of y.now) env.now }
    ensures { result ≡ (again && may_first (form_of y.now) env.now action.now) }
{
    again && begins(y, env, action)
}

#[cycle(goes_on)]
fn some_goes_on(y: &Expr, env: &Env, items: &[Knot], action: &Action) -> bool
    requires fits { Fits (form_of y.now) env.now }
    requires proper { Each (IsProper (form_of y.now)) (items_of (listed items.now)) }
    ensures { result
        ≡ list_any (λ x. may (form_of y.now) env.now x action.now) (items_of (listed items.now)) }
{
    for item in items {
        if goes_on(y, env, item, action) {
            return true;
        }
    }
    false
}

#[cycle(goes_on)]
fn pair_goes_on(y: &Expr, z: &Expr, env: &Env, pair: &Pair, action: &Action) -> bool
    requires first { CanAsk (form_of y.now) env.now pair.now.first }
    requires second { CanAsk (form_of z.now) env.now pair.now.second }
    ensures { result ≡ (may (form_of y.now) env.now pair.now.first action.now || may (form_of z.now)
        env.now pair.now.second action.now) }
{
    goes_on(y, env, &pair.first, action) || goes_on(z, env, &pair.second, action)
}

#[cycle(goes_on)]
fn some_pair_goes_on(y: &Expr, z: &Expr, env: &Env, pairs: &[Pair], action: &Action) -> bool
    requires left { Fits (form_of y.now) env.now }
    requires right { Fits (form_of z.now) env.now }
    requires proper { Each (λ p. IsProper (form_of y.now) (first_part p) × IsProper (form_of z.now)
        (second_part p)) (items_of (listed (map plain_pair pairs.now))) }
    ensures { result
        ≡ list_any
        (λ p. may (form_of y.now) env.now (first_part p) action.now
        || may (form_of z.now) env.now (second_part p) action.now)
        (items_of (listed (map plain_pair pairs.now))) }
{
    for pair in pairs {
        if pair_goes_on(y, z, env, pair, action) {
            return true;
        }
    }
    false
}

#[cycle(goes_on)]
fn bag_goes_on(y: &Expr, env: &Env, bag: &Bag, action: &Action) -> bool
    requires fits { Fits (form_of y.now) env.now }
    requires proper { Each (IsProper (form_of y.now)) (items_of (listed bag.now.items.items)) }
    ensures { result
        ≡ (may_first (form_of y.now) env.now action.now
        || list_any (λ x. may (form_of y.now) env.now x action.now)
        (items_of (listed bag.now.items.items))) }
{
    begins(y, env, action) || some_goes_on(y, env, &bag.items, action)
}

#[cycle(goes_on)]
fn some_bag_goes_on(y: &Expr, env: &Env, bags: &[Bag], action: &Action) -> bool
    requires fits { Fits (form_of y.now) env.now }
    requires proper { Each
        (λ b. IsRising (items_of (first_part b))
        × Each (IsProper (form_of y.now)) (items_of (first_part b)))
        (items_of (listed (map plain_bag bags.now))) }
    ensures { result
        ≡ list_any
        (λ b. may_first (form_of y.now) env.now action.now
        || list_any (λ x. may (form_of y.now) env.now x action.now) (items_of (first_part b)))
        (items_of (listed (map plain_bag bags.now))) }
{
    for bag in bags {
        if bag_goes_on(y, env, bag, action) {
            return true;
        }
    }
    false
}

/// One more run begins, where there are fewer than are wanted, or one goes on.
#[cycle(goes_on)]
fn limited_bag_goes_on(number: u8, y: &Expr, env: &Env, bag: &Bag, action: &Action) -> bool
    requires fits { Fits (form_of y.now) env.now }
    requires proper { Each (IsProper (form_of y.now)) (items_of (listed bag.now.items.items)) }
    ensures { result
        ≡ ((nat_lt (length (items_of (listed bag.now.items.items))) number
        && may_first (form_of y.now) env.now action.now)
        || list_any (λ x. may (form_of y.now) env.now x action.now)
        (items_of (listed bag.now.items.items))) }
{
    let more = bag.items.len() < usize::from(number);
    begins_again(more, y, env, action) || some_goes_on(y, env, &bag.items, action)
}

#[cycle(goes_on)]
fn some_limited_bag_goes_on(number: u8, y: &Expr, env: &Env, bags: &[Bag], action: &Action) -> bool
    requires fits { Fits (form_of y.now) env.now }
    requires proper { Each
        (λ b. IsRising (items_of (first_part b))
        × Each (IsProper (form_of y.now)) (items_of (first_part b)))
        (items_of (listed (map plain_bag bags.now))) }
    ensures { result
        ≡ list_any
        (λ b. (nat_lt (length (items_of (first_part b))) number
        && may_first (form_of y.now) env.now action.now)
        || list_any (λ x. may (form_of y.now) env.now x action.now) (items_of (first_part b)))
        (items_of (listed (map plain_bag bags.now))) }
{
    for bag in bags {
        if limited_bag_goes_on(number, y, env, bag, action) {
            return true;
        }
    }
    false
}

/// How an action meets one side of `@`.
#[derive(Clone, Copy)]
pub struct Met {
    /// Whether it is in the side's alphabet.
    pub inside: bool,
    /// Whether the side goes on with it.
    pub goes_on: bool,
}

impl Met {
    /// Whether the side has the action in its alphabet and doesn't go on with it.
    pub fn refuses(self) -> bool
        ensures { result ≡ (self.inside && not self.goes_on) }
    {
        self.inside && !self.goes_on
    }
}

/// Each side that has the action in its alphabet must go on, and one of them must have it. Each is
/// asked once.
#[cycle(goes_on)]
fn coupled_go_on(y: &Expr, z: &Expr, env: &Env, left: &Knot, right: &Knot, action: &Action) -> bool
    requires first { CanAsk (form_of y.now) env.now left.now }
    requires second { CanAsk (form_of z.now) env.now right.now }
    ensures { result ≡ may (couple (form_of y.now) (form_of z.now)) env.now
        (couple_of left.now right.now) action.now }
{
    let left = meets(y, env, left, action);
    if left.refuses() {
        return false;
    }
    let right = meets(z, env, right, action);
    if right.refuses() {
        return false;
    }
    left.inside || right.inside
}

/// How the action meets a side of `@`. Of `all` no other value's state is looked at than the
/// action's own, so it is asked first whether it goes on: where it does, the action is in its
/// alphabet.
#[cycle(goes_on)]
pub fn meets(y: &Expr, env: &Env, state: &Knot, action: &Action) -> Met
    requires { CanAsk (form_of y.now) env.now state.now }
    ensures inside { result.inside ≡ in_alphabet (form_of y.now) env.now action.now }
    ensures goes_on { result.goes_on ≡ may (form_of y.now) env.now state.now action.now }
{
    if matches!(y, Expr::All(_, _)) {
        let moves = goes_on(y, env, state, action);
        let inside = moves || contains(y, env, action);
        return Met {
            inside,
            goes_on: moves,
        };
    }
    let inside = contains(y, env, action);
    let moves = inside && goes_on(y, env, state, action);
    Met {
        inside,
        goes_on: moves,
    }
}

#[cycle(goes_on)]
fn goes_on_or_stays(y: &Expr, outside: Outside, env: &Env, state: &Knot, action: &Action) -> bool
    requires { CanAsk (form_of y.now) env.now state.now }
    ensures { result ≡ may_or_stays (stays outside) (form_of y.now) env.now state.now action.now }
{
    match outside {
        Outside::Refused => goes_on(y, env, state, action),
        Outside::Stays => !contains(y, env, action) || goes_on(y, env, state, action),
    }
}

/// A value of None is outside.
#[cycle(goes_on)]
fn goes_on_at(
    body: Body,
    outside: Outside,
    value: Option<Value>,
    env: &Env,
    state: &Knot,
    action: &Action,
) -> bool
    requires fits { FitsInside body.parameter.now (form_of body.expr.now) env.now }
    requires proper { IsProper (form_of body.expr.now) state.now }
    ensures { result
        ≡ may_or_stays (stays outside) (form_of body.entry.expr.now)
        (bind body.entry.parameter.now value env.now) state.now action.now }
{
    let mut inside = *env;
    inside.bind(*body.parameter, value);
    goes_on_or_stays(body.expr, outside, &inside, state, action)
}

#[cycle(goes_on)]
fn some_entry_goes_on(body: Body, env: &Env, entries: &Entries, action: &Action) -> bool
    requires fits { FitsInside body.parameter.now (form_of body.expr.now) env.now }
    requires proper { Each (λ x. IsProper (form_of body.expr.now) (first_part x))
        (items_of (plain_entries entries.now)) }
    ensures { result
        ≡ list_any
        (λ x. may (form_of body.entry.expr.now)
        (bind body.entry.parameter.now (Some (key x)) env.now) (first_part x) action.now)
        (items_of (plain_entries entries.now)) }
{
    for entry in entries.iter() {
        if goes_on_at(body, Outside::Refused, Some(entry.0), env, &entry.1, action) {
            return true;
        }
    }
    false
}

#[cycle(goes_on)]
fn each_entry_goes_on(
    body: Body,
    outside: Outside,
    env: &Env,
    entries: &Entries,
    action: &Action,
) -> bool
    requires fits { FitsInside body.parameter.now (form_of body.expr.now) env.now }
    requires proper { Each (λ x. IsProper (form_of body.expr.now) (first_part x))
        (items_of (plain_entries entries.now)) }
    ensures { result
        ≡ list_all
        (λ x. may_or_stays (stays outside) (form_of body.entry.expr.now)
        (bind body.entry.parameter.now (Some (key x)) env.now) (first_part x) action.now)
        (items_of (plain_entries entries.now)) }
{
    for entry in entries.iter() {
        if !goes_on_at(body, outside, Some(entry.0), env, &entry.1, action) {
            return false;
        }
    }
    true
}

/// A value that has no entry is at the common tree. One that the body doesn't see does as others
/// do, which don't go on.
#[cycle(goes_on)]
fn some_own_goes_on(
    body: Body,
    env: &Env,
    common: &Knot,
    entries: &Entries,
    action: &Action,
) -> bool
    requires fits { FitsInside body.parameter.now (form_of body.expr.now) env.now }
    requires common { IsProper (form_of body.expr.now) common.now }
    requires entries { AreProper (form_of body.expr.now) entries.now }
    requires unseen { UnseenAnswer false (stays Refused) (form_of body.expr.now) body.parameter.now
        env.now action.now common.now (items_of (plain_entries entries.now)) }
    ensures { result
        ≡ list_any
        (λ v. may (form_of body.entry.expr.now) (bind body.entry.parameter.now (Some v) env.now)
        (tree_at v common.now (items_of (plain_entries entries.now))) action.now)
        action.now.values }
{
    for value in action.values() {
        let state = state_at(entries, common, value);
        if sees(body.expr, body.parameter, value, action)
            && goes_on_at(body, Outside::Refused, Some(*value), env, state, action)
        {
            return true;
        }
    }
    false
}

/// A value that has no entry is at the common tree. One that the body doesn't see does as others
/// do, which go on.
#[cycle(goes_on)]
fn each_own_goes_on(
    body: Body,
    outside: Outside,
    env: &Env,
    common: &Knot,
    entries: &Entries,
    action: &Action,
) -> bool
    requires fits { FitsInside body.parameter.now (form_of body.expr.now) env.now }
    requires common { IsProper (form_of body.expr.now) common.now }
    requires entries { AreProper (form_of body.expr.now) entries.now }
    requires unseen { UnseenAnswer true (stays outside) (form_of body.expr.now) body.parameter.now
        env.now action.now common.now (items_of (plain_entries entries.now)) }
    ensures { result
        ≡ list_all
        (λ v. may_or_stays (stays outside) (form_of body.entry.expr.now)
        (bind body.entry.parameter.now (Some v) env.now)
        (tree_at v common.now (items_of (plain_entries entries.now))) action.now)
        action.now.values }
{
    for value in action.values() {
        let state = state_at(entries, common, value);
        if sees(body.expr, body.parameter, value, action)
            && !goes_on_at(body, outside, Some(*value), env, state, action)
        {
            return false;
        }
    }
    true
}

/// Outside stands for every value that has no entry and isn't one of the action's.
#[cycle(goes_on)]
fn some_goes_on_for(
    body: Body,
    env: &Env,
    common: &Knot,
    entries: &Entries,
    action: &Action,
) -> bool
    requires fits { FitsInside body.parameter.now (form_of body.expr.now) env.now }
    requires common { IsProper (form_of body.expr.now) common.now }
    requires entries { AreProper (form_of body.expr.now) entries.now }
    ensures { result
        ≡ (may (form_of body.entry.expr.now)
        (bind body.entry.parameter.now None env.now) common.now action.now
        || (list_any
        (λ x. may (form_of body.entry.expr.now)
        (bind body.entry.parameter.now (Some (key x)) env.now) (first_part x) action.now)
        (items_of (plain_entries entries.now))
        || list_any
        (λ v. may (form_of body.entry.expr.now) (bind body.entry.parameter.now (Some v) env.now)
        (tree_at v common.now (items_of (plain_entries entries.now))) action.now)
        action.now.values)) }
{
    goes_on_at(body, Outside::Refused, None, env, common, action)
        || (some_entry_goes_on(body, env, entries, action)
            || some_own_goes_on(body, env, common, entries, action))
}

/// Outside stands for every value that has no entry and isn't one of the action's.
#[cycle(goes_on)]
fn each_goes_on_for(
    body: Body,
    outside: Outside,
    env: &Env,
    common: &Knot,
    entries: &Entries,
    action: &Action,
) -> bool
    requires fits { FitsInside body.parameter.now (form_of body.expr.now) env.now }
    requires common { IsProper (form_of body.expr.now) common.now }
    requires entries { AreProper (form_of body.expr.now) entries.now }
    ensures { result ≡ each_may_or_stays (stays outside) (form_of body.entry.expr.now)
        body.entry.parameter.now env.now action.now common.now
        (items_of (plain_entries entries.now)) }
{
    goes_on_at(body, outside, None, env, common, action)
        && (each_entry_goes_on(body, outside, env, entries, action)
            && each_own_goes_on(body, outside, env, common, entries, action))
}

/// Where outside isn't in the alphabet, no value is but those of the action that the body sees:
/// each other one stays, whether it has an entry or not.
#[cycle(goes_on)]
fn each_goes_on_or_stays(
    body: Body,
    env: &Env,
    common: &Knot,
    entries: &Entries,
    action: &Action,
) -> bool
    requires fits { FitsInside body.parameter.now (form_of body.expr.now) env.now }
    requires common { IsProper (form_of body.expr.now) common.now }
    requires entries { AreProper (form_of body.expr.now) entries.now }
    ensures { result ≡ each_may_or_stays true (form_of body.entry.expr.now)
        body.entry.parameter.now env.now action.now common.now
        (items_of (plain_entries entries.now)) }
{
    let mut outside = *env;
    outside.bind(*body.parameter, None);
    if contains(body.expr, &outside, action) {
        return each_goes_on_for(body, Outside::Stays, env, common, entries, action);
    }
    each_own_goes_on(body, Outside::Stays, env, common, entries, action)
}

/// In some map one of the action's own values goes on: no other value takes part.
#[cycle(goes_on)]
fn some_map_goes_on(body: Body, env: &Env, maps: &[Map], action: &Action) -> bool
    requires fits { FitsInside body.parameter.now (form_of body.expr.now) env.now }
    requires named { EachAtomNames body.parameter.now (form_of body.expr.now) }
    requires proper { Each
        (λ m. ProperEntries (IsProper (form_of body.expr.now))
        (tree_of (form_of body.expr.now) [] []) (items_of (first_part m)))
        (items_of (listed (map plain_map maps.now))) }
    ensures { result ≡ list_any (λ m. list_any (λ v. may_own (form_of body.entry.expr.now)
        body.entry.parameter.now env.now action.now (items_of (first_part m)) v) action.now.values)
        (items_of (listed (map plain_map maps.now))) }
{
    for map in maps {
        if some_owner_goes_on(body, env, &map.entries, action) {
            return true;
        }
    }
    false
}

/// A value that the body doesn't see doesn't go on, since each atom names the parameter.
#[cycle(goes_on)]
fn some_owner_goes_on(body: Body, env: &Env, entries: &Entries, action: &Action) -> bool
    requires fits { FitsInside body.parameter.now (form_of body.expr.now) env.now }
    requires named { EachAtomNames body.parameter.now (form_of body.expr.now) }
    requires proper { AreProper (form_of body.expr.now) entries.now }
    ensures { result ≡ list_any (λ v. may_own (form_of body.entry.expr.now) body.entry.parameter.now
        env.now action.now (items_of (plain_entries entries.now)) v) action.now.values }
{
    for value in action.values() {
        if sees(body.expr, body.parameter, value, action)
            && owner_goes_on(body, value, env, entries, action)
        {
            return true;
        }
    }
    false
}

/// A value that has no entry in the map begins.
#[cycle(goes_on)]
fn owner_goes_on(body: Body, value: &Value, env: &Env, entries: &Entries, action: &Action) -> bool
    requires fits { FitsInside body.parameter.now (form_of body.expr.now) env.now }
    requires proper { AreProper (form_of body.expr.now) entries.now }
    ensures { result ≡ may_own (form_of body.entry.expr.now) body.entry.parameter.now env.now
        action.now (items_of (plain_entries entries.now)) value.now }
{
    match state_of(entries, value) {
        Some(state) if !state.is_dead() => {
            goes_on_at(body, Outside::Refused, Some(*value), env, state, action)
        }
        _ => {
            let mut inside = *env;
            inside.bind(*body.parameter, Some(*value));
            begins(body.expr, &inside, action)
        }
    }
}
