//! Nodes, names and seen values of expressions, which no command tells by themselves.

use super::{action, expression};
use ix_expr::{mentions, sees};
use ix_values::{Name, Value};
use std::alloc::Global;
use std::test::Fail;

fn name(text: &str) -> Result<Name, Fail> {
    Ok(Name::read(text.as_bytes()).ok_or("not a name")?)
}

fn value(text: &str) -> Result<Value, Fail> {
    Ok(Value::read(text.as_bytes()).ok_or("not a value")?)
}

// An expression, and how many nodes it has.
const NODES: [(&str, usize); 4] = [
    ("times 2 a", 2),
    ("times 64 (a - b)", 4),
    ("any $times a($times) | b(times)", 4),
    (" a - b(x) - c | ?((d)) ", 8),
];

fn nodes(alloc: Global, text: &str) -> Result<usize, Fail> {
    Ok(expression(alloc, text)?.nodes())
}

#[test]
fn numbers_of_nodes(rt: HostRuntime) -> Result<(), Fail> {
    for (text, number) in NODES {
        assert!(rt; nodes(rt.alloc(), text)? == number, "{text}");
    }
    Ok(())
}

// An expression, a name, and whether one of its atoms has this name: at the root, on either side,
// and below options, iterations and quantifiers. Parameters, arguments and names that only begin
// alike don't count.
const MENTIONED: [(&str, &str, bool); 12] = [
    ("a", "a", true),
    ("a", "b", false),
    ("a", "aa", false),
    ("a - b", "a", true),
    ("a - b", "b", true),
    ("a - b", "c", false),
    ("a - (b - c)", "c", true),
    ("a - b - c", "b", true),
    ("?all $p a($p)", "a", true),
    ("?all $p a($p)", "p", false),
    ("a(p)", "p", false),
    ("any $p (b - ?c)", "c", true),
];

fn mentions_so(alloc: Global, text: &str, sought: &str) -> Result<bool, Fail> {
    let sought = name(sought)?;
    Ok(mentions(expression(alloc, text)?.expr(), &sought))
}

#[test]
fn mentioned_names(rt: HostRuntime) -> Result<(), Fail> {
    for (text, sought, is_mentioned) in MENTIONED {
        let found = mentions_so(rt.alloc(), text, sought)?;
        assert!(rt; found == is_mentioned, "{sought} in {text}");
    }
    Ok(())
}

// An expression, an action, a value, and whether the expression sees this value by `$p`: on either
// side, below options and quantifiers, and where the value stands in two places. Another value,
// parameter, name or number of values isn't seen, nor is an argument with a value of its own.
const SEEN: [(&str, &str, &str, bool); 14] = [
    ("any $p a($p)", "a(v)", "v", true),
    ("any $p a($p)", "a(v)", "w", false),
    ("any $p a($p)", "b(v)", "v", false),
    ("any $p a($p)", "a(v,v)", "v", false),
    ("any $q a($q)", "a(v)", "v", false),
    ("a(p)", "a(p)", "p", false),
    ("any $p any $q a($p,$q)", "a(v,w)", "v", true),
    ("any $p any $q a($p,$q)", "a(v,w)", "w", false),
    ("any $p any $q a($p,$q)", "a(v,v)", "v", true),
    ("any $p any $q a($p,$q)", "a(v)", "v", false),
    ("any $p any $q (a($q) - a($p))", "a(v)", "v", true),
    ("any $p any $q (a($p) - a($q))", "a(v)", "v", true),
    ("any $q (a($q) - ?a(p))", "a(v)", "v", false),
    ("any $q ?all $p a($p)", "a(v)", "v", true),
];

fn sees_so(alloc: Global, text: &str, came: &str, sought: &str) -> Result<bool, Fail> {
    let (p, came, sought) = (name("p")?, action(came)?, value(sought)?);
    Ok(sees(expression(alloc, text)?.expr(), &p, &sought, &came))
}

#[test]
fn seen_values(rt: HostRuntime) -> Result<(), Fail> {
    for (text, came, sought, is_seen) in SEEN {
        let found = sees_so(rt.alloc(), text, came, sought)?;
        assert!(rt; found == is_seen, "{sought} of {came} in {text}");
    }
    Ok(())
}
