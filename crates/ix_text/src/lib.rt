//! The canonical text of an expression.
#![tactic(auto)]

ghost use Rattle.std.specs.Prelude.{◌≡◌, ◌∷◌, ◌++◌, [], ◌<◌, nat_lt, nat_le, IfOk, OnOk, length};
ghost use Rattle.std.specs.Prelude.{vec_len, codes, decimal};
ghost use Rattle.ix_expr.specs.CanonicalText as spec;
ghost use Rattle.ix_expr.specs.inside.FormOf.{form_of};

use itoa::Buffer;
use ix_expr::{Arg, Atom, Expr, Expression};
use ix_values::Name;
use std::alloc::{AllocError, Global};

/// The canonical text of the expression, which is shorter than 65,536 bytes.
///
/// An operand stands in parentheses exactly where it is a left operand that binds weaker than its
/// operator, a right operand that binds weaker or equally, or a binary operand of a prefix.
pub fn text(alloc: Global, expression: &Expression) -> Result<Vec<u8>, AllocError>
    ensures value { IfOk result (λ text. text.items ≡ spec.canonical_text expression.now) }
    ensures short { IfOk result (λ text. vec_len text < 65536) }
{
    let mut text = Vec::new(alloc);
    write(&mut text, expression.expr())?;
    Ok(text)
}

/// Puts the canonical text of a part of an expression behind what is there.
#[cycle(writer)]
pub fn write(out: &mut Vec<u8>, expr: &Expr) -> Result<(), AllocError>
    ensures { OnOk result
        (out.new.items ≡ out.old.items ++ spec.canonical_text (form_of expr.now)) }
{
    match expr {
        Expr::Atom(atom) => write_atom(out, atom),
        Expr::Opt(y) => write_prefix(out, b'?', y),
        Expr::Star(y) => write_prefix(out, b'*', y),
        Expr::ParStar(y) => write_prefix(out, b'#', y),
        Expr::Or(y, z) => {
            write_left(out, y, 1, b'|')?;
            write_operand(out, z, binding(z) <= 1)
        }
        Expr::And(y, z) => {
            write_left(out, y, 2, b'&')?;
            write_operand(out, z, binding(z) <= 2)
        }
        Expr::Couple(y, z) => {
            write_left(out, y, 3, b'@')?;
            write_operand(out, z, binding(z) <= 3)
        }
        Expr::Par(y, z) => {
            write_left(out, y, 4, b'+')?;
            write_operand(out, z, binding(z) <= 4)
        }
        Expr::Seq(y, z) => {
            write_left(out, y, 5, b'-')?;
            write_operand(out, z, binding(z) <= 5)
        }
        Expr::Any(parameter, y) => write_quantifier(out, b"any", parameter, y),
        Expr::Every(parameter, y) => write_quantifier(out, b"every", parameter, y),
        Expr::Sync(parameter, y) => write_quantifier(out, b"sync", parameter, y),
        Expr::All(parameter, y) => write_quantifier(out, b"all", parameter, y),
        Expr::Times(number, y) => write_times(out, *number, y),
    }
}

#[cycle(writer)]
fn write_prefix(out: &mut Vec<u8>, operator: u8, operand: &Expr) -> Result<(), AllocError>
    ensures { OnOk result
        (out.new.items
        ≡ out.old.items
        ++ (operator
        ∷ spec.operand_text
        (spec.binding (form_of operand.now), spec.canonical_text (form_of operand.now)))) }
{
    out.push(operator)?;
    write_operand(out, operand, is_binary(operand))
}

#[cycle(writer)]
fn write_left(out: &mut Vec<u8>, operand: &Expr, level: u8, operator: u8) -> Result<(), AllocError>
    ensures { OnOk result
        (out.new.items
        ≡ out.old.items
        ++ (spec.enclosed (nat_lt (spec.binding (form_of operand.now)) level)
        (spec.canonical_text (form_of operand.now)) ++ (32 ∷ operator ∷ 32 ∷ []))) }
{
    write_operand(out, operand, binding(operand) < level)?;
    out.extend_from_slice(&[b' ', operator, b' '])
}

#[cycle(writer)]
fn write_quantifier(
    out: &mut Vec<u8>,
    word: &[u8],
    parameter: &Name,
    operand: &Expr,
) -> Result<(), AllocError>
    ensures { OnOk result
        (out.new.items
        ≡ out.old.items
        ++ spec.quantifier_text word.now parameter.now
        (spec.binding (form_of operand.now), spec.canonical_text (form_of operand.now))) }
{
    out.extend_from_slice(word)?;
    out.extend_from_slice(b" $")?;
    out.extend_from_slice(parameter.bytes())?;
    out.push(b' ')?;
    write_operand(out, operand, is_binary(operand))
}

#[cycle(writer)]
fn write_times(out: &mut Vec<u8>, number: u8, operand: &Expr) -> Result<(), AllocError>
    ensures { OnOk result
        (out.new.items
        ≡ out.old.items
        ++ (codes "times" ++ (32 ∷ decimal number)
        ++ (32
        ∷ spec.operand_text
        (spec.binding (form_of operand.now), spec.canonical_text (form_of operand.now))))) }
{
    let mut buffer = Buffer::new();
    let is_enclosed = is_binary(operand);
    out.extend_from_slice(b"times ")?;
    out.extend_from_slice(buffer.format(number).as_bytes())?;
    out.push(b' ')?;
    write_operand(out, operand, is_enclosed)
}

#[cycle(writer)]
fn write_operand(out: &mut Vec<u8>, operand: &Expr, is_enclosed: bool) -> Result<(), AllocError>
    ensures { OnOk result
        (out.new.items
        ≡ out.old.items ++ spec.enclosed is_enclosed (spec.canonical_text (form_of operand.now))) }
{
    if is_enclosed {
        out.push(b'(')?;
        write(out, operand)?;
        out.push(b')')?;
        Ok(())
    } else {
        write(out, operand)
    }
}

/// How tightly the expression binds: `|` 1, `&` 2, `@` 3, `+` 4, `-` 5, and 6 for
/// a prefix or an atom.
fn binding(expr: &Expr) -> u8
    ensures { result ≡ spec.binding (form_of expr.now) }
{
    match expr {
        Expr::Or(..) => 1,
        Expr::And(..) => 2,
        Expr::Couple(..) => 3,
        Expr::Par(..) => 4,
        Expr::Seq(..) => 5,
        _ => 6,
    }
}

fn is_binary(expr: &Expr) -> bool
    ensures { result ≡ nat_le (spec.binding (form_of expr.now)) 5 }
{
    binding(expr) <= 5
}

fn write_atom(out: &mut Vec<u8>, atom: &Atom) -> Result<(), AllocError>
    ensures { OnOk result (out.new.items ≡ out.old.items ++ spec.atom_text atom.now) }
{
    out.extend_from_slice(atom.name().bytes())?;
    match atom.args() {
        [] => Ok(()),
        [first, more @ ..] => write_arguments(out, first, more),
    }
}

fn write_arguments(out: &mut Vec<u8>, first: &Arg, more: &[Arg]) -> Result<(), AllocError>
    ensures { OnOk result
        (out.new.items ≡ out.old.items ++ spec.arguments_text (first.now ∷ more.now)) }
{
    out.push(b'(')?;
    write_argument(out, first)?;
    for argument in more {
        out.push(b',')?;
        write_argument(out, argument)?;
    }
    out.push(b')')?;
    Ok(())
}

fn write_argument(out: &mut Vec<u8>, argument: &Arg) -> Result<(), AllocError>
    ensures { OnOk result (out.new.items ≡ out.old.items ++ spec.argument_text argument.now) }
{
    match argument {
        Arg::Fixed(value) => out.extend_from_slice(value.bytes()),
        Arg::Param(name) => {
            out.push(b'$')?;
            out.extend_from_slice(name.bytes())
        }
    }
}
