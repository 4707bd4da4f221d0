//! Atoms.

ghost use Rattle.std.specs.Prelude.{◌≡◌, ◌<◌, ◌≤◌, ◌↔◌, ◌⊎◌, IsTrue, IsNone, IfSome, [], ◌∷◌};
ghost use Rattle.std.specs.Prelude.{length, All};
ghost use Rattle.ix_values.specs.inside.Padding.{padded};
ghost use Rattle.ix_values.specs.Texts.{IsName};
ghost use Rattle.ix_expr.specs.Atoms.{are_alike};
ghost use Rattle.ix_expr.specs.FormFaults as faults;
ghost use Rattle.ix_expr.specs.Form.{atom_of};
ghost use Rattle.ix_expr.specs.Reserved as reserved;
ghost use Rattle.ix_expr.specs.Spelling.{IsArgument, IsAtom};

use crate::arg::Arg;
use ix_values::{Name, Value};
use std::marker::Model;

/// The name of an action and 0 to 4 arguments. The name is none of the reserved words.
#[derive(Clone, Copy, Debug)]
pub struct Atom {
    name: Name,
    args: [Arg; 4],
    count: u8,
}

impl Model for Atom {
    ghost use Rattle.std.specs.Prelude.{[], ◌∷◌, length, take};
    ghost use Rattle.std.proofs.Common.{sym};
    ghost use Rattle.ix_values.specs.inside.Padding.{IsPadded, padded};
    ghost use Rattle.ix_expr.specs.declared.arg.Arg.TheVariants.{Fixed};
    ghost use Rattle.ix_expr.specs.Form.{PlainAtom, atom_of};
    ghost use Rattle.ix_expr.specs.Spelling.{IsAtom};

    ghost Value = { PlainAtom };

    ghost view = { λ a. atom_of a.name (take a.count a.args) };

    ghost invariant = { λ a. IsPadded 4 (Fixed (48 ∷ [])) a.count a.args
        × IsAtom (atom_of a.name (take a.count a.args)) };

    ghost inverse = { λ x.
        record {
          name = x.name;
          args = padded 4 (Fixed (48 ∷ [])) x.arguments;
          count = length x.arguments;
        } };

    ghost inverse_ok = { λ a h. λ i.
        record { name = a.name; args = sym h.0.filled i; count = h.0.counted i } };
}

impl Atom {
    /// The atom of this name and these arguments, or None where the name is a reserved word (`any`,
    /// `every`, `sync`, `all` or `times`) or there are more than four arguments.
    pub fn new(name: Name, args: &[Arg]) -> Option<Atom>
        ensures refused { IsNone result
            ↔ (IsTrue (reserved.is_reserved name) ⊎ (4 < length args.now)) }
        ensures value { IfSome result (λ atom. atom ≡ atom_of name args.now) }
        ensures valid { IfSome result IsAtom }
    {
        if is_reserved(&name) || args.len() > 4 {
            return None;
        }
        prove!(!name.bytes().is_empty());
        Some(Atom {
            name,
            args: zero_padded(args),
            count: args.len() as u8,
        })
    }

    /// The name of the actions that the atom matches.
    pub fn name(&self) -> &Name
        ensures value { result.now ≡ self.now.name }
        ensures valid { IsAtom self.now }
    {
        &self.name
    }

    /// The arguments of the atom, in the order of their places.
    pub fn args(&self) -> &[Arg]
        ensures value { result.now ≡ self.now.arguments }
        ensures valid { IsAtom self.now }
    {
        &self.args[..self.count as usize]
    }

    /// Whether the parameter is one of the arguments.
    pub fn names_parameter(&self, parameter: &Name) -> bool
        ensures { result ≡ faults.names_parameter parameter.now self.now }
    {
        self.args().iter().any(|arg| arg.is_parameter(parameter))
    }
}

/// Whether the two atoms match actions of one name and one number of values.
pub fn are_alike(one: &Atom, other: &Atom) -> bool
    ensures { result ≡ are_alike one.now other.now }
{
    one.name() == other.name() && one.args().len() == other.args().len()
}

fn is_reserved(name: &Name) -> bool
    ensures { result ≡ reserved.is_reserved name.now }
{
    let bytes = name.bytes();
    bytes == b"any".as_slice()
        || bytes == b"every".as_slice()
        || bytes == b"sync".as_slice()
        || bytes == b"all".as_slice()
        || bytes == b"times".as_slice()
}

/// The value `0`, which stands in the places of an atom that hold no argument of its own.
fn zero() -> Value
    ensures { result ≡ 48 ∷ [] }
{
    Value::of_text(b"0")
}

fn zero_padded(args: &[Arg]) -> [Arg; 4]
    requires { length args.now ≤ 4 }
    ensures value { result ≡ padded 4 (Arg.Fixed (48 ∷ [])) args.now }
    ensures valid { All IsArgument args.now }
{
    let mut places = [Arg::Fixed(zero()); 4];
    for (index, arg) in args.iter().enumerate() {
        places[index] = checked(*arg);
    }
    places
}

fn checked(arg: Arg) -> Arg
    ensures same { result ≡ arg }
    ensures valid { IsArgument arg }
{
    match &arg {
        Arg::Fixed(value) => prove!(!value.bytes().is_empty()),
        Arg::Param(name) => prove!(!name.bytes().is_empty()),
    }
    arg
}
