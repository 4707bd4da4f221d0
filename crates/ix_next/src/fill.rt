//! The candidates of atoms, one by one.

ghost use Rattle.std.specs.Prelude.{◌≡◌, ◌+◌, ◌<◌, ◌≤◌, ◌∷◌, [], Some, fold, map, IfErr, IfOk};
ghost use Rattle.std.specs.Prelude.{OnOk, length};
ghost use Rattle.std.specs.List.{range_with_len};
ghost use Rattle.ix_expr.specs.declared.arg.Arg.TheVariants.{Fixed, Param};
ghost use Rattle.ix_next.specs.Candidates.{terms_for, term_of};
ghost use Rattle.ix_next.specs.declared.menu.MenuFault.TheVariants.{Many};
ghost use Rattle.ix_next.specs.declared.term.Term.TheVariants.{Known, New};
ghost use Rattle.ix_next.specs.inside.Fillings.{Took, begun_filling, filled, filled_atoms};
ghost use Rattle.ix_next.specs.inside.Fillings.{filled_with};
ghost use Rattle.ix_next.specs.inside.Fillings.{keep, pool};
ghost use Rattle.ix_next.specs.inside.Trials.{CanTry};

use crate::candidate::Candidate;
use crate::filling::Filling;
use crate::given::Given;
use crate::menu::MenuFault;
use crate::term::Term;
use crate::trial::{Test, passes};
use crate::values::values_for;
use indexmap::IndexSet;
use ix_expr::{Arg, Atom};
use ix_values::{Name, Value};
use std::alloc::Global;

/// What candidates are made of, how many there may be, and which of them are kept.
#[derive(Clone, Copy)]
pub(crate) struct Scope<'e, 't, 'n, 'f, 'g> {
    pub(crate) alloc: Global,
    pub(crate) fixed: &'f [Value],
    pub(crate) given: &'g [Given],
    pub(crate) new: bool,
    pub(crate) limit: usize,
    pub(crate) test: Test<'e, 't, 'n>,
}

/// The candidates that were kept, and how many there were.
#[derive(Drop)]
pub(crate) struct Tray {
    pub(crate) found: IndexSet<Candidate>,
    pub(crate) seen: usize,
}

/// Takes the candidate, and keeps it if it passes.
fn take(tray: &mut Tray, scope: &Scope, candidate: &Candidate) -> Result<(), MenuFault>
    requires can { CanTry scope.now.test }
    ensures took { OnOk result (Took scope.now tray.old tray.new (candidate.now ∷ [])) }
    ensures many { IfErr result (λ fault. fault ≡ Many → scope.now.limit < tray.old.seen + 1) }
{
    if tray.seen >= scope.limit {
        return Err(MenuFault::Many);
    }
    tray.seen += 1;
    if !passes(scope.test, candidate) {
        return Ok(());
    }
    match tray.found.insert(*candidate) {
        Ok(_) => Ok(()),
        Err(_) => Err(MenuFault::Memory),
    }
}

/// Takes the candidates that come of the filling by filling the places of these arguments too.
#[cycle(fill)]
pub(crate) fn fill(
    tray: &mut Tray,
    scope: &Scope,
    args: &[Arg],
    filling: &Filling,
) -> Result<(), MenuFault>
    requires can { CanTry scope.now.test }
    requires room { tray.old.seen ≤ scope.now.limit }
    requires few { length filling.now.candidate.terms + length args.now ≤ 4 }
    requires chosen { length filling.now.chosen ≤ length filling.now.candidate.terms }
    requires news { filling.now.news ≤ length filling.now.candidate.terms }
    ensures took { OnOk result (Took scope.now tray.old tray.new
        (filled scope.now args.now filling.now)) }
    ensures many { IfErr result (λ fault. fault ≡ Many
        → scope.now.limit < tray.old.seen + length (filled scope.now args.now filling.now)) }
{
    match args {
        [] => take(tray, scope, &filling.candidate),
        [first, rest @ ..] => fill_place(tray, scope, first, rest, filling),
    }
}

/// The same with one more argument before them.
#[cycle(fill)]
fn fill_place(
    tray: &mut Tray,
    scope: &Scope,
    first: &Arg,
    rest: &[Arg],
    filling: &Filling,
) -> Result<(), MenuFault>
    requires can { CanTry scope.now.test }
    requires room { tray.old.seen ≤ scope.now.limit }
    requires few { length filling.now.candidate.terms + length rest.now < 4 }
    requires chosen { length filling.now.chosen ≤ length filling.now.candidate.terms }
    requires news { filling.now.news ≤ length filling.now.candidate.terms }
    ensures took { OnOk result (Took scope.now tray.old tray.new
        (filled scope.now (first.now ∷ rest.now) filling.now)) }
    ensures many { IfErr result (λ fault. fault ≡ Many
        → scope.now.limit < tray.old.seen
        + length (filled scope.now (first.now ∷ rest.now) filling.now)) }
{
    match first {
        Arg::Fixed(value) => fill_fixed(tray, scope, value, rest, filling),
        Arg::Param(parameter) => fill_param(tray, scope, parameter, rest, filling),
    }
}

/// The same with a fixed argument before them.
#[cycle(fill)]
fn fill_fixed(
    tray: &mut Tray,
    scope: &Scope,
    value: &Value,
    rest: &[Arg],
    filling: &Filling,
) -> Result<(), MenuFault>
    requires can { CanTry scope.now.test }
    requires room { tray.old.seen ≤ scope.now.limit }
    requires few { length filling.now.candidate.terms + length rest.now < 4 }
    requires chosen { length filling.now.chosen ≤ length filling.now.candidate.terms }
    requires news { filling.now.news ≤ length filling.now.candidate.terms }
    ensures took { OnOk result (Took scope.now tray.old tray.new
        (filled scope.now (Fixed value.now ∷ rest.now) filling.now)) }
    ensures many { IfErr result (λ fault. fault ≡ Many
        → scope.now.limit < tray.old.seen
        + length (filled scope.now (Fixed value.now ∷ rest.now) filling.now)) }
{
    let next = filling.fixed(value);
    fill(tray, scope, rest, &next)
}

/// The same with a parameter before them.
#[cycle(fill)]
fn fill_param(
    tray: &mut Tray,
    scope: &Scope,
    parameter: &Name,
    rest: &[Arg],
    filling: &Filling,
) -> Result<(), MenuFault>
    requires can { CanTry scope.now.test }
    requires room { tray.old.seen ≤ scope.now.limit }
    requires few { length filling.now.candidate.terms + length rest.now < 4 }
    requires chosen { length filling.now.chosen ≤ length filling.now.candidate.terms }
    requires news { filling.now.news ≤ length filling.now.candidate.terms }
    ensures took { OnOk result (Took scope.now tray.old tray.new
        (filled scope.now (Param parameter.now ∷ rest.now) filling.now)) }
    ensures many { IfErr result (λ fault. fault ≡ Many
        → scope.now.limit < tray.old.seen
        + length (filled scope.now (Param parameter.now ∷ rest.now) filling.now)) }
{
    match filling.chosen.get(parameter) {
        Some(term) => fill_again(tray, scope, &(*parameter, term), rest, filling),
        None => fill_first(tray, scope, parameter, rest, filling),
    }
}

/// The same with a parameter before them that has this term already.
#[cycle(fill)]
fn fill_again(
    tray: &mut Tray,
    scope: &Scope,
    own: &(Name, Term),
    rest: &[Arg],
    filling: &Filling,
) -> Result<(), MenuFault>
    requires can { CanTry scope.now.test }
    requires room { tray.old.seen ≤ scope.now.limit }
    requires few { length filling.now.candidate.terms + length rest.now < 4 }
    requires chosen { length filling.now.chosen ≤ length filling.now.candidate.terms }
    requires news { filling.now.news ≤ length filling.now.candidate.terms }
    requires own { term_of own.now.0 filling.now.chosen ≡ Some own.now.1 }
    ensures took { OnOk result (Took scope.now tray.old tray.new
        (filled scope.now (Param own.now.0 ∷ rest.now) filling.now)) }
    ensures many { IfErr result (λ fault. fault ≡ Many
        → scope.now.limit < tray.old.seen
        + length (filled scope.now (Param own.now.0 ∷ rest.now) filling.now)) }
{
    let next = filling.again(&own.0, &own.1);
    fill(tray, scope, rest, &next)
}

/// The same with each term in the place before them that the parameter can have, where it stands
/// for the first time.
#[cycle(fill)]
fn fill_first(
    tray: &mut Tray,
    scope: &Scope,
    parameter: &Name,
    rest: &[Arg],
    filling: &Filling,
) -> Result<(), MenuFault>
    requires can { CanTry scope.now.test }
    requires room { tray.old.seen ≤ scope.now.limit }
    requires few { length filling.now.candidate.terms + length rest.now < 4 }
    requires chosen { length filling.now.chosen ≤ length filling.now.candidate.terms }
    requires news { filling.now.news ≤ length filling.now.candidate.terms }
    ensures took { OnOk result (Took scope.now tray.old tray.new
        (filled_with scope.now rest.now filling.now parameter.now
        (terms_for scope.now.new (pool scope.now parameter.now) filling.now.news))) }
    ensures many { IfErr result (λ fault. fault ≡ Many
        → scope.now.limit < tray.old.seen + length (filled_with scope.now rest.now filling.now
        parameter.now (terms_for scope.now.new (pool scope.now parameter.now) filling.now.news))) }
{
    match fill_known(tray, scope, parameter, rest, filling) {
        Ok(()) => {}
        Err(fault) => return Err(fault),
    }
    if scope.new {
        fill_new(tray, scope, parameter, rest, filling)
    } else {
        Ok(())
    }
}

/// The same with each known value that the parameter gets.
#[cycle(fill)]
fn fill_known(
    tray: &mut Tray,
    scope: &Scope,
    parameter: &Name,
    rest: &[Arg],
    filling: &Filling,
) -> Result<(), MenuFault>
    requires can { CanTry scope.now.test }
    requires room { tray.old.seen ≤ scope.now.limit }
    requires few { length filling.now.candidate.terms + length rest.now < 4 }
    requires chosen { length filling.now.chosen ≤ length filling.now.candidate.terms }
    requires news { filling.now.news ≤ length filling.now.candidate.terms }
    ensures took { OnOk result (Took scope.now tray.old tray.new
        (filled_with scope.now rest.now filling.now parameter.now
        (map Known (pool scope.now parameter.now)))) }
    ensures many { IfErr result (λ fault. fault ≡ Many
        → scope.now.limit < tray.old.seen + length (filled_with scope.now rest.now filling.now
        parameter.now (map Known (pool scope.now parameter.now)))) }
{
    let Ok(values) = values_for(scope.alloc, scope.fixed, scope.given, parameter) else {
        return Err(MenuFault::Memory);
    };
    for value in &values {
        let term = Term::Known(*value);
        let next = filling.first(parameter, &term);
        match fill(tray, scope, rest, &next) {
            Ok(()) => {}
            Err(fault) => return Err(fault),
        }
    }
    Ok(())
}

/// The same with each new value: those that stand before, and one more.
#[cycle(fill)]
fn fill_new(
    tray: &mut Tray,
    scope: &Scope,
    parameter: &Name,
    rest: &[Arg],
    filling: &Filling,
) -> Result<(), MenuFault>
    requires can { CanTry scope.now.test }
    requires room { tray.old.seen ≤ scope.now.limit }
    requires few { length filling.now.candidate.terms + length rest.now < 4 }
    requires chosen { length filling.now.chosen ≤ length filling.now.candidate.terms }
    requires news { filling.now.news ≤ length filling.now.candidate.terms }
    ensures took { OnOk result (Took scope.now tray.old tray.new
        (filled_with scope.now rest.now filling.now parameter.now
        (map New (range_with_len 1 (filling.now.news + 1))))) }
    ensures many { IfErr result (λ fault. fault ≡ Many
        → scope.now.limit < tray.old.seen + length (filled_with scope.now rest.now filling.now
        parameter.now (map New (range_with_len 1 (filling.now.news + 1))))) }
{
    for before in 0..filling.news + 1 {
        let term = Term::New(before + 1);
        let next = filling.first(parameter, &term);
        match fill(tray, scope, rest, &next) {
            Ok(()) => {}
            Err(fault) => return Err(fault),
        }
    }
    Ok(())
}

/// Takes the candidates of the atom.
fn fill_atom(tray: &mut Tray, scope: &Scope, atom: &Atom) -> Result<(), MenuFault>
    requires can { CanTry scope.now.test }
    requires room { tray.old.seen ≤ scope.now.limit }
    ensures took { OnOk result (Took scope.now tray.old tray.new
        (filled scope.now atom.now.arguments (begun_filling atom.now.name))) }
    ensures many { IfErr result (λ fault. fault ≡ Many
        → scope.now.limit < tray.old.seen
        + length (filled scope.now atom.now.arguments (begun_filling atom.now.name))) }
{
    fill(tray, scope, atom.args(), &Filling::new(atom.name()))
}

/// Takes the candidates of these atoms.
fn fill_atoms(tray: &mut Tray, scope: &Scope, atoms: &[Atom]) -> Result<(), MenuFault>
    requires can { CanTry scope.now.test }
    requires room { tray.old.seen ≤ scope.now.limit }
    ensures took { OnOk result (Took scope.now tray.old tray.new
        (filled_atoms scope.now atoms.now)) }
    ensures many { IfErr result (λ fault. fault ≡ Many
        → scope.now.limit < tray.old.seen + length (filled_atoms scope.now atoms.now)) }
{
    for atom in atoms {
        match fill_atom(tray, scope, atom) {
            Ok(()) => {}
            Err(fault) => return Err(fault),
        }
    }
    Ok(())
}

/// The candidates of these atoms that are kept, each once.
pub(crate) fn found(scope: &Scope, atoms: &[Atom]) -> Result<IndexSet<Candidate>, MenuFault>
    requires { CanTry scope.now.test }
    ensures value { IfOk result (λ found. found.keys
        ≡ fold (keep scope.now.test) [] (filled_atoms scope.now atoms.now)) }
    ensures few { OnOk result (length (filled_atoms scope.now atoms.now) ≤ scope.now.limit) }
    ensures many { IfErr result (λ fault. fault ≡ Many
        → scope.now.limit < length (filled_atoms scope.now atoms.now)) }
{
    let mut tray = Tray {
        found: IndexSet::new(scope.alloc),
        seen: 0,
    };
    match fill_atoms(&mut tray, scope, atoms) {
        Ok(()) => Ok(tray.found),
        Err(fault) => Err(fault),
    }
}
