use crate::atom::Atom;
use ix_values::Name;

/// An expression: an atom, or an operator with its operands.
#[derive(Drop)]
pub enum Expr {
    /// One action that the atom matches.
    Atom(Atom),
    /// `?y`: nothing, or y.
    Opt(Box<Expr>),
    /// `y - z`: y and then z.
    Seq(Box<Expr>, Box<Expr>),
    /// `*y`: y again and again, one after the other.
    Star(Box<Expr>),
    /// `y + z`: y and z side by side.
    Par(Box<Expr>, Box<Expr>),
    /// `#y`: y any number of times side by side.
    ParStar(Box<Expr>),
    /// `y | z`: y or z.
    Or(Box<Expr>, Box<Expr>),
    /// `y & z`: both y and z.
    And(Box<Expr>, Box<Expr>),
    /// `y @ z`: y and z, each for the actions of its own alphabet.
    Couple(Box<Expr>, Box<Expr>),
    /// `any $p y`: y for some value of p.
    Any(Name, Box<Expr>),
    /// `every $p y`: y for every value of p.
    Every(Name, Box<Expr>),
    /// `sync $p y`: y for every value of p, each for the actions of its own alphabet.
    Sync(Name, Box<Expr>),
    /// `all $p y`: y for every value of p side by side.
    All(Name, Box<Expr>),
    /// `times N y`: N times y side by side, all of them wanted; N is 2 to 64.
    Times(u8, Box<Expr>),
}
