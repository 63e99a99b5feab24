// The tree: variables, types, lists of parameters and strings are numbers. What the numbers stand for is a `Reading`. What the source writes in one go, as a
// list, a chain of infix operators or the arguments of an application, is one node, so that nothing recurses along it.

use ir_tables::mlc_prims::basis::BasisPrimitive;
use ir_tables::tables::Constant;
use ir_tables::ty_core::name::TyName;
use mlc_base::place::Place;
use mlc_names::label::Label;
use mlc_names::names::Name;

/// An exception of the initial basis, or that of a variable.
#[derive(Clone, Copy)]
pub enum Exception {
    Initial(usize),
    Held(usize),
}

/// A variable and its type.
#[derive(Clone, Copy)]
pub struct Parameter {
    pub variable: usize,
    pub ty: usize,
}

/// What stands before an argument in a pattern.
#[derive(Clone, Copy)]
pub enum Head {
    Constructor(usize),
    Reference,
    Exception(Exception),
}

/// The types of a pair and of its parts.
#[derive(Clone, Copy)]
pub struct Pair {
    pub ty: usize,
    pub left: usize,
    pub right: usize,
}

/// Whether the operators of a chain associate to the left or to the right.
#[derive(Clone, Copy)]
pub enum Side {
    Left,
    Right,
}

#[derive(Drop)]
#[cycle(pats)]
pub enum Pat {
    Any,
    Variable(usize),
    Constant(Constant),
    Constructor(usize),
    Exception(Exception),
    /// Before an argument of this type.
    Before(Head, usize, Box<Pat>),
    /// Fields, and whether there may be further ones.
    Record(bool, Vec<PatField>),
    As(usize, Box<Pat>),
    /// Operands joined by infix constructors; also a list, which `nil` ends.
    Chain(Side, Box<Pat>, Vec<PatPart>),
}

/// A field, with the type of what its pattern is matched with.
#[derive(Drop)]
#[cycle(pats)]
pub struct PatField {
    pub label: Label,
    pub ty: usize,
    pub pat: Pat,
}

/// A further operand of a chain, after the constructor that joins it.
#[derive(Drop)]
#[cycle(pats)]
pub struct PatPart {
    pub head: Head,
    pub pair: Pair,
    pub pat: Pat,
}

/// An expression with no parts.
#[derive(Clone, Copy)]
pub enum Atom {
    Constant(Constant),
    /// A function inside its own group.
    Own(usize),
    Exception(Exception),
    /// The constructor `ref`, at the type of what is held.
    Reference(usize),
}

/// What is used at types.
#[derive(Clone, Copy)]
pub enum Used {
    Variable(usize),
    Constructor(usize, TyName),
    Primitive(BasisPrimitive),
}

/// An application of an infix operator: its place, its type, and that of the pair of operands.
#[derive(Clone, Copy)]
pub struct Join {
    pub place: Place,
    pub ty: usize,
    pub pair: usize,
}

/// A binding: whether it is generalised, and the type of its pattern.
#[derive(Clone, Copy)]
pub struct Binding {
    pub place: Place,
    pub general: bool,
    pub ty: usize,
}

/// An expression. A type that stands alone is its own.
#[derive(Drop)]
#[cycle(exps)]
pub enum Exp {
    Atom(Atom, usize),
    Use(Used, Vec<usize>, usize),
    Record(usize, Vec<(Label, Exp)>),
    Let(usize, Vec<Dec>, Box<Exp>),
    /// A function before its arguments, each with the type of the application to it.
    Apply(Place, Box<Exp>, Vec<(usize, Exp)>),
    /// Operands, and operators before the further ones; also a list, which `nil` ends.
    Infix(Side, Box<Exp>, Vec<(Join, Exp, Exp)>),
    Case(Place, usize, Box<Exp>, Vec<Rule>),
    /// Expressions whose values are dropped, and the last.
    Sequence(Place, usize, Vec<Exp>, Box<Exp>),
    /// Operands of `andalso` (true) or `orelse` (false), and the last.
    Test(bool, usize, Vec<Exp>, Box<Exp>),
    Handle(usize, Box<Exp>, Vec<Rule>),
    Raise(usize, Box<Exp>),
    Fn(usize, Function),
    /// Stands for so many further nodes of the source.
    Counted(usize, usize, Box<Exp>),
}

/// A function of parameters and a last one.
#[derive(Drop)]
#[cycle(exps)]
pub enum Function {
    Named(Vec<Parameter>, Parameter, Box<Exp>),
    /// The types of the last argument and of the result, and rules for the argument.
    ByRules(Vec<Parameter>, Place, usize, usize, Vec<Rule>),
}

#[derive(Drop)]
#[cycle(exps)]
pub enum Dec {
    /// Bindings and functions that are declared together, over a list of parameters. A function has variables and a type.
    Val(usize, Vec<(Binding, Rule)>, Vec<(Vec<usize>, usize, Function)>),
    /// A new exception, with its variable, its identifier and the type of its argument.
    Exception(usize, Name, Option<usize>),
    /// Stands for so many further nodes of the source.
    Weight(usize),
}

/// A pattern, and the expression that stands behind it.
#[derive(Drop)]
#[cycle(exps)]
pub struct Rule {
    pub pat: Pat,
    pub exp: Exp,
}
