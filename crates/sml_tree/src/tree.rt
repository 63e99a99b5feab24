// Bare trees, with what the grammar counts once kept in one node.

use crate::ident::{BuiltIn, Constant, LongId, LongVid, Tyvar, Vid};
use mlc_base::place::Place;
use mlc_names::label::Label;
use mlc_names::names::Name;

#[derive(Drop)]
#[cycle(types)]
pub enum Ty {
    Var(Place, Tyvar),
    Record(Place, Vec<TyField>),
    /// A type constructor after its arguments, and the place of its identifier.
    Con(Place, Vec<Ty>, Place, LongId),
    /// `t1 * .. * tn`
    Product(Place, Vec<Ty>),
    /// `t1 -> .. -> tn`
    Arrow(Place, Box<Ty>, Vec<TyPart>),
}

#[derive(Drop)]
#[cycle(types)]
pub struct TyField {
    pub label: Label,
    pub ty: Ty,
}

/// A further operand of a function type.
#[derive(Drop)]
#[cycle(types)]
pub struct TyPart {
    pub place: Place,
    pub ty: Ty,
}

#[derive(Drop)]
#[cycle(pats)]
pub enum Pat {
    Wild(Place),
    Constant(Place, Constant),
    Vid(Place, LongVid),
    BuiltIn(Place, BuiltIn),
    /// Fields, and whether `...` ends them.
    Record(Place, Vec<PatField>, bool),
    Tuple(Place, Vec<Pat>),
    List(Place, Vec<Pat>),
    /// A constructor, with the place of its identifier, before its argument.
    Con(Place, Place, LongVid, Box<Pat>),
    BuiltCon(Place, BuiltIn, Box<Pat>),
    /// Operands joined by infix constructors of one precedence, and whether these associate to the right.
    Chain(Place, bool, Box<Pat>, Vec<PatPart>),
    Typed(Place, Box<Pat>, Ty),
    As(Place, Vid, Option<Ty>, Box<Pat>),
}

#[derive(Drop)]
#[cycle(pats)]
pub struct PatField {
    pub label: Label,
    pub pat: Pat,
}

/// A further operand of a chain, after the constructor that joins it.
#[derive(Drop)]
#[cycle(pats)]
pub struct PatPart {
    pub vid_place: Place,
    pub vid: Vid,
    pub place: Place,
    pub pat: Pat,
}

/// A sequence of type variables, and its place: where it is empty, that of the declaration.
#[derive(Drop)]
pub struct TyvarSeq {
    pub place: Place,
    pub tyvars: Vec<Tyvar>,
}

/// A binding of an abbreviation.
#[derive(Drop)]
pub struct TypeBind {
    pub place: Place,
    pub tyvars: Vec<Tyvar>,
    pub tycon: Name,
    pub ty: Ty,
}

/// A constructor of a datatype.
#[derive(Drop)]
pub struct ConBind {
    pub place: Place,
    pub vid: Vid,
    pub of_ty: Option<Ty>,
}

/// A datatype.
#[derive(Drop)]
pub struct DataBind {
    pub place: Place,
    pub tyvars: Vec<Tyvar>,
    pub tycon: Name,
    pub cons: Vec<ConBind>,
}

#[derive(Drop)]
pub enum ExBind {
    New(Place, Vid, Option<Ty>),
    Same(Place, Vid, Place, LongVid),
}

/// A long identifier and its place.
#[derive(Drop)]
pub struct LongIdAt {
    pub place: Place,
    pub long: LongId,
}

/// What joins an operand of a chain to what is before it.
#[derive(Clone, Copy, PartialEq, Eq, Debug)]
pub enum Joint {
    AndAlso,
    OrElse,
    Infix(Place, Vid),
}

#[derive(Drop)]
#[cycle(exps)]
pub enum Exp {
    Constant(Place, Constant),
    Vid(Place, LongVid),
    BuiltIn(Place, BuiltIn),
    Record(Place, Vec<ExpField>),
    Tuple(Place, Vec<Exp>),
    List(Place, Vec<Exp>),
    /// `(e1; ..; en)`, the first apart.
    Sequence(Place, Box<Exp>, Vec<Exp>),
    Let(Place, Vec<Dec>, Box<Exp>),
    /// `e e1 .. en`
    Apply(Place, Box<Exp>, Vec<Exp>),
    /// Operands joined by joints of one level, and whether these associate to the right.
    Chain(Place, bool, Box<Exp>, Vec<Part>),
    Typed(Place, Box<Exp>, Ty),
    Handle(Place, Box<Exp>, Vec<Rule>),
    Raise(Place, Box<Exp>),
    Fn(Place, Vec<Rule>),
}

#[derive(Drop)]
#[cycle(exps)]
pub struct ExpField {
    pub label: Label,
    pub exp: Exp,
}

/// A further operand of a chain, after what joins it.
#[derive(Drop)]
#[cycle(exps)]
pub struct Part {
    pub joint: Joint,
    pub place: Place,
    pub exp: Exp,
}

#[derive(Drop)]
#[cycle(exps)]
pub struct Rule {
    pub place: Place,
    pub pat: Pat,
    pub exp: Exp,
}

#[derive(Drop)]
#[cycle(exps)]
pub struct Bind {
    pub place: Place,
    pub pat: Pat,
    pub exp: Exp,
}

/// A clause of `fun`.
#[derive(Drop)]
#[cycle(exps)]
pub struct Clause {
    pub place: Place,
    pub pats: Vec<Pat>,
    pub exp: Exp,
}

/// A function of `fun`.
#[derive(Drop)]
#[cycle(exps)]
pub struct Function {
    pub place: Place,
    pub vid_place: Place,
    pub vid: Vid,
    pub clauses: Vec<Clause>,
}

#[derive(Drop)]
#[cycle(exps)]
pub enum Dec {
    /// Bindings before `rec`, and those after it.
    Val(Place, TyvarSeq, Vec<Bind>, Vec<Bind>),
    Fun(Place, TyvarSeq, Vec<Function>),
    Abbreviation(Place, Vec<TypeBind>),
    Datatype(Place, Vec<DataBind>),
    /// `datatype d withtype b`, both as they are written.
    Withtype(Place, Vec<DataBind>, Vec<TypeBind>),
    /// `datatype tycon = datatype longtycon`
    Replicate(Place, Name, LongIdAt),
    Exception(Place, Vec<ExBind>),
    Local(Place, Vec<Dec>, Vec<Dec>),
    Open(Place, Vec<LongIdAt>),
    Declarations(Place, Vec<Dec>),
}
