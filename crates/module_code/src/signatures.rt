// Signatures and specifications.

use mlc_base::place::Place;
use mlc_names::names::Name;
use sml_tree::ident::{LongId, Tyvar};
use sml_tree::tree::{LongIdAt, Ty, TypeBind};

/// An identifier of a structure, signature, functor or type, and its place.
#[derive(Clone, Copy, PartialEq, Eq, Debug)]
pub struct IdAt {
    pub place: Place,
    pub id: Name,
}

/// A value that is specified.
#[derive(Drop)]
pub struct ValDesc {
    pub place: Place,
    pub vid: Name,
    pub ty: Ty,
}

/// A type that is specified: the place is that of its type variables, where it has some.
#[derive(Drop)]
pub struct TypeDesc {
    pub place: Place,
    pub tyvars: Vec<Tyvar>,
    pub tycon: Name,
}

/// A constructor or an exception that is specified.
#[derive(Drop)]
pub struct ConDesc {
    pub place: Place,
    pub vid: Name,
    pub of_ty: Option<Ty>,
}

/// A datatype that is specified.
#[derive(Drop)]
pub struct DataDesc {
    pub place: Place,
    pub tyvars: Vec<Tyvar>,
    pub tycon: Name,
    pub cons: Vec<ConDesc>,
}

/// `type tyvarseq longtycon = ty` after `where`: the place of `type`, and that of the type variables, which is the same where there are none.
#[derive(Drop)]
pub struct WhereType {
    pub place: Place,
    pub tyvars_place: Place,
    pub tyvars: Vec<Tyvar>,
    pub tycon_place: Place,
    pub tycon: LongId,
    pub ty: Ty,
}

#[derive(Drop)]
#[cycle(signatures)]
pub enum SigExp {
    /// `sig .. end`
    Sig(Place, Vec<Spec>),
    Id(IdAt),
    /// `sigexp where type .. and type ..`
    Where(Box<SigExp>, Vec<WhereType>),
}

#[derive(Drop)]
#[cycle(signatures)]
pub enum Spec {
    Val(Place, Vec<ValDesc>),
    Type(Place, Vec<TypeDesc>),
    Abbreviation(Vec<TypeBind>),
    EqType(Place, Vec<TypeDesc>),
    Datatype(Place, Vec<DataDesc>),
    /// `datatype tycon = datatype longtycon`
    Replicate(Place, IdAt, LongIdAt),
    Exception(Place, Vec<ConDesc>),
    Structure(Place, Vec<StrDesc>),
    Include(Place, Box<SigExp>),
    /// `include A B`
    IncludeIds(Place, Vec<IdAt>),
    /// `sharing type`, of all specifications before it in its list.
    Sharing(Place, Vec<LongIdAt>),
}

/// A structure that is specified.
#[derive(Drop)]
#[cycle(signatures)]
pub struct StrDesc {
    pub strid: IdAt,
    pub sig: SigExp,
}
