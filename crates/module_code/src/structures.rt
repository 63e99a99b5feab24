// Structures, functors and sources, over declarations of the core `D`.

use crate::signatures::{IdAt, SigExp};
use mlc_base::place::Place;
use sml_tree::tree::LongIdAt;

/// How a signature is put on a structure: `:` or `:>`.
#[derive(Clone, Copy, PartialEq, Eq, Debug)]
pub enum Seal {
    Transparent,
    Opaque,
}

#[derive(Drop)]
#[cycle(structures)]
pub enum StrExp<D> {
    /// `struct .. end`
    Struct(Place, Vec<StrDec<D>>),
    Id(LongIdAt),
    /// `strexp : sigexp` and `strexp :> sigexp`
    Constrained(Place, Box<StrExp<D>>, Seal, SigExp),
    Apply(IdAt, Box<StrExp<D>>),
    Let(Place, Vec<StrDec<D>>, Box<StrExp<D>>),
}

#[derive(Drop)]
#[cycle(structures)]
pub enum StrDec<D> {
    Core(D),
    Structure(Place, Vec<StrBind<D>>),
    /// A `local` that isn't a declaration of the core.
    Local(Place, Vec<StrDec<D>>, Vec<StrDec<D>>),
}

/// `strid = strexp`
#[derive(Drop)]
#[cycle(structures)]
pub struct StrBind<D> {
    pub strid: IdAt,
    pub body: StrExp<D>,
}
