// Signatures and functors at a source's top, over declarations of the core `D`.

use crate::signatures::{IdAt, SigExp};
use crate::structures::{StrDec, StrExp};
use mlc_base::place::Place;

/// `sigid = sigexp`
#[derive(Drop)]
pub struct SigBind {
    pub sigid: IdAt,
    pub sig: SigExp,
}

/// What a functor takes: a structure that has an identifier, or specifications, whose structure is opened in the body.
#[derive(Drop)]
pub enum Parameter {
    Named(IdAt, SigExp),
    Opened(SigExp),
}

/// `funid (..) = strexp`
#[derive(Drop)]
pub struct FunBind<D> {
    pub funid: IdAt,
    pub parameter: Parameter,
    pub body: StrExp<D>,
}

/// A declaration of a source's top.
#[derive(Drop)]
pub enum Top<D> {
    Dec(StrDec<D>),
    Signature(Place, Vec<SigBind>),
    Functor(Place, Vec<FunBind<D>>),
}
