// Nodes of trees, by what they stand for.

ghost use Rattle.std.specs.Prelude.{◌≡◌, [], ◌∷◌, map, IfOk};
ghost use Rattle.sml_tree.specs.BareTree.{Dec};
ghost use Rattle.sml_tree.specs.TreeOf.{type_bind_of, long_id_at_of};
ghost use Rattle.module_tree.specs.BareModules as bare;
ghost use Rattle.module_code.specs.TreeOf.{id_at_of, val_desc_of, type_desc_of, con_desc_of, data_desc_of, where_onto, specs_of, abbreviation_of, descs_of, sig_of, spec_of, desc_of, seal_of, decs_of, binds_of, parameter_of, str_dec_of, str_of, bind_of, top_of, fun_bind_of, sig_bind_of};

use crate::signatures::{
    ConDesc, DataDesc, IdAt, SigExp, Spec, StrDesc, TypeDesc, ValDesc, WhereType,
};
use crate::sources::{FunBind, Parameter, SigBind, Top};
use crate::structures::{Seal, StrBind, StrDec, StrExp};
use mlc_base::make::{boxed, with};
use mlc_base::memory::NoMemory;
use mlc_base::place::Place;
use sml_tree::tree::{LongIdAt, TypeBind};
use std::alloc::Global;

/// `sig .. end`
pub fn signature(place: Place, specs: Vec<Spec>) -> SigExp
    ensures { sig_of result ≡ bare.sig_end place (specs_of (map spec_of specs.items)) }
{
    SigExp::Sig(place, specs)
}

pub fn named_signature(id: IdAt) -> SigExp
    ensures { sig_of result ≡ bare.sig_id (id_at_of id) }
{
    SigExp::Id(id)
}

/// `sigexp where type .. and type ..`
pub fn with_types(alloc: Global, sig: SigExp, wheres: Vec<WhereType>) -> Result<SigExp, NoMemory>
    ensures { IfOk result (λ g. sig_of g ≡ where_onto (sig_of sig) wheres.items) }
{
    let (wheres, sig) = with(wheres, boxed(alloc, sig))?;
    Ok(SigExp::Where(sig, wheres))
}

pub fn values(place: Place, descs: Vec<ValDesc>) -> Spec
    ensures { spec_of result ≡ bare.val_spec place (map val_desc_of descs.items) ∷ [] }
{
    Spec::Val(place, descs)
}

pub fn types(place: Place, descs: Vec<TypeDesc>) -> Spec
    ensures { spec_of result ≡ bare.type_spec place (map type_desc_of descs.items) ∷ [] }
{
    Spec::Type(place, descs)
}

/// Abbreviations, one specification after the other.
pub fn abbreviations(binds: Vec<TypeBind>) -> Spec
    ensures { spec_of result ≡ map (λ b. abbreviation_of (type_bind_of b)) binds.items }
{
    Spec::Abbreviation(binds)
}

pub fn equality_types(place: Place, descs: Vec<TypeDesc>) -> Spec
    ensures { spec_of result ≡ bare.eqtype_spec place (map type_desc_of descs.items) ∷ [] }
{
    Spec::EqType(place, descs)
}

pub fn datatypes(place: Place, descs: Vec<DataDesc>) -> Spec
    ensures { spec_of result ≡ bare.datatype_spec place (map data_desc_of descs.items) ∷ [] }
{
    Spec::Datatype(place, descs)
}

pub fn replicated(place: Place, tycon: IdAt, of: LongIdAt) -> Spec
    ensures { spec_of result ≡ bare.replication_spec place (id_at_of tycon) (long_id_at_of of) ∷ [] }
{
    Spec::Replicate(place, tycon, of)
}

pub fn exceptions(place: Place, descs: Vec<ConDesc>) -> Spec
    ensures { spec_of result ≡ bare.exception_spec place (map con_desc_of descs.items) ∷ [] }
{
    Spec::Exception(place, descs)
}

pub fn structures(place: Place, descs: Vec<StrDesc>) -> Spec
    ensures { spec_of result ≡ bare.structure_spec place (descs_of (map desc_of descs.items)) ∷ [] }
{
    Spec::Structure(place, descs)
}

pub fn structure_desc(strid: IdAt, sig: SigExp) -> StrDesc
    ensures { desc_of result ≡ record { id = id_at_of strid; sig = sig_of sig } }
{
    StrDesc { strid, sig }
}

pub fn included(alloc: Global, place: Place, sig: SigExp) -> Result<Spec, NoMemory>
    ensures { IfOk result (λ s. spec_of s ≡ bare.include_spec place (sig_of sig) ∷ []) }
{
    Ok(Spec::Include(place, boxed(alloc, sig)?))
}

/// `include A B`, one specification after the other.
pub fn included_ids(place: Place, ids: Vec<IdAt>) -> Spec
    ensures { spec_of result ≡ map (λ x. bare.include_spec place (bare.sig_id (id_at_of x))) ids.items }
{
    Spec::IncludeIds(place, ids)
}

pub fn shared(place: Place, tycons: Vec<LongIdAt>) -> Spec
    ensures { spec_of result ≡ bare.sharing_spec place (map long_id_at_of tycons.items) ∷ [] }
{
    Spec::Sharing(place, tycons)
}

/// `struct .. end`
pub fn structure<D>(place: Place, decs: Vec<StrDec<D>>) -> StrExp<D>
    ensures { (of : D → Dec) → str_of of result ≡ bare.struct_end place (decs_of (map (str_dec_of of) decs.items)) }
{
    StrExp::Struct(place, decs)
}

pub fn named_structure<D>(id: LongIdAt) -> StrExp<D>
    ensures { (of : D → Dec) → str_of of result ≡ bare.str_id (long_id_at_of id) }
{
    StrExp::Id(id)
}

/// A structure with a signature on it.
pub fn constrained<D: Drop>(
    alloc: Global,
    place: Place,
    str: StrExp<D>,
    seal: Seal,
    sig: SigExp,
) -> Result<StrExp<D>, NoMemory>
    ensures { IfOk result (λ s. (of : D → Dec) → str_of of s ≡ bare.constrained place (str_of of str) (seal_of seal) (sig_of sig)) }
{
    let (sig, str) = with(sig, boxed(alloc, str))?;
    Ok(StrExp::Constrained(place, str, seal, sig))
}

/// A functor's application.
pub fn applied<D: Drop>(
    alloc: Global,
    funid: IdAt,
    argument: StrExp<D>,
) -> Result<StrExp<D>, NoMemory>
    ensures { IfOk result (λ s. (of : D → Dec) → str_of of s ≡ bare.applied (id_at_of funid) (str_of of argument)) }
{
    Ok(StrExp::Apply(funid, boxed(alloc, argument)?))
}

/// A functor's application to declarations, which are a structure at its own place.
pub fn applied_to_decs<D: Drop>(
    alloc: Global,
    funid: IdAt,
    decs: Vec<StrDec<D>>,
) -> Result<StrExp<D>, NoMemory>
    ensures { IfOk result (λ s. (of : D → Dec)
        → str_of of s ≡ bare.applied (id_at_of funid) (bare.struct_end funid.place (decs_of (map (str_dec_of of) decs.items)))) }
{
    let argument = boxed(alloc, StrExp::Struct(funid.place, decs))?;
    Ok(StrExp::Apply(funid, argument))
}

/// `let .. in strexp end`
pub fn let_in<D: Drop>(
    alloc: Global,
    place: Place,
    decs: Vec<StrDec<D>>,
    body: StrExp<D>,
) -> Result<StrExp<D>, NoMemory>
    ensures { IfOk result (λ s. (of : D → Dec) → str_of of s ≡ bare.let_str place (decs_of (map (str_dec_of of) decs.items)) (str_of of body)) }
{
    let (decs, body) = with(decs, boxed(alloc, body))?;
    Ok(StrExp::Let(place, decs, body))
}

/// A declaration of the core.
pub fn core<D>(dec: D) -> StrDec<D>
    ensures { (of : D → Dec) → str_dec_of of result ≡ bare.core_dec (of dec) }
{
    StrDec::Core(dec)
}

pub fn structure_dec<D>(place: Place, binds: Vec<StrBind<D>>) -> StrDec<D>
    ensures { (of : D → Dec) → str_dec_of of result ≡ bare.structure_dec place (binds_of (map (bind_of of) binds.items)) }
{
    StrDec::Structure(place, binds)
}

pub fn structure_bind<D>(strid: IdAt, body: StrExp<D>) -> StrBind<D>
    ensures { (of : D → Dec) → bind_of of result ≡ record { id = id_at_of strid; body = str_of of body } }
{
    StrBind { strid, body }
}

/// A `local` that isn't a declaration of the core.
pub fn local<D>(place: Place, first: Vec<StrDec<D>>, second: Vec<StrDec<D>>) -> StrDec<D>
    ensures { (of : D → Dec)
        → str_dec_of of result ≡ bare.local_str place (decs_of (map (str_dec_of of) first.items)) (decs_of (map (str_dec_of of) second.items)) }
{
    StrDec::Local(place, first, second)
}

pub fn functor<D>(funid: IdAt, parameter: Parameter, body: StrExp<D>) -> FunBind<D>
    ensures { (of : D → Dec)
        → fun_bind_of of result ≡ record { funid = id_at_of funid; parameter = parameter_of parameter; body = str_of of body } }
{
    FunBind {
        funid,
        parameter,
        body,
    }
}

pub fn declared<D>(dec: StrDec<D>) -> Top<D>
    ensures { (of : D → Dec) → top_of of result ≡ bare.str_top (str_dec_of of dec) }
{
    Top::Dec(dec)
}

pub fn signatures<D>(place: Place, binds: Vec<SigBind>) -> Top<D>
    ensures { (of : D → Dec) → top_of of result ≡ bare.signature_top place (map sig_bind_of binds.items) }
{
    Top::Signature(place, binds)
}

pub fn functors<D>(place: Place, binds: Vec<FunBind<D>>) -> Top<D>
    ensures { (of : D → Dec) → top_of of result ≡ bare.functor_top place (map (fun_bind_of of) binds.items) }
{
    Top::Functor(place, binds)
}
