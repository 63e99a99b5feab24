// Nodes of trees, by what they stand for.

ghost use Rattle.std.specs.Prelude.{◌≡◌, ◌∷◌, map, IfOk};
ghost use Rattle.sml_tree.specs.BareTree as bare;
ghost use Rattle.sml_tree.specs.Derived.{tuple, list_of, app_of, chain_of, join, fun_dec_of, withtype_of};
ghost use Rattle.sml_tree.specs.TreeOf.{exp_of, pat_of, ty_of, rule_of, rules_of, part_of, exp_field_of, exp_fields_of, bind_of, binds_of, clause_of, function_of, dec_of, decs_of, long_vid_of, constant_of, type_bind_of, data_bind_of, ex_bind_of, long_id_at_of};

use mlc_base::make::{boxed, with};
use mlc_base::memory::NoMemory;
use mlc_base::place::Place;
use mlc_names::label::Label;
use mlc_names::names::Name;
use phrase_base::got::prefixed;
use sml_tree::ident::{Constant, LongVid, Vid};
use sml_tree::tree::{
    Bind, Clause, DataBind, Dec, ExBind, Exp, ExpField, Function, Joint, LongIdAt, Part, Pat, Rule,
    Ty, TypeBind, TyvarSeq,
};
use std::alloc::Global;

pub fn constant(place: Place, constant: Constant) -> Exp
    ensures { exp_of result ≡ bare.constant_exp place (constant_of constant) }
{
    Exp::Constant(place, constant)
}

pub fn name(place: Place, long: LongVid) -> Exp
    ensures { exp_of result ≡ bare.vid_exp place (long_vid_of long) }
{
    Exp::Vid(place, long)
}

pub fn record_of(place: Place, fields: Vec<ExpField>) -> Exp
    ensures { exp_of result ≡ bare.fields_exp place (exp_fields_of (map exp_field_of fields.items)) }
{
    Exp::Record(place, fields)
}

pub fn tuple_of(place: Place, exps: Vec<Exp>) -> Exp
    ensures { exp_of result ≡ tuple place (map exp_of exps.items) }
{
    Exp::Tuple(place, exps)
}

/// A tuple of a first expression and those after it.
pub fn tuple_from(place: Place, first: Exp, others: Vec<Exp>) -> Result<Exp, NoMemory>
    ensures { IfOk result (λ e. exp_of e ≡ tuple place (exp_of first ∷ map exp_of others.items)) }
{
    Ok(Exp::Tuple(place, prefixed(first, others)?))
}

pub fn list(place: Place, exps: Vec<Exp>) -> Exp
    ensures { exp_of result ≡ list_of place (map exp_of exps.items) }
{
    Exp::List(place, exps)
}

pub fn applied(
    alloc: Global,
    place: Place,
    first: Exp,
    arguments: Vec<Exp>,
) -> Result<Exp, NoMemory>
    ensures { IfOk result (λ e. exp_of e ≡ app_of place (exp_of first) (map exp_of arguments.items)) }
{
    let (arguments, first) = with(arguments, boxed(alloc, first))?;
    Ok(Exp::Apply(place, first, arguments))
}

pub fn chain(
    alloc: Global,
    place: Place,
    right: bool,
    first: Exp,
    parts: Vec<Part>,
) -> Result<Exp, NoMemory>
    ensures { IfOk result (λ e. exp_of e ≡ chain_of join right place (exp_of first) (map part_of parts.items)) }
{
    let (parts, first) = with(parts, boxed(alloc, first))?;
    Ok(Exp::Chain(place, right, first, parts))
}

pub fn typed(alloc: Global, place: Place, exp: Exp, ty: Ty) -> Result<Exp, NoMemory>
    ensures { IfOk result (λ e. exp_of e ≡ bare.typed place (exp_of exp) (ty_of ty)) }
{
    let (ty, exp) = with(ty, boxed(alloc, exp))?;
    Ok(Exp::Typed(place, exp, ty))
}

pub fn handler(alloc: Global, place: Place, exp: Exp, rules: Vec<Rule>) -> Result<Exp, NoMemory>
    ensures { IfOk result (λ e. exp_of e ≡ bare.handle place (exp_of exp) (rules_of (map rule_of rules.items))) }
{
    let (rules, exp) = with(rules, boxed(alloc, exp))?;
    Ok(Exp::Handle(place, exp, rules))
}

pub fn raised(alloc: Global, place: Place, exp: Exp) -> Result<Exp, NoMemory>
    ensures { IfOk result (λ e. exp_of e ≡ bare.raise place (exp_of exp)) }
{
    Ok(Exp::Raise(place, Box::new(alloc, exp)?))
}

pub fn lambda(place: Place, rules: Vec<Rule>) -> Exp
    ensures { exp_of result ≡ bare.fn place (rules_of (map rule_of rules.items)) }
{
    Exp::Fn(place, rules)
}

pub fn rule(place: Place, pat: Pat, exp: Exp) -> Rule
    ensures { rule_of result ≡ record { place = place; pat = pat_of pat; exp = exp_of exp } }
{
    Rule { place, pat, exp }
}

pub fn part(joint: Joint, place: Place, exp: Exp) -> Part
    ensures { part_of result ≡ record { joint = joint; place = place; operand = exp_of exp } }
{
    Part { joint, place, exp }
}

pub fn field(label: Label, exp: Exp) -> ExpField
    ensures { exp_field_of result ≡ record { label = label; exp = exp_of exp } }
{
    ExpField { label, exp }
}

pub fn bind(place: Place, pat: Pat, exp: Exp) -> Bind
    ensures { bind_of result ≡ record { place = place; pat = pat_of pat; exp = exp_of exp } }
{
    Bind { place, pat, exp }
}

pub fn clause(place: Place, pats: Vec<Pat>, exp: Exp) -> Clause
    ensures { clause_of result ≡ record { place = place; pats = map pat_of pats.items; body = exp_of exp } }
{
    Clause { place, pats, exp }
}

pub fn function(place: Place, vid_place: Place, vid: Vid, clauses: Vec<Clause>) -> Function
    ensures { function_of result ≡ record { place = place; vid_place = vid_place; vid = vid; clauses = map clause_of clauses.items } }
{
    Function {
        place,
        vid_place,
        vid,
        clauses,
    }
}

pub fn val(place: Place, tyvars: TyvarSeq, plain: Vec<Bind>, recursive: Vec<Bind>) -> Dec
    ensures { dec_of result ≡ bare.val_dec place tyvars.place tyvars.tyvars.items (binds_of (map bind_of plain.items))
        (binds_of (map bind_of recursive.items)) }
{
    Dec::Val(place, tyvars, plain, recursive)
}

pub fn functions(place: Place, tyvars: TyvarSeq, functions: Vec<Function>) -> Dec
    ensures { dec_of result ≡ fun_dec_of place tyvars.place tyvars.tyvars.items (map function_of functions.items) }
{
    Dec::Fun(place, tyvars, functions)
}

pub fn abbreviations(place: Place, binds: Vec<TypeBind>) -> Dec
    ensures { dec_of result ≡ bare.type_dec place (map type_bind_of binds.items) }
{
    Dec::Abbreviation(place, binds)
}

pub fn datatypes(place: Place, binds: Vec<DataBind>) -> Dec
    ensures { dec_of result ≡ bare.datatype_dec place (map data_bind_of binds.items) }
{
    Dec::Datatype(place, binds)
}

/// `datatype d withtype b`
pub fn withtype(place: Place, datatypes: Vec<DataBind>, binds: Vec<TypeBind>) -> Dec
    ensures { dec_of result ≡ withtype_of place (map data_bind_of datatypes.items) (map type_bind_of binds.items) }
{
    Dec::Withtype(place, datatypes, binds)
}

pub fn replicated(place: Place, tycon: Name, of: LongIdAt) -> Dec
    ensures { dec_of result ≡ bare.replicate_dec place tycon (long_id_at_of of) }
{
    Dec::Replicate(place, tycon, of)
}

pub fn exceptions(place: Place, binds: Vec<ExBind>) -> Dec
    ensures { dec_of result ≡ bare.exception_dec place (map ex_bind_of binds.items) }
{
    Dec::Exception(place, binds)
}

pub fn local(place: Place, first: Vec<Dec>, second: Vec<Dec>) -> Dec
    ensures { dec_of result ≡ bare.local_dec place (decs_of (map dec_of first.items)) (decs_of (map dec_of second.items)) }
{
    Dec::Local(place, first, second)
}

pub fn opened(place: Place, structures: Vec<LongIdAt>) -> Dec
    ensures { dec_of result ≡ bare.open_dec place (map long_id_at_of structures.items) }
{
    Dec::Open(place, structures)
}
