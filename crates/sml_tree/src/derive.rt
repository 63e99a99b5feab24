// The derived forms: one function a row of the table that needs more than one node.

ghost use Rattle.std.specs.Prelude.{◌≡◌, ◌∷◌, [], map, true, IfOk};
ghost use Rattle.sml_tree.specs.Derived.{fresh_exp, fresh_pat, unit, tuple_pat, select, case_of, if_of};
ghost use Rattle.sml_tree.specs.Derived.{and_of, or_of, sequence_of, let_of, while_of, with_result, pun};
ghost use Rattle.sml_tree.specs.BareTree as bare;
ghost use Rattle.sml_tree.specs.TreeOf.{exp_of, pat_of, ty_of, dec_of, rule_of, rules_of, decs_of, some_ty_of};

use crate::ident::{BuiltIn, LongVid, Vid};
use crate::tree::{Bind, Dec, Exp, Pat, PatField, Rule, Ty, TyvarSeq};
use mlc_base::make::{both, boxed, one, two, with};
use mlc_base::memory::NoMemory;
use mlc_base::place::Place;
use mlc_names::label::Label;
use mlc_names::names::Name;
use std::alloc::Global;

/// The fresh variable of this number.
fn fresh(alloc: Global, place: Place, number: u32) -> Exp
    ensures { exp_of result ≡ fresh_exp place number }
{
    Exp::Vid(
        place,
        LongVid {
            qualifiers: Vec::new(alloc),
            vid: Vid::Fresh(number),
        },
    )
}

fn fresh_pattern(alloc: Global, place: Place, number: u32) -> Pat
    ensures { pat_of result ≡ fresh_pat place number }
{
    Pat::Vid(
        place,
        LongVid {
            qualifiers: Vec::new(alloc),
            vid: Vid::Fresh(number),
        },
    )
}

/// `()`
pub fn unit(alloc: Global, place: Place) -> Exp
    ensures { exp_of result ≡ unit place }
{
    Exp::Tuple(place, Vec::new(alloc))
}

/// `function argument`
fn apply(alloc: Global, place: Place, function: Exp, argument: Exp) -> Result<Exp, NoMemory>
    ensures { IfOk result (λ e. exp_of e ≡ bare.app place (exp_of function) (exp_of argument)) }
{
    match both(boxed(alloc, function), one(alloc, argument)) {
        Ok((function, arguments)) => Ok(Exp::Apply(place, function, arguments)),
        Err(e) => Err(e),
    }
}

/// `fn pat => exp`
fn lambda(alloc: Global, place: Place, pat: Pat, exp: Exp) -> Result<Exp, NoMemory>
    ensures { IfOk result (λ e. exp_of e ≡ bare.fn place (bare.rule place (pat_of pat) (exp_of exp) bare.no_rules)) }
{
    Ok(Exp::Fn(place, one(alloc, Rule { place, pat, exp })?))
}

/// `{lab = v, ...}`, where `v` is the fresh variable of number 0.
fn one_field(alloc: Global, place: Place, label: Label) -> Result<Pat, NoMemory>
    ensures { IfOk result (λ a. pat_of a ≡ bare.fields_pat place (bare.pat_field label (fresh_pat place 0) bare.no_pat_fields) true) }
{
    let pat = fresh_pattern(alloc, place, 0);
    Ok(Pat::Record(place, one(alloc, PatField { label, pat })?, true))
}

/// `#lab`
pub fn selector(alloc: Global, place: Place, label: Label) -> Result<Exp, NoMemory>
    ensures { IfOk result (λ e. exp_of e ≡ select place label) }
{
    let pat = one_field(alloc, place, label)?;
    lambda(alloc, place, pat, fresh(alloc, place, 0))
}

/// `case e of rules`
pub fn case(alloc: Global, place: Place, e: Exp, rules: Vec<Rule>) -> Result<Exp, NoMemory>
    ensures { IfOk result (λ made. exp_of made ≡ case_of place (exp_of e) (rules_of (map rule_of rules.items))) }
{
    apply(alloc, place, Exp::Fn(place, rules), e)
}

/// `true => b | false => c`
fn branches(alloc: Global, place: Place, b: Exp, c: Exp) -> Result<Vec<Rule>, NoMemory>
    ensures { IfOk result (λ rs. rules_of (map rule_of rs.items)
        ≡ bare.rule place (bare.built_pat place BuiltIn.True) (exp_of b) (bare.rule place (bare.built_pat place BuiltIn.False) (exp_of c) bare.no_rules)) }
{
    let yes = Rule {
        place,
        pat: Pat::BuiltIn(place, BuiltIn::True),
        exp: b,
    };
    let no = Rule {
        place,
        pat: Pat::BuiltIn(place, BuiltIn::False),
        exp: c,
    };
    two(alloc, yes, no)
}

/// `if a then b else c`
pub fn conditional(alloc: Global, place: Place, a: Exp, b: Exp, c: Exp) -> Result<Exp, NoMemory>
    ensures { IfOk result (λ e. exp_of e ≡ if_of place (exp_of a) (exp_of b) (exp_of c)) }
{
    match with(a, branches(alloc, place, b, c)) {
        Ok((a, rules)) => case(alloc, place, a, rules),
        Err(e) => Err(e),
    }
}

/// `a andalso b`
pub fn conjunction(alloc: Global, place: Place, a: Exp, b: Exp) -> Result<Exp, NoMemory>
    ensures { IfOk result (λ e. exp_of e ≡ and_of place (exp_of a) (exp_of b)) }
{
    conditional(alloc, place, a, b, Exp::BuiltIn(place, BuiltIn::False))
}

/// `a orelse b`
pub fn disjunction(alloc: Global, place: Place, a: Exp, b: Exp) -> Result<Exp, NoMemory>
    ensures { IfOk result (λ e. exp_of e ≡ or_of place (exp_of a) (exp_of b)) }
{
    conditional(alloc, place, a, Exp::BuiltIn(place, BuiltIn::True), b)
}

/// `(first; ..)`
pub fn sequence(alloc: Global, place: Place, first: Exp, more: Vec<Exp>) -> Result<Exp, NoMemory>
    ensures { IfOk result (λ e. exp_of e ≡ sequence_of place (exp_of first) (map exp_of more.items)) }
{
    match with(more, boxed(alloc, first)) {
        Ok((more, first)) => Ok(Exp::Sequence(place, first, more)),
        Err(e) => Err(e),
    }
}

/// `let d in e end`
fn let_one(alloc: Global, place: Place, declarations: Vec<Dec>, body: Exp) -> Result<Exp, NoMemory>
    ensures { IfOk result (λ e. exp_of e ≡ bare.let_in place (decs_of (map dec_of declarations.items)) (exp_of body)) }
{
    match with(declarations, boxed(alloc, body)) {
        Ok((declarations, body)) => Ok(Exp::Let(place, declarations, body)),
        Err(e) => Err(e),
    }
}

/// `let d in e1; ..; en end`
pub fn let_in(
    alloc: Global,
    place: Place,
    declarations: Vec<Dec>,
    first: Exp,
    more: Vec<Exp>,
) -> Result<Exp, NoMemory>
    ensures { IfOk result (λ e. exp_of e ≡ let_of place (decs_of (map dec_of declarations.items)) (exp_of first) (map exp_of more.items)) }
{
    match with(declarations, sequence(alloc, place, first, more)) {
        Ok((declarations, body)) => let_one(alloc, place, declarations, body),
        Err(e) => Err(e),
    }
}

/// `v ()`, where `v` is the fresh variable of number 0.
fn call(alloc: Global, place: Place) -> Result<Exp, NoMemory>
    ensures { IfOk result (λ e. exp_of e ≡ bare.app place (fresh_exp place 0) (unit place)) }
{
    apply(alloc, place, fresh(alloc, place, 0), unit(alloc, place))
}

fn only_call(alloc: Global, place: Place) -> Result<Vec<Exp>, NoMemory>
    ensures { IfOk result (λ es. map exp_of es.items ≡ bare.app place (fresh_exp place 0) (unit place) ∷ []) }
{
    one(alloc, call(alloc, place)?)
}

/// `(b; v ())`
fn again(alloc: Global, place: Place, b: Exp) -> Result<Exp, NoMemory>
    ensures { IfOk result (λ e. exp_of e ≡ sequence_of place (exp_of b) (bare.app place (fresh_exp place 0) (unit place) ∷ [])) }
{
    match with(b, only_call(alloc, place)) {
        Ok((b, more)) => sequence(alloc, place, b, more),
        Err(e) => Err(e),
    }
}

/// `fn () => if a then (b; v ()) else ()`
fn round(alloc: Global, place: Place, a: Exp, b: Exp) -> Result<Exp, NoMemory>
    ensures { IfOk result (λ e. exp_of e ≡ bare.fn place (bare.rule place (tuple_pat place [])
        (if_of place (exp_of a) (sequence_of place (exp_of b) (bare.app place (fresh_exp place 0) (unit place) ∷ [])) (unit place)) bare.no_rules)) }
{
    match with(a, again(alloc, place, b)) {
        Ok((a, body)) => {
            let choice = conditional(alloc, place, a, body, unit(alloc, place))?;
            lambda(alloc, place, Pat::Tuple(place, Vec::new(alloc)), choice)
        }
        Err(e) => Err(e),
    }
}

/// `val rec v = exp`
fn recursive(alloc: Global, place: Place, exp: Exp) -> Result<Vec<Dec>, NoMemory>
    ensures { IfOk result (λ ds. decs_of (map dec_of ds.items)
        ≡ bare.dec (bare.val_dec place place [] bare.no_binds (bare.bind place (fresh_pat place 0) (exp_of exp) bare.no_binds)) bare.no_decs) }
{
    let pat = fresh_pattern(alloc, place, 0);
    let binds = one(alloc, Bind { place, pat, exp })?;
    let none = TyvarSeq {
        place,
        tyvars: Vec::new(alloc),
    };
    one(alloc, Dec::Val(place, none, Vec::new(alloc), binds))
}

/// `while a do b`
pub fn while_loop(alloc: Global, place: Place, a: Exp, b: Exp) -> Result<Exp, NoMemory>
    ensures { IfOk result (λ e. exp_of e ≡ while_of place (exp_of a) (exp_of b)) }
{
    let round = round(alloc, place, a, b)?;
    match both(recursive(alloc, place, round), call(alloc, place)) {
        Ok((declarations, call)) => let_one(alloc, place, declarations, call),
        Err(e) => Err(e),
    }
}

/// The right side of `[: t] = e`.
pub fn with_result(alloc: Global, place: Place, e: Exp, ty: Option<Ty>) -> Result<Exp, NoMemory>
    ensures { IfOk result (λ made. exp_of made ≡ with_result place (exp_of e) (some_ty_of ty)) }
{
    match ty {
        None => Ok(e),
        Some(ty) => typed(alloc, place, e, ty),
    }
}

/// `e : t`
fn typed(alloc: Global, place: Place, e: Exp, ty: Ty) -> Result<Exp, NoMemory>
    ensures { IfOk result (λ made. exp_of made ≡ bare.typed place (exp_of e) (ty_of ty)) }
{
    match with(ty, boxed(alloc, e)) {
        Ok((ty, e)) => Ok(Exp::Typed(place, e, ty)),
        Err(e) => Err(e),
    }
}

/// `x`, as a pattern.
fn variable(alloc: Global, place: Place, name: Name) -> Pat
    ensures { pat_of result ≡ pun place name None }
{
    Pat::Vid(
        place,
        LongVid {
            qualifiers: Vec::new(alloc),
            vid: Vid::Named(name),
        },
    )
}

/// The pattern of a field `x [: t]`.
pub fn field(alloc: Global, place: Place, name: Name, ty: Option<Ty>) -> Result<Pat, NoMemory>
    ensures { IfOk result (λ made. pat_of made ≡ pun place name (some_ty_of ty)) }
{
    match ty {
        None => Ok(variable(alloc, place, name)),
        Some(ty) => match with(ty, boxed(alloc, variable(alloc, place, name))) {
            Ok((ty, variable)) => Ok(Pat::Typed(place, variable, ty)),
            Err(e) => Err(e),
        },
    }
}

/// The pattern of a field `x [: t] as p`.
pub fn field_as(
    alloc: Global,
    place: Place,
    name: Name,
    ty: Option<Ty>,
    pat: Pat,
) -> Result<Pat, NoMemory>
    ensures { IfOk result (λ made. pat_of made ≡ bare.as_pat place (Vid.Named name) (some_ty_of ty) (pat_of pat)) }
{
    match with(ty, boxed(alloc, pat)) {
        Ok((ty, pat)) => Ok(Pat::As(place, Vid::Named(name), ty, pat)),
        Err(e) => Err(e),
    }
}
