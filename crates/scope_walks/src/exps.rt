// What is looked for, in expressions and declarations.
ghost use Rattle.std.specs.Prelude.{map, IfOk, IsTrue};
ghost use Rattle.sml_tree.specs.TreeOf.{dec_of, decs_of};
ghost use Rattle.core_rules.specs.Unbound.{all_in, decs_in, decs_names, dec_names};
ghost use Rattle.core_rules.specs.Values.{Env};
ghost use Rattle.name_scopes.specs.Covering.{Covers};
ghost use Rattle.name_scopes.specs.Nodes.{bind_phrase, clause_phrase, dec_phrase, exp_phrase, function_phrase, rule_phrase};
ghost use Rattle.name_scopes.specs.Parts.{joint_unbound, InParts};
ghost use Rattle.name_scopes.specs.Placed.{At, AnyAt, Declared, FoundAt, Walked};
ghost use Rattle.scope_walks.specs.Functions.{fun_names, IsInFun};

use crate::vals::{close_val, open_val};
use mlc_base::memory::NoMemory;
use mlc_base::place::Place;
use name_scopes::datas::{
    in_datatype, in_exception, in_open, in_replicate, in_type_dec, in_withtype,
};
use name_scopes::look_ups::{is_at, is_unbound_value, is_unbound_vid};
use name_scopes::pats::{in_pat, in_pats};
use name_scopes::scope::Scope;
use name_scopes::sought::Sought;
use name_scopes::twice::{is_clause_twice, is_fun_twice, is_rule_twice, is_val_twice};
use name_scopes::tys::in_ty;
use name_scopes::vids::{bind_functions, bind_pat, bind_pats};
use sml_tree::tree::{Bind, Clause, Dec, Exp, ExpField, Function, Joint, Part, Rule};
use std::alloc::Global;

/// An infix identifier that isn't bound, where that is looked for there.
fn in_joint(sought: &Sought, joint: &Joint, scope: &Scope) -> bool
    ensures { IsTrue result → (e : Env) → Covers scope.now e → At sought.now (joint_unbound e joint.now) }
{
    match joint {
        Joint::Infix(at, vid) => is_at(*at, sought) && is_unbound_vid(*vid, scope),
        _ => false,
    }
}

/// Whether what is looked for is in an expression.
#[cycle(exps)]
pub fn in_exp(
    alloc: Global,
    sought: &Sought,
    exp: &Exp,
    scope: &mut Scope,
) -> Result<bool, NoMemory>
    ensures { IfOk result (λ found. Walked found scope.old scope.new (λ e. FoundAt sought.now e (exp_phrase exp.now))) }
{
    match exp {
        Exp::Constant(_, _) => Ok(false),
        Exp::Vid(at, long) => Ok(is_at(*at, sought) && is_unbound_value(long, scope)),
        Exp::BuiltIn(_, _) => Ok(false),
        Exp::Record(_, fields) => in_fields(alloc, sought, fields, scope),
        Exp::Tuple(_, parts) => in_exps(alloc, sought, parts, scope),
        Exp::List(_, elements) => in_exps(alloc, sought, elements, scope),
        Exp::Sequence(_, first, rest) => {
            Ok(in_exp(alloc, sought, first, scope)? || in_exps(alloc, sought, rest, scope)?)
        }
        Exp::Let(_, decs, body) => {
            let before = scope.len();
            if in_decs(alloc, sought, decs, scope)? {
                return Ok(true);
            }
            if in_exp(alloc, sought, body, scope)? {
                return Ok(true);
            }
            scope.leave(before);
            Ok(false)
        }
        Exp::Apply(_, function, arguments) => {
            Ok(in_exp(alloc, sought, function, scope)? || in_exps(alloc, sought, arguments, scope)?)
        }
        Exp::Chain(_, _, first, parts) => {
            Ok(in_exp(alloc, sought, first, scope)? || in_parts(alloc, sought, parts, scope)?)
        }
        Exp::Typed(_, body, ty) => {
            Ok(in_ty(alloc, sought, ty, scope) || in_exp(alloc, sought, body, scope)?)
        }
        Exp::Handle(_, body, rules) => {
            Ok(in_exp(alloc, sought, body, scope)? || in_rules(alloc, sought, rules, scope)?)
        }
        Exp::Raise(_, body) => in_exp(alloc, sought, body, scope),
        Exp::Fn(_, rules) => in_rules(alloc, sought, rules, scope),
    }
}

#[cycle(exps)]
fn in_exps(
    alloc: Global,
    sought: &Sought,
    exps: &[Exp],
    scope: &mut Scope,
) -> Result<bool, NoMemory>
    ensures { IfOk result (λ found. Walked found scope.old scope.new (λ e. AnyAt sought.now (all_in e (map exp_phrase exps.now)))) }
{
    for i in 0..exps.len() {
        if in_exp(alloc, sought, &exps[i], scope)? {
            return Ok(true);
        }
    }
    Ok(false)
}

#[cycle(exps)]
fn in_fields(
    alloc: Global,
    sought: &Sought,
    fields: &[ExpField],
    scope: &mut Scope,
) -> Result<bool, NoMemory>
    ensures { IfOk result (λ found. Walked found scope.old scope.new (λ e. AnyAt sought.now (all_in e (map (λ f. exp_phrase f.exp) fields.now)))) }
{
    for i in 0..fields.len() {
        let field = &fields[i];
        if in_exp(alloc, sought, &field.exp, scope)? {
            return Ok(true);
        }
    }
    Ok(false)
}

/// Operands of a chain, and what joins them.
#[cycle(exps)]
fn in_parts(
    alloc: Global,
    sought: &Sought,
    parts: &[Part],
    scope: &mut Scope,
) -> Result<bool, NoMemory>
    ensures { IfOk result (λ found. Walked found scope.old scope.new (λ e. InParts sought.now e parts.now)) }
{
    for i in 0..parts.len() {
        let part = &parts[i];
        if in_joint(sought, &part.joint, scope) {
            return Ok(true);
        }
        if in_exp(alloc, sought, &part.exp, scope)? {
            return Ok(true);
        }
    }
    Ok(false)
}

#[cycle(exps)]
fn in_rule(alloc: Global, sought: &Sought, rule: &Rule, scope: &mut Scope) -> Result<bool, NoMemory>
    ensures { IfOk result (λ found. Walked found scope.old scope.new (λ e. FoundAt sought.now e (rule_phrase rule.now))) }
{
    if is_rule_twice(alloc, sought, rule, scope)? {
        return Ok(true);
    }
    if in_pat(alloc, sought, &rule.pat, scope) {
        return Ok(true);
    }
    let before = scope.len();
    bind_pat(alloc, &rule.pat, scope)?;
    if in_exp(alloc, sought, &rule.exp, scope)? {
        return Ok(true);
    }
    scope.leave(before);
    Ok(false)
}

#[cycle(exps)]
fn in_rules(
    alloc: Global,
    sought: &Sought,
    rules: &[Rule],
    scope: &mut Scope,
) -> Result<bool, NoMemory>
    ensures { IfOk result (λ found. Walked found scope.old scope.new (λ e. AnyAt sought.now (all_in e (map rule_phrase rules.now)))) }
{
    for i in 0..rules.len() {
        if in_rule(alloc, sought, &rules[i], scope)? {
            return Ok(true);
        }
    }
    Ok(false)
}

#[cycle(exps)]
fn in_bind(alloc: Global, sought: &Sought, bind: &Bind, scope: &mut Scope) -> Result<bool, NoMemory>
    ensures { IfOk result (λ found. Walked found scope.old scope.new (λ e. FoundAt sought.now e (bind_phrase bind.now))) }
{
    if in_pat(alloc, sought, &bind.pat, scope) {
        return Ok(true);
    }
    in_exp(alloc, sought, &bind.exp, scope)
}

#[cycle(exps)]
fn in_binds(
    alloc: Global,
    sought: &Sought,
    binds: &[Bind],
    scope: &mut Scope,
) -> Result<bool, NoMemory>
    ensures { IfOk result (λ found. Walked found scope.old scope.new (λ e. AnyAt sought.now (all_in e (map bind_phrase binds.now)))) }
{
    for i in 0..binds.len() {
        if in_bind(alloc, sought, &binds[i], scope)? {
            return Ok(true);
        }
    }
    Ok(false)
}

#[cycle(exps)]
fn in_clause(
    alloc: Global,
    sought: &Sought,
    clause: &Clause,
    scope: &mut Scope,
) -> Result<bool, NoMemory>
    ensures { IfOk result (λ found. Walked found scope.old scope.new (λ e. FoundAt sought.now e (clause_phrase clause.now))) }
{
    if is_clause_twice(alloc, sought, clause, scope)? {
        return Ok(true);
    }
    if in_pats(alloc, sought, &clause.pats, scope) {
        return Ok(true);
    }
    let before = scope.len();
    bind_pats(alloc, &clause.pats, scope)?;
    if in_exp(alloc, sought, &clause.exp, scope)? {
        return Ok(true);
    }
    scope.leave(before);
    Ok(false)
}

#[cycle(exps)]
fn in_clauses(
    alloc: Global,
    sought: &Sought,
    clauses: &[Clause],
    scope: &mut Scope,
) -> Result<bool, NoMemory>
    ensures { IfOk result (λ found. Walked found scope.old scope.new (λ e. AnyAt sought.now (all_in e (map clause_phrase clauses.now)))) }
{
    for i in 0..clauses.len() {
        if in_clause(alloc, sought, &clauses[i], scope)? {
            return Ok(true);
        }
    }
    Ok(false)
}

#[cycle(exps)]
fn in_functions(
    alloc: Global,
    sought: &Sought,
    functions: &[Function],
    scope: &mut Scope,
) -> Result<bool, NoMemory>
    ensures { IfOk result (λ found. Walked found scope.old scope.new (λ e. AnyAt sought.now (all_in e (map function_phrase functions.now)))) }
{
    for i in 0..functions.len() {
        let function = &functions[i];
        if in_clauses(alloc, sought, &function.clauses, scope)? {
            return Ok(true);
        }
    }
    Ok(false)
}

/// The functions of a `fun` at a place, of which each is in scope in all.
#[cycle(exps)]
fn in_fun(
    alloc: Global,
    sought: &Sought,
    at: Place,
    functions: &[Function],
    scope: &mut Scope,
) -> Result<bool, NoMemory>
    ensures { IfOk result (λ found. Declared found scope.old scope.new (λ e. IsInFun sought.now e at functions.now) (λ e. fun_names functions.now)) }
{
    if is_fun_twice(alloc, sought, at, functions)? {
        return Ok(true);
    }
    bind_functions(alloc, functions, scope)?;
    in_functions(alloc, sought, functions, scope)
}

/// Declarations, one after the other.
#[cycle(exps)]
pub fn in_decs(
    alloc: Global,
    sought: &Sought,
    decs: &[Dec],
    scope: &mut Scope,
) -> Result<bool, NoMemory>
    ensures { IfOk result (λ found. Declared found scope.old scope.new (λ e. AnyAt sought.now (decs_in e (decs_of (map dec_of decs.now))))
        (λ e. decs_names e (decs_of (map dec_of decs.now)))) }
{
    for i in 0..decs.len() {
        if in_dec(alloc, sought, &decs[i], scope)? {
            return Ok(true);
        }
    }
    Ok(false)
}

/// A declaration.
#[cycle(exps)]
fn in_dec(alloc: Global, sought: &Sought, dec: &Dec, scope: &mut Scope) -> Result<bool, NoMemory>
    ensures { IfOk result (λ found. Declared found scope.old scope.new (λ e. FoundAt sought.now e (dec_phrase dec.now)) (λ e. dec_names e (dec_of dec.now))) }
{
    match dec {
        Dec::Val(at, _, binds, recs) => {
            if is_val_twice(alloc, sought, *at, binds, recs, scope)? {
                return Ok(true);
            }
            if in_binds(alloc, sought, binds, scope)? {
                return Ok(true);
            }
            let opened = open_val(alloc, binds, recs, scope)?;
            if in_binds(alloc, sought, recs, scope)? {
                return Ok(true);
            }
            close_val(alloc, &opened, recs, scope)?;
            Ok(false)
        }
        Dec::Fun(at, _, functions) => in_fun(alloc, sought, *at, functions, scope),
        Dec::Abbreviation(_, binds) => in_type_dec(alloc, sought, binds, scope),
        Dec::Datatype(_, binds) => in_datatype(alloc, sought, binds, scope),
        Dec::Withtype(_, binds, types) => in_withtype(alloc, sought, binds, types, scope),
        Dec::Replicate(_, name, long) => in_replicate(alloc, sought, *name, long, scope),
        Dec::Exception(_, binds) => in_exception(alloc, sought, binds, scope),
        Dec::Local(_, decs, shown) => {
            let from = scope.len();
            if in_decs(alloc, sought, decs, scope)? {
                return Ok(true);
            }
            let to = scope.len();
            if in_decs(alloc, sought, shown, scope)? {
                return Ok(true);
            }
            scope.leave_between(alloc, from, to)?;
            Ok(false)
        }
        Dec::Open(_, longs) => in_open(sought, longs, scope),
        Dec::Declarations(_, decs) => in_decs(alloc, sought, decs, scope),
    }
}
