// What is broken in expressions and declarations.
ghost use Rattle.std.specs.Prelude.{flat_map, map, nat_eq, IfOk};
ghost use Rattle.core_rules.specs.Restrictions.{distinct, unless};
ghost use Rattle.restrictions.specs.Found.{Adds, Walks, names_in};
ghost use Rattle.restrictions.specs.Nodes.{
  bind_places,
  clause_places,
  dec_places,
  exp_places,
  field_places,
  function_places,
  named_types,
  part_places,
  rec_places,
  rule_places,
  unless_function,
  unless_once,
};

use crate::binds::{of_exceptions, of_types};
use crate::datas::{of_datatype, of_withtype};
use crate::fns::{begin_unless_fn, take_something};
use crate::keys::{exp_keys, push_all_named};
use crate::once::are_once;
use crate::pats::{of_all, of_pat};
use crate::scope::{enter_fun, enter_val, leave};
use crate::tys::of_ty;
use crate::walk::{Walk, find_place, find_unless};
use mlc_base::memory::NoMemory;
use mlc_base::place::Place;
use sml_tree::tree::{Bind, Clause, Dec, Exp, ExpField, Function, Part, Rule};
use std::alloc::Global;

/// A label that is there twice.
fn check_fields(
    alloc: Global,
    place: Place,
    fields: &[ExpField],
    found: &mut Vec<Place>,
) -> Result<(), NoMemory>
    ensures { IfOk result (λ _. Adds found.old.items found.new.items (unless_once (map (λ f. f.label) fields.now) place)) }
{
    let keys = exp_keys(alloc, fields)?;
    let once = are_once(alloc, &keys)?;
    find_unless(once, place, found)
}

/// A type constructor that is declared twice in a sequence of declarations.
fn check_sequence(
    alloc: Global,
    place: Place,
    decs: &[Dec],
    found: &mut Vec<Place>,
) -> Result<(), NoMemory>
    ensures { IfOk result (λ _. Adds found.old.items found.new.items (unless (distinct nat_eq (flat_map named_types decs.now)) place)) }
{
    let mut keys = Vec::new(alloc);
    push_all_named(decs, &mut keys)?;
    let once = are_once(alloc, &keys)?;
    find_unless(once, place, found)
}

/// A right side of `val rec` that is no `fn`.
fn check_rec(bind: &Bind, found: &mut Vec<Place>) -> Result<(), NoMemory>
    ensures { IfOk result (λ _. Adds found.old.items found.new.items (unless_function bind.now)) }
{
    find_place(begin_unless_fn(&bind.exp), found)
}

/// What is broken in an expression.
#[cycle(exps)]
pub fn of_exp(alloc: Global, exp: &Exp, walk: &mut Walk) -> Result<(), NoMemory>
    ensures { IfOk result (λ _. Walks walk.old walk.new (exp_places (names_in walk.old.around) exp.now)) }
{
    match exp {
        Exp::Constant(_, _) => Ok(()),
        Exp::Vid(_, _) => Ok(()),
        Exp::BuiltIn(_, _) => Ok(()),
        Exp::Record(place, fields) => {
            of_fields(alloc, fields, walk)?;
            check_fields(alloc, *place, fields, &mut walk.found)
        }
        Exp::Tuple(_, parts) => of_exps(alloc, parts, walk),
        Exp::List(_, elements) => of_exps(alloc, elements, walk),
        Exp::Sequence(_, first, rest) => {
            of_exp(alloc, first, walk)?;
            of_exps(alloc, rest, walk)
        }
        Exp::Let(_, decs, body) => {
            of_decs(alloc, decs, walk)?;
            of_exp(alloc, body, walk)
        }
        Exp::Apply(_, function, arguments) => {
            of_exp(alloc, function, walk)?;
            of_exps(alloc, arguments, walk)
        }
        Exp::Chain(_, _, first, parts) => {
            of_exp(alloc, first, walk)?;
            of_parts(alloc, parts, walk)
        }
        Exp::Typed(_, body, ty) => {
            of_exp(alloc, body, walk)?;
            of_ty(alloc, ty, &mut walk.found)
        }
        Exp::Handle(_, body, rules) => {
            of_exp(alloc, body, walk)?;
            of_rules(alloc, rules, walk)
        }
        Exp::Raise(_, body) => of_exp(alloc, body, walk),
        Exp::Fn(_, rules) => of_rules(alloc, rules, walk),
    }
}

#[cycle(exps)]
fn of_exps(alloc: Global, exps: &[Exp], walk: &mut Walk) -> Result<(), NoMemory>
    ensures { IfOk result (λ _. Walks walk.old walk.new (flat_map (exp_places (names_in walk.old.around)) exps.now)) }
{
    for i in 0..exps.len() {
        of_exp(alloc, &exps[i], walk)?;
    }
    Ok(())
}

#[cycle(exps)]
fn of_fields(alloc: Global, fields: &[ExpField], walk: &mut Walk) -> Result<(), NoMemory>
    ensures { IfOk result (λ _. Walks walk.old walk.new (flat_map (field_places (names_in walk.old.around)) fields.now)) }
{
    for i in 0..fields.len() {
        let field = &fields[i];
        of_exp(alloc, &field.exp, walk)?;
    }
    Ok(())
}

#[cycle(exps)]
fn of_parts(alloc: Global, parts: &[Part], walk: &mut Walk) -> Result<(), NoMemory>
    ensures { IfOk result (λ _. Walks walk.old walk.new (flat_map (part_places (names_in walk.old.around)) parts.now)) }
{
    for i in 0..parts.len() {
        let part = &parts[i];
        of_exp(alloc, &part.exp, walk)?;
    }
    Ok(())
}

#[cycle(exps)]
fn of_rules(alloc: Global, rules: &[Rule], walk: &mut Walk) -> Result<(), NoMemory>
    ensures { IfOk result (λ _. Walks walk.old walk.new (flat_map (rule_places (names_in walk.old.around)) rules.now)) }
{
    for i in 0..rules.len() {
        let rule = &rules[i];
        of_pat(alloc, &rule.pat, &mut walk.found)?;
        of_exp(alloc, &rule.exp, walk)?;
    }
    Ok(())
}

#[cycle(exps)]
fn of_binds(alloc: Global, binds: &[Bind], walk: &mut Walk) -> Result<(), NoMemory>
    ensures { IfOk result (λ _. Walks walk.old walk.new (flat_map (bind_places (names_in walk.old.around)) binds.now)) }
{
    for i in 0..binds.len() {
        let bind = &binds[i];
        of_pat(alloc, &bind.pat, &mut walk.found)?;
        of_exp(alloc, &bind.exp, walk)?;
    }
    Ok(())
}

/// What is broken in bindings behind `rec`.
#[cycle(exps)]
fn of_recs(alloc: Global, binds: &[Bind], walk: &mut Walk) -> Result<(), NoMemory>
    ensures { IfOk result (λ _. Walks walk.old walk.new (flat_map (rec_places (names_in walk.old.around)) binds.now)) }
{
    for i in 0..binds.len() {
        let bind = &binds[i];
        of_pat(alloc, &bind.pat, &mut walk.found)?;
        of_exp(alloc, &bind.exp, walk)?;
        check_rec(bind, &mut walk.found)?;
    }
    Ok(())
}

#[cycle(exps)]
fn of_clauses(alloc: Global, clauses: &[Clause], walk: &mut Walk) -> Result<(), NoMemory>
    ensures { IfOk result (λ _. Walks walk.old walk.new (flat_map (clause_places (names_in walk.old.around)) clauses.now)) }
{
    for i in 0..clauses.len() {
        let clause = &clauses[i];
        of_all(alloc, &clause.pats, &mut walk.found)?;
        of_exp(alloc, &clause.exp, walk)?;
    }
    Ok(())
}

#[cycle(exps)]
fn of_functions(alloc: Global, functions: &[Function], walk: &mut Walk) -> Result<(), NoMemory>
    ensures { IfOk result (λ _. Walks walk.old walk.new (flat_map (function_places (names_in walk.old.around)) functions.now)) }
{
    for i in 0..functions.len() {
        let function = &functions[i];
        of_clauses(alloc, &function.clauses, walk)?;
        let takes = take_something(&function.clauses);
        find_unless(takes, function.place, &mut walk.found)?;
    }
    Ok(())
}

#[cycle(exps)]
fn of_decs(alloc: Global, decs: &[Dec], walk: &mut Walk) -> Result<(), NoMemory>
    ensures { IfOk result (λ _. Walks walk.old walk.new (flat_map (dec_places (names_in walk.old.around)) decs.now)) }
{
    for i in 0..decs.len() {
        of_dec(alloc, &decs[i], walk)?;
    }
    Ok(())
}

/// What is broken in a declaration.
#[cycle(exps)]
pub fn of_dec(alloc: Global, dec: &Dec, walk: &mut Walk) -> Result<(), NoMemory>
    ensures { IfOk result (λ _. Walks walk.old walk.new (dec_places (names_in walk.old.around) dec.now)) }
{
    match dec {
        Dec::Val(_, tyvars, binds, recs) => {
            let entered = enter_val(alloc, tyvars, binds, recs, &mut walk.around)?;
            of_binds(alloc, binds, walk)?;
            of_recs(alloc, recs, walk)?;
            leave(entered, tyvars.place, walk)
        }
        Dec::Fun(_, tyvars, functions) => {
            let entered = enter_fun(alloc, tyvars, functions, &mut walk.around)?;
            of_functions(alloc, functions, walk)?;
            leave(entered, tyvars.place, walk)
        }
        Dec::Abbreviation(place, binds) => of_types(alloc, *place, binds, &mut walk.found),
        Dec::Datatype(place, binds) => of_datatype(alloc, *place, binds, &mut walk.found),
        Dec::Withtype(place, binds, types) => {
            of_withtype(alloc, *place, binds, types, &mut walk.found)
        }
        Dec::Replicate(_, _, _) => Ok(()),
        Dec::Exception(place, binds) => of_exceptions(alloc, *place, binds, &mut walk.found),
        Dec::Local(_, decs, shown) => {
            of_decs(alloc, decs, walk)?;
            of_decs(alloc, shown, walk)
        }
        Dec::Open(_, _) => Ok(()),
        Dec::Declarations(place, decs) => {
            of_decs(alloc, decs, walk)?;
            check_sequence(alloc, *place, decs, &mut walk.found)
        }
    }
}
