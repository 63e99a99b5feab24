// The type variables that occur unguarded in expressions and bindings, as often as they do. They come in the order of the bare tree, in which derived forms
// turn some operands round.
ghost use Rattle.std.specs.Prelude.{◌≡◌, ◌++◌, ◌∷◌, ◌<◌, [], List, drop, flat_map, if◌then◌else◌, length, IfOk};
ghost use Rattle.sml_tree.specs.declared.tree.Part.{Part as Operand};
ghost use Rattle.scoped_tyvars.specs.Unguarded.{
  back,
  begins_logical,
  bind_tyvars,
  clause_tyvars,
  dec_tyvars,
  exn_tyvars,
  exp_tyvars,
  field_tyvars,
  function_tyvars,
  is_logical as is_logical_joint,
  is_turned as is_turned_among,
  plain,
  rule_tyvars,
  turned,
};

use crate::pats::{of_all, of_pat};
use crate::tys::{of_some, of_ty};
use mlc_base::memory::NoMemory;
use sml_tree::ident::Tyvar;
use sml_tree::tree::{Bind, Clause, Dec, ExBind, Exp, ExpField, Function, Joint, Part, Rule};

/// Whether a joint is `andalso` or `orelse`.
fn is_logical(joint: Joint) -> bool
    ensures { result ≡ is_logical_joint joint }
{
    match joint {
        Joint::AndAlso => true,
        Joint::OrElse => true,
        Joint::Infix(_, _) => false,
    }
}

/// Whether such a joint stands before the operand of a place, if there is one.
fn follows(parts: &[Part], index: usize) -> bool
    ensures { result ≡ begins_logical (drop index parts.now) }
{
    if index >= parts.len() {
        return false;
    }
    let part = &parts[index];
    is_logical(part.joint)
}

/// Whether an operand of a chain is turned.
fn is_turned(parts: &[Part], index: usize, right: bool) -> bool
    requires { index < length parts.now }
    ensures { (o : Operand) (os : List Operand) → drop index parts.now ≡ o ∷ os → result ≡ is_turned_among right o os }
{
    if right {
        follows(parts, index + 1)
    } else {
        follows(parts, index)
    }
}

/// Those of an expression.
#[cycle(exps)]
pub fn of_exp(exp: &Exp, found: &mut Vec<Tyvar>) -> Result<(), NoMemory>
    ensures { IfOk result (λ _. found.new.items ≡ found.old.items ++ exp_tyvars exp.now) }
{
    match exp {
        Exp::Constant(_, _) => Ok(()),
        Exp::Vid(_, _) => Ok(()),
        Exp::BuiltIn(_, _) => Ok(()),
        Exp::Record(_, fields) => of_fields(fields, found),
        Exp::Tuple(_, parts) => of_exps(parts, found),
        Exp::List(_, elements) => of_exps(elements, found),
        Exp::Sequence(_, first, rest) => {
            of_back(rest, found)?;
            of_exp(first, found)
        }
        Exp::Let(_, decs, body) => {
            of_decs(decs, found)?;
            of_exp(body, found)
        }
        Exp::Apply(_, function, arguments) => {
            of_exp(function, found)?;
            of_exps(arguments, found)
        }
        Exp::Chain(_, right, first, parts) => {
            if *right {
                let behind = follows(parts, 0);
                of_exp_if(first, !behind, found)?;
                of_plain(parts, true, found)?;
                of_turned(parts, true, found)?;
                of_exp_if(first, behind, found)
            } else {
                of_turned(parts, false, found)?;
                of_exp(first, found)?;
                of_plain(parts, false, found)
            }
        }
        Exp::Typed(_, body, ty) => {
            of_exp(body, found)?;
            of_ty(ty, found)
        }
        Exp::Handle(_, body, rules) => {
            of_exp(body, found)?;
            of_rules(rules, found)
        }
        Exp::Raise(_, body) => of_exp(body, found),
        Exp::Fn(_, rules) => of_rules(rules, found),
    }
}

#[cycle(exps)]
fn of_exp_if(exp: &Exp, wanted: bool, found: &mut Vec<Tyvar>) -> Result<(), NoMemory>
    ensures { IfOk result (λ _. found.new.items ≡ found.old.items ++ (if wanted then exp_tyvars exp.now else [])) }
{
    if wanted { of_exp(exp, found) } else { Ok(()) }
}

#[cycle(exps)]
fn of_exps(exps: &[Exp], found: &mut Vec<Tyvar>) -> Result<(), NoMemory>
    ensures { IfOk result (λ _. found.new.items ≡ found.old.items ++ flat_map exp_tyvars exps.now) }
{
    for i in 0..exps.len() {
        of_exp(&exps[i], found)?;
    }
    Ok(())
}

/// Those of expressions from the last to the first.
#[cycle(exps)]
fn of_back(exps: &[Exp], found: &mut Vec<Tyvar>) -> Result<(), NoMemory>
    ensures { IfOk result (λ _. found.new.items ≡ found.old.items ++ back exp_tyvars exps.now) }
{
    let mut i = exps.len();
    while i > 0 {
        i -= 1;
        of_exp(&exps[i], found)?;
    }
    Ok(())
}

#[cycle(exps)]
fn of_fields(fields: &[ExpField], found: &mut Vec<Tyvar>) -> Result<(), NoMemory>
    ensures { IfOk result (λ _. found.new.items ≡ found.old.items ++ flat_map field_tyvars fields.now) }
{
    for i in 0..fields.len() {
        let field = &fields[i];
        of_exp(&field.exp, found)?;
    }
    Ok(())
}

#[cycle(exps)]
fn of_rules(rules: &[Rule], found: &mut Vec<Tyvar>) -> Result<(), NoMemory>
    ensures { IfOk result (λ _. found.new.items ≡ found.old.items ++ flat_map rule_tyvars rules.now) }
{
    for i in 0..rules.len() {
        let rule = &rules[i];
        of_pat(&rule.pat, found)?;
        of_exp(&rule.exp, found)?;
    }
    Ok(())
}

/// Those of operands that stay in their order.
#[cycle(exps)]
fn of_plain(parts: &[Part], right: bool, found: &mut Vec<Tyvar>) -> Result<(), NoMemory>
    ensures { IfOk result (λ _. found.new.items ≡ found.old.items ++ plain right parts.now) }
{
    for i in 0..parts.len() {
        let turned = is_turned(parts, i, right);
        let part = &parts[i];
        of_exp_if(&part.exp, !turned, found)?;
    }
    Ok(())
}

/// Those of operands that are turned, the last first.
#[cycle(exps)]
fn of_turned(parts: &[Part], right: bool, found: &mut Vec<Tyvar>) -> Result<(), NoMemory>
    ensures { IfOk result (λ _. found.new.items ≡ found.old.items ++ turned right parts.now) }
{
    let mut i = parts.len();
    while i > 0 {
        i -= 1;
        let turned = is_turned(parts, i, right);
        let part = &parts[i];
        of_exp_if(&part.exp, turned, found)?;
    }
    Ok(())
}

#[cycle(decs)]
fn of_decs(decs: &[Dec], found: &mut Vec<Tyvar>) -> Result<(), NoMemory>
    ensures { IfOk result (λ _. found.new.items ≡ found.old.items ++ flat_map dec_tyvars decs.now) }
{
    for i in 0..decs.len() {
        of_dec(&decs[i], found)?;
    }
    Ok(())
}

/// Those of a declaration. Declarations of values, and bindings of types, have their own.
#[cycle(decs)]
fn of_dec(dec: &Dec, found: &mut Vec<Tyvar>) -> Result<(), NoMemory>
    ensures { IfOk result (λ _. found.new.items ≡ found.old.items ++ dec_tyvars dec.now) }
{
    match dec {
        Dec::Val(_, _, _, _) => Ok(()),
        Dec::Fun(_, _, _) => Ok(()),
        Dec::Abbreviation(_, _) => Ok(()),
        Dec::Datatype(_, _) => Ok(()),
        Dec::Withtype(_, _, _) => Ok(()),
        Dec::Replicate(_, _, _) => Ok(()),
        Dec::Exception(_, binds) => of_exceptions(binds, found),
        Dec::Local(_, decs, shown) => {
            of_decs(decs, found)?;
            of_decs(shown, found)
        }
        Dec::Open(_, _) => Ok(()),
        Dec::Declarations(_, decs) => of_decs(decs, found),
    }
}

fn of_exception(bind: &ExBind, found: &mut Vec<Tyvar>) -> Result<(), NoMemory>
    ensures { IfOk result (λ _. found.new.items ≡ found.old.items ++ exn_tyvars bind.now) }
{
    match bind {
        ExBind::New(_, _, ty) => of_some(ty, found),
        ExBind::Same(_, _, _, _) => Ok(()),
    }
}

fn of_exceptions(binds: &[ExBind], found: &mut Vec<Tyvar>) -> Result<(), NoMemory>
    ensures { IfOk result (λ _. found.new.items ≡ found.old.items ++ flat_map exn_tyvars binds.now) }
{
    for i in 0..binds.len() {
        of_exception(&binds[i], found)?;
    }
    Ok(())
}

/// Those of bindings.
pub fn of_binds(binds: &[Bind], found: &mut Vec<Tyvar>) -> Result<(), NoMemory>
    ensures { IfOk result (λ _. found.new.items ≡ found.old.items ++ flat_map bind_tyvars binds.now) }
{
    for i in 0..binds.len() {
        let bind = &binds[i];
        of_pat(&bind.pat, found)?;
        of_exp(&bind.exp, found)?;
    }
    Ok(())
}

fn of_clauses(clauses: &[Clause], found: &mut Vec<Tyvar>) -> Result<(), NoMemory>
    ensures { IfOk result (λ _. found.new.items ≡ found.old.items ++ flat_map clause_tyvars clauses.now) }
{
    for i in 0..clauses.len() {
        let clause = &clauses[i];
        of_all(&clause.pats, found)?;
        of_exp(&clause.exp, found)?;
    }
    Ok(())
}

/// Those of the functions of `fun`.
pub fn of_functions(functions: &[Function], found: &mut Vec<Tyvar>) -> Result<(), NoMemory>
    ensures { IfOk result (λ _. found.new.items ≡ found.old.items ++ flat_map function_tyvars functions.now) }
{
    for i in 0..functions.len() {
        let function = &functions[i];
        of_clauses(&function.clauses, found)?;
    }
    Ok(())
}
