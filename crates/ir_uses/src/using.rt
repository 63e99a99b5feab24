// Uses of variables at types, and types over the parameters in scope.
ghost use Rattle.std.specs.Prelude.{◌≡◌, ◌↔◌, true, List, [], Some, map, length, IsTrue, IfOk};
ghost use Rattle.std.specs.Option.{option_map};
ghost use Rattle.ty_core.specs.Types.{Typ, var, typs_of};
ghost use Rattle.ty_core.specs.declared.scheme.Quantified.{Quantified};
ghost use Rattle.ty_core.specs.Statics.{replace};
ghost use Rattle.ty_table.specs.TypeAt.{type_at};
ghost use Rattle.ir_known.specs.of_ir_poly.Types.{all_over, admits_in, changed, AreAllowed};
ghost use Rattle.ir_known.specs.of_ir_tables.Tables.{parameters_of};
ghost use Rattle.ir_known.specs.Knows.{marks_of, known_of};
ghost use Rattle.prog_check.specs.Deciding.{is_use, is_own};
ghost use Rattle.prog_check.specs.Checking.{option_over};
ghost use Rattle.ir_known.specs.of_ir_poly.TestsChecked.{value_type};
ghost use Rattle.ir_uses.specs.Uses.{ArgumentFits, IsInstance, UseFits, has_type};

use crate::allow::is_allowed;
use crate::exception::is_exception_value;
use crate::images::for_parameters;
use ir_known::ask::same_type;
use ir_known::image::{Rest, is_image};
use ir_known::ir_tables::tables::Tables;
use ir_known::known::Known;
use ir_known::stack::Stack;
use ir_known::walk::is_over;
use mlc_base::memory::NoMemory;
use std::alloc::Global;
use ty_core::mark::Mark;
use ty_core::scheme::Quantified;
use ty_table::types::Types;

/// Whether types are over the parameters in scope.
pub fn are_over(
    alloc: Global,
    types: &Types,
    scope: &Stack<Mark>,
    ts: &[usize],
) -> Result<bool, NoMemory>
    ensures { IfOk result (λ yes. IsTrue yes ↔ (all_over (marks_of scope.now) (typs_of (map (type_at types.now) ts.now)) ≡ true)) }
{
    for i in 0..ts.len() {
        let yes = is_over(alloc, types, scope, ts[i])?;
        if !yes {
            return Ok(false);
        }
    }
    Ok(true)
}

/// Whether a type that may be missing is over the parameters in scope.
pub fn is_option_over(
    alloc: Global,
    types: &Types,
    scope: &Stack<Mark>,
    argument: Option<usize>,
) -> Result<bool, NoMemory>
    ensures fits { IfOk result (λ yes. IsTrue yes ↔ ArgumentFits (marks_of scope.now) (option_map (type_at types.now) argument)) }
    ensures decided { IfOk result (λ yes. yes ≡ option_over (marks_of scope.now) (option_map (type_at types.now) argument)) }
{
    match argument {
        Some(t) => {
            let yes = is_over(alloc, types, scope, t)?;
            Ok(yes)
        }
        None => Ok(true),
    }
}

/// Whether types are such as the marks of as many parameters ask for.
fn allow_each(
    alloc: Global,
    types: &Types,
    scope: &Stack<Mark>,
    parameters: &[Quantified],
    ts: &[usize],
) -> Result<bool, NoMemory>
    requires { length parameters.now ≡ length ts.now }
    ensures { IfOk result (λ yes. IsTrue yes ↔ AreAllowed (admits_in (marks_of scope.now)) parameters.now (map (type_at types.now) ts.now)) }
{
    for i in 0..parameters.len() {
        let yes = is_allowed(alloc, types, scope, parameters[i].mark, ts[i])?;
        if !yes {
            return Ok(false);
        }
    }
    Ok(true)
}

/// Whether there are as many types as parameters, such as their marks ask for.
pub fn are_allowed(
    alloc: Global,
    types: &Types,
    scope: &Stack<Mark>,
    parameters: &[Quantified],
    ts: &[usize],
) -> Result<bool, NoMemory>
    ensures { IfOk result (λ yes. IsTrue yes ↔ AreAllowed (admits_in (marks_of scope.now)) parameters.now (map (type_at types.now) ts.now)) }
{
    if parameters.len() != ts.len() {
        return Ok(false);
    }
    allow_each(alloc, types, scope, parameters, ts)
}

/// Whether a type is another one with these types put for as many parameters.
fn is_changed(
    alloc: Global,
    types: &Types,
    parameters: &[Quantified],
    ts: &[usize],
    body: usize,
    t: usize,
) -> Result<bool, NoMemory>
    requires { length parameters.now ≡ length ts.now }
    ensures { IfOk result (λ yes. IsTrue yes ↔
        (type_at types.now t ≡ replace (changed parameters.now (map (type_at types.now) ts.now) var) (type_at types.now body))) }
{
    let images = for_parameters(alloc, parameters, ts)?;
    let yes = is_image(alloc, types, &images, Rest::Itself, body, t)?;
    Ok(yes)
}

/// Whether a type is an instance, at these types, of one that is generalised over parameters.
pub fn is_instance(
    alloc: Global,
    types: &Types,
    scope: &Stack<Mark>,
    parameters: &[Quantified],
    ts: &[usize],
    body: usize,
    t: usize,
) -> Result<bool, NoMemory>
    ensures { IfOk result (λ yes. IsTrue yes ↔ IsInstance (marks_of scope.now) parameters.now
        (type_at types.now body) (map (type_at types.now) ts.now) (type_at types.now t)) }
{
    if parameters.len() != ts.len() {
        return Ok(false);
    }
    let allowed = allow_each(alloc, types, scope, parameters, ts)?;
    if !allowed {
        return Ok(false);
    }
    let over = are_over(alloc, types, scope, ts)?;
    if !over {
        return Ok(false);
    }
    let yes = is_changed(alloc, types, parameters, ts, body, t)?;
    Ok(yes)
}

/// Whether a type is used at no types, as itself.
fn is_same_alone(types: &Types, u: usize, ts: &[usize], t: usize) -> bool
    ensures { IsTrue result ↔ ((map (type_at types.now) ts.now ≡ []) × (type_at types.now u ≡ type_at types.now t)) }
{
    if !ts.is_empty() {
        return false;
    }
    same_type(types, u, t)
}

/// Whether an exception is used at no types, as a value.
fn is_value_alone(types: &Types, argument: Option<usize>, ts: &[usize], t: usize) -> bool
    ensures { IsTrue result ↔ ((map (type_at types.now) ts.now ≡ []) × (type_at types.now t ≡ value_type (option_map (type_at types.now) argument))) }
{
    if !ts.is_empty() {
        return false;
    }
    is_exception_value(types, argument, t)
}

/// Whether what is known may be used so.
fn known_fits(
    alloc: Global,
    tables: &Tables,
    scope: &Stack<Mark>,
    known: Known,
    ts: &[usize],
    t: usize,
) -> Result<bool, NoMemory>
    ensures { IfOk result (λ yes. IsTrue yes ↔ UseFits (marks_of scope.now) (Some (known_of tables.now.types (parameters_of tables.now) known))
        (map (type_at tables.now.types) ts.now) (type_at tables.now.types t)) }
{
    match known {
        Known::OfType(u) => Ok(is_same_alone(&tables.types, u, ts, t)),
        Known::Own(u) => Ok(is_same_alone(&tables.types, u, ts, t)),
        Known::Exception(argument) => Ok(is_value_alone(&tables.types, argument, ts, t)),
        Known::General { parameters, ty } => {
            let all = tables.parameters(parameters);
            let yes = is_instance(alloc, &tables.types, scope, all, ts, ty, t)?;
            Ok(yes)
        }
    }
}

/// Whether a variable may be used so at these types, by what is known of it.
pub fn use_fits(
    alloc: Global,
    tables: &Tables,
    scope: &Stack<Mark>,
    known: Option<Known>,
    ts: &[usize],
    t: usize,
) -> Result<bool, NoMemory>
    ensures { IfOk result (λ yes. IsTrue yes ↔ UseFits (marks_of scope.now)
        (option_map (known_of tables.now.types (parameters_of tables.now)) known) (map (type_at tables.now.types) ts.now) (type_at tables.now.types t)) }
{
    match known {
        Some(found) => known_fits(alloc, tables, scope, found, ts, t),
        None => Ok(false),
    }
}

/// Whether a variable is of one type or generalised.
fn is_of_types(known: Option<Known>) -> bool
    ensures { (ts : List Typ) (ps : List (List Quantified)) → result ≡ has_type (option_map (known_of ts ps) known) }
{
    match known {
        Some(found) => match found {
            Known::OfType(_) => true,
            Known::General { .. } => true,
            Known::Own(_) => false,
            Known::Exception(_) => false,
        },
        None => false,
    }
}

/// Whether a variable that is no function of its own group may be used so at these types.
pub fn is_variable_use(
    alloc: Global,
    tables: &Tables,
    scope: &Stack<Mark>,
    known: Option<Known>,
    ts: &[usize],
    t: usize,
) -> Result<bool, NoMemory>
    ensures { IfOk result (λ yes. yes ≡ is_use (marks_of scope.now) (map (type_at tables.now.types) ts.now) (type_at tables.now.types t)
        (option_map (known_of tables.now.types (parameters_of tables.now)) known)) }
{
    if !is_of_types(known) {
        return Ok(false);
    }
    let yes = use_fits(alloc, tables, scope, known, ts, t)?;
    Ok(yes)
}

/// Whether a function inside its own group may be used so.
pub fn is_own_use(tables: &Tables, known: Option<Known>, t: usize) -> bool
    ensures { result ≡ is_own (type_at tables.now.types t) (option_map (known_of tables.now.types (parameters_of tables.now)) known) }
{
    match known {
        Some(found) => match found {
            Known::Own(u) => same_type(&tables.types, t, u),
            Known::OfType(_) => false,
            Known::General { .. } => false,
            Known::Exception(_) => false,
        },
        None => false,
    }
}
