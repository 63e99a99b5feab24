// Parameters, and the patterns of bindings.
ghost use Rattle.std.specs.Prelude.{◌≡◌, [], IfOk};
ghost use Rattle.prog_pats.specs.of_record_order.Order.{AreOrders};
ghost use Rattle.prog_known.specs.Lists.{run, all_hold};
ghost use Rattle.prog_pats.specs.of_prog_parts.Expressions.{parameter_onto};
ghost use Rattle.prog_leaves.specs.Right.{is_known, has_known, parameter_right, bound_right, plain_right, general_right};
ghost use Rattle.prog_leaves.specs.Places.{Adds};

use ir_tables::tables::Tables;
use mlc_base::memory::NoMemory;
use prog_known::answers::both;
use prog_known::environment::Environment;
use prog_known::manner::Manner;
use prog_pats::pats::check_pat;
use prog_pats::prog_binds::one::bind_one;
use prog_pats::record_order::orders::Orders;
use prog_pats::records::is_known as is_in_scope;
use prog_shapes::types::type_of;
use prog_tree::tree::{Binding, Exp, Parameter, Rule};
use prog_values::values::is_value;
use std::alloc::Global;

/// Whether a type is over the parameters in scope.
pub fn is_known(
    alloc: Global,
    tables: &Tables,
    environment: &Environment,
    ty: usize,
) -> Result<bool, NoMemory>
    ensures { IfOk result (λ so. so ≡ is_known tables.now environment.now ty) }
{
    let known = is_in_scope(alloc, tables, environment, ty)?;
    Ok(known)
}

/// Whether the type that an expression has written is over the parameters in scope.
pub fn has_known(
    alloc: Global,
    tables: &Tables,
    environment: &Environment,
    exp: &Exp,
) -> Result<bool, NoMemory>
    ensures { IfOk result (λ so. so ≡ has_known tables.now environment.now exp.now) }
{
    let known = is_in_scope(alloc, tables, environment, type_of(exp))?;
    Ok(known)
}

/// A parameter, which is put in scope. Whether its type is over the parameters of types in scope.
pub fn check_parameter(
    alloc: Global,
    tables: &Tables,
    environment: &mut Environment,
    parameter: Parameter,
) -> Result<bool, NoMemory>
    ensures right { IfOk result (λ so. so ≡ parameter_right tables.now environment.old parameter) }
    ensures adds { IfOk result (λ _. Adds tables.now environment.old environment.new (parameter_onto tables.now parameter [])) }
{
    let known = is_known(alloc, tables, environment, parameter.ty)?;
    bind_one(
        tables,
        &mut environment.variables,
        Manner::Plain,
        parameter.variable,
        parameter.ty,
    )?;
    Ok(known)
}

/// Parameters, which are put in scope.
pub fn check_parameters(
    alloc: Global,
    tables: &Tables,
    environment: &mut Environment,
    parameters: &[Parameter],
) -> Result<bool, NoMemory>
    ensures right { IfOk result (λ so. so ≡ all_hold (parameter_right tables.now environment.old) parameters.now) }
    ensures adds { IfOk result (λ _. Adds tables.now environment.old environment.new (run (parameter_onto tables.now) parameters.now)) }
{
    let mut so_far = true;
    for i in 0..parameters.len() {
        let parameter = parameters[i];
        let one = check_parameter(alloc, tables, environment, parameter)?;
        so_far = both(so_far, one);
    }
    Ok(so_far)
}

/// The pattern of a binding and its type.
fn check_bound(
    alloc: Global,
    tables: &Tables,
    orders: &Orders,
    environment: &Environment,
    bind: &(Binding, Rule),
) -> Result<bool, NoMemory>
    requires { AreOrders tables.now.types orders.now }
    ensures { IfOk result (λ so. so ≡ bound_right tables.now environment.now bind.now) }
{
    let binding = bind.0;
    let known = is_known(alloc, tables, environment, binding.ty)?;
    let right = check_pat(alloc, tables, orders, environment, &bind.1.pat, binding.ty)?;
    Ok(both(known, right))
}

/// What is asked of a binding before its parameters are in scope.
fn check_plain(
    alloc: Global,
    tables: &Tables,
    orders: &Orders,
    environment: &Environment,
    bind: &(Binding, Rule),
) -> Result<bool, NoMemory>
    requires { AreOrders tables.now.types orders.now }
    ensures { IfOk result (λ so. so ≡ plain_right tables.now environment.now bind.now) }
{
    if bind.0.general {
        return Ok(true);
    }
    let bound = check_bound(alloc, tables, orders, environment, bind)?;
    Ok(bound)
}

/// What is asked of bindings before their parameters are in scope.
pub fn check_plains(
    alloc: Global,
    tables: &Tables,
    orders: &Orders,
    environment: &Environment,
    binds: &[(Binding, Rule)],
) -> Result<bool, NoMemory>
    requires { AreOrders tables.now.types orders.now }
    ensures { IfOk result (λ so. so ≡ all_hold (plain_right tables.now environment.now) binds.now) }
{
    let mut so_far = true;
    for i in 0..binds.len() {
        let bind = &binds[i];
        let one = check_plain(alloc, tables, orders, environment, bind)?;
        so_far = both(so_far, one);
    }
    Ok(so_far)
}

/// What makes a binding one that can be generalised, where it is.
pub fn check_general(
    alloc: Global,
    tables: &Tables,
    orders: &Orders,
    environment: &Environment,
    bind: &(Binding, Rule),
) -> Result<bool, NoMemory>
    requires { AreOrders tables.now.types orders.now }
    ensures { IfOk result (λ so. so ≡ general_right tables.now environment.now bind.now) }
{
    if !bind.0.general {
        return Ok(true);
    }
    let value = is_value(&bind.1.exp);
    let bound = check_bound(alloc, tables, orders, environment, bind)?;
    Ok(both(value, bound))
}
