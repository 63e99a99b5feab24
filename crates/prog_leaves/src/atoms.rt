// Expressions without parts.
ghost use Rattle.std.specs.Prelude.{◌≡◌, IfOk};
ghost use Rattle.ty_table.specs.TypeAt.{type_at};
ghost use Rattle.ir_poly.specs.Types.{function_type, ref_type};
ghost use Rattle.prog_check.specs.Same.{same_type};
ghost use Rattle.prog_leaves.specs.Right.{atom_right, use_right};

use ir_known::ask::{is_reference, result_from};
use ir_tables::tables::Tables;
use mlc_base::memory::NoMemory;
use prog_known::answers::both;
use prog_known::environment::Environment;
use prog_pats::exceptions::argument_of;
use prog_pats::ir_uses::constructor::is_constructor_use;
use prog_pats::ir_uses::exception::is_exception_value;
use prog_pats::ir_uses::literal::has_literal;
use prog_pats::ir_uses::primitive::is_primitive_use;
use prog_pats::ir_uses::using::{is_own_use, is_variable_use};
use prog_pats::records::is_known;
use prog_tree::tree::{Atom, Exception, Used};
use std::alloc::Global;
use ty_table::types::Types;

/// Whether a type is that of functions that make references.
fn is_maker(types: &Types, ty: usize, held: usize) -> bool
    ensures { result ≡ same_type (type_at types.now ty) (function_type (type_at types.now held) (ref_type (type_at types.now held))) }
{
    match result_from(types, ty, held) {
        Some(made) => is_reference(types, made, held),
        None => false,
    }
}

/// Whether an exception has this type as a value.
fn is_exception(tables: &Tables, environment: &Environment, exception: Exception, ty: usize) -> bool
    ensures { result ≡ atom_right tables.now environment.now (Atom.Exception exception) ty }
{
    match argument_of(&environment.variables, exception) {
        Some(argument) => is_exception_value(&tables.types, argument, ty),
        None => false,
    }
}

/// Whether a function inside its own group has this type.
fn is_own(tables: &Tables, environment: &Environment, variable: usize, ty: usize) -> bool
    ensures { result ≡ atom_right tables.now environment.now (Atom.Own variable) ty }
{
    is_own_use(tables, environment.variables.find(variable), ty)
}

/// Whether `ref` has this type, where it makes references to another.
fn check_reference(
    alloc: Global,
    tables: &Tables,
    environment: &Environment,
    held: usize,
    ty: usize,
) -> Result<bool, NoMemory>
    ensures { IfOk result (λ so. so ≡ atom_right tables.now environment.now (Atom.Reference held) ty) }
{
    let known = is_known(alloc, tables, environment, held)?;
    let maker = is_maker(&tables.types, ty, held);
    Ok(both(known, maker))
}

/// Whether an atom has this type.
pub fn check_atom(
    alloc: Global,
    tables: &Tables,
    environment: &Environment,
    atom: Atom,
    ty: usize,
) -> Result<bool, NoMemory>
    ensures { IfOk result (λ so. so ≡ atom_right tables.now environment.now atom ty) }
{
    match atom {
        Atom::Constant(constant) => Ok(has_literal(&tables.types, constant, ty)),
        Atom::Own(variable) => Ok(is_own(tables, environment, variable, ty)),
        Atom::Exception(exception) => Ok(is_exception(tables, environment, exception, ty)),
        Atom::Reference(held) => check_reference(alloc, tables, environment, held, ty),
    }
}

/// Whether a variable at types has this type.
fn check_variable(
    alloc: Global,
    tables: &Tables,
    environment: &Environment,
    variable: usize,
    ts: &[usize],
    ty: usize,
) -> Result<bool, NoMemory>
    ensures { IfOk result (λ so. so ≡ use_right tables.now environment.now (Used.Variable variable) ts.now ty) }
{
    let known = environment.variables.find(variable);
    let so = is_variable_use(alloc, tables, &environment.parameters, known, ts, ty)?;
    Ok(so)
}

/// Whether a use at types has this type.
pub fn check_use(
    alloc: Global,
    tables: &Tables,
    environment: &Environment,
    used: Used,
    ts: &[usize],
    ty: usize,
) -> Result<bool, NoMemory>
    ensures { IfOk result (λ so. so ≡ use_right tables.now environment.now used ts.now ty) }
{
    let scope = &environment.parameters;
    match used {
        Used::Variable(variable) => check_variable(alloc, tables, environment, variable, ts, ty),
        Used::Constructor(constructor, datatype) => {
            is_constructor_use(alloc, tables, scope, constructor, datatype, ts, ty)
        }
        Used::Primitive(primitive) => {
            is_primitive_use(alloc, &tables.types, scope, primitive, ts, ty)
        }
    }
}
