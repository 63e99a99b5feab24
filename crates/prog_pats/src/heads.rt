// What stands before an argument.
ghost use Rattle.std.specs.Prelude.{◌≡◌, IfOk};
ghost use Rattle.ty_table.specs.TypeAt.{type_at};
ghost use Rattle.ir_poly.specs.Types.{ref_type};
ghost use Rattle.prog_check.specs.Same.{same_type};
ghost use Rattle.prog_pats.specs.Fits.{exception_fits, head_fits, joint_fits};

use crate::exceptions::{is_packet, takes};
use crate::records::{is_known, is_pair};
use ir_known::ask::is_reference;
use ir_tables::tables::Tables;
use mlc_base::memory::NoMemory;
use prog_known::answers::both;
use prog_known::environment::Environment;
use prog_tree::tree::{Exception, Head, Pair};
use record_order::ir_uses::constructor::has_constructor;
use std::alloc::Global;
use ty_table::types::Types;

/// Whether a type is that of references to another.
fn is_cell(types: &Types, ty: usize, held: usize) -> bool
    ensures { result ≡ same_type (type_at types.now ty) (ref_type (type_at types.now held)) }
{
    is_reference(types, ty, held)
}

/// Whether an exception with an argument of this type may be matched with a value of the other.
fn check_packet(
    tables: &Tables,
    environment: &Environment,
    exception: Exception,
    argument: usize,
    ty: usize,
) -> bool
    ensures { result ≡ head_fits tables.now environment.now (Head.Exception exception) argument ty }
{
    let known = takes(tables, &environment.variables, exception, Some(argument));
    let packet = is_packet(&tables.types, ty);
    both(known, packet)
}

/// Whether an exception alone may be matched with a value of the type.
pub fn check_exception(
    tables: &Tables,
    environment: &Environment,
    exception: Exception,
    ty: usize,
) -> bool
    ensures { result ≡ exception_fits tables.now environment.now exception ty }
{
    let alone = takes(tables, &environment.variables, exception, None);
    let packet = is_packet(&tables.types, ty);
    both(alone, packet)
}

/// Whether what stands before an argument of a type may be matched with a value of the other.
pub fn check_head(
    alloc: Global,
    tables: &Tables,
    environment: &Environment,
    head: Head,
    argument: usize,
    ty: usize,
) -> Result<bool, NoMemory>
    ensures { IfOk result (λ so. so ≡ head_fits tables.now environment.now head argument ty) }
{
    match head {
        Head::Constructor(constructor) => {
            let so = has_constructor(alloc, tables, constructor, ty, Some(argument))?;
            Ok(so)
        }
        Head::Reference => Ok(is_cell(&tables.types, ty, argument)),
        Head::Exception(exception) => {
            Ok(check_packet(tables, environment, exception, argument, ty))
        }
    }
}

/// Whether a constructor may stand between operands of these types, where the chain is matched with a value of this type.
pub fn check_joint(
    alloc: Global,
    tables: &Tables,
    environment: &Environment,
    head: Head,
    pair: Pair,
    ty: usize,
) -> Result<bool, NoMemory>
    ensures { IfOk result (λ so. so ≡ joint_fits tables.now environment.now head pair ty) }
{
    let fits = check_head(alloc, tables, environment, head, pair.ty, ty)?;
    let known = is_known(alloc, tables, environment, pair.ty)?;
    let two = is_pair(alloc, tables, environment, pair)?;
    Ok(both(fits, both(known, two)))
}
