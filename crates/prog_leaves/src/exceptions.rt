// Exceptions that are declared.
ghost use Rattle.std.specs.Prelude.{◌≡◌, IfOk};
ghost use Rattle.prog_leaves.specs.Right.{exception_right, exception_onto};
ghost use Rattle.prog_leaves.specs.Places.{Adds};

use ir_known::known::Known;
use ir_tables::tables::Tables;
use mlc_base::memory::NoMemory;
use prog_known::environment::Environment;
use prog_pats::ir_uses::using::is_option_over;
use std::alloc::Global;

/// Puts an exception in scope. Whether its argument's type is over the parameters in scope.
pub fn declare_exception(
    alloc: Global,
    tables: &Tables,
    environment: &mut Environment,
    variable: usize,
    argument: Option<usize>,
) -> Result<bool, NoMemory>
    ensures right { IfOk result (λ so. so ≡ exception_right tables.now environment.old argument) }
    ensures adds { IfOk result (λ _. Adds tables.now environment.old environment.new (exception_onto tables.now variable argument)) }
{
    let known = is_option_over(alloc, &tables.types, &environment.parameters, argument)?;
    environment
        .variables
        .bind(variable, Known::Exception(argument))?;
    Ok(known)
}
