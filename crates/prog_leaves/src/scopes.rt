// Scopes that are gone into and left.
ghost use Rattle.std.specs.Prelude.{◌≡◌, ◌++◌, true, false, IfOk};
ghost use Rattle.ir_poly.specs.Types.{are_new};
ghost use Rattle.ir_tables.specs.Tables.{parameters_of, parameters_at};
ghost use Rattle.prog_known.specs.declared.environment.Environment.{Environment};
ghost use Rattle.prog_known.specs.Environments.{parameters_in};
ghost use Rattle.prog_leaves.specs.Places.{IsPlace, Extends};

use ir_known::params::declare_all;
use ir_tables::tables::Tables;
use mlc_base::memory::NoMemory;
use prog_known::environment::Environment;

/// How many parameters and variables are in scope.
#[derive(Clone, Copy)]
pub struct Place {
    pub parameters: usize,
    pub variables: usize,
}

/// Where to come back to.
pub fn mark_place(environment: &Environment) -> Place
    ensures { IsPlace result environment.now }
{
    Place {
        parameters: environment.parameters.len(),
        variables: environment.variables.len(),
    }
}

/// Comes back to what was in scope there.
pub fn leave(environment: &mut Environment, to: Place)
    ensures { (e : Environment) → IsPlace to e → Extends e environment.old → environment.new ≡ e }
{
    environment.parameters.truncate(to.parameters);
    environment.variables.truncate(to.variables);
}

/// Declares a list of parameters, where none is in scope and each is once. Whether they are so.
pub fn declare(
    tables: &Tables,
    environment: &mut Environment,
    parameters: usize,
) -> Result<bool, NoMemory>
    ensures new { IfOk result (λ new. new ≡ are_new (parameters_at (parameters_of tables.now) parameters) (parameters_in environment.old)) }
    ensures declared { IfOk result (λ new. new ≡ true
        → parameters_in environment.new ≡ parameters_at (parameters_of tables.now) parameters ++ parameters_in environment.old) }
    ensures extends { IfOk result (λ _. Extends environment.old environment.new) }
    ensures variables { environment.new.variables ≡ environment.old.variables }
    ensures kept { IfOk result (λ new. new ≡ false → environment.new ≡ environment.old) }
{
    let new = declare_all(&mut environment.parameters, tables.parameters(parameters))?;
    Ok(new)
}
