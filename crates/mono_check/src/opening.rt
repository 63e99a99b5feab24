// What bindings and functions bring into scope.
ghost use Rattle.std.specs.Prelude.{◌≡◌, ◌&&◌, ℕ, Some, true, IfOk};
ghost use Rattle.ir_known.specs.declared.known.Known.TheVariants as variant;
ghost use Rattle.mono_fits.specs.Fits.{is_new, name_argument};
ghost use Rattle.mono_fits.specs.Asked.{given};
ghost use Rattle.plain_tree.specs.TreeOf.{exception_of};
ghost use Rattle.mono_operations.specs.declared.tables.Tables.{Tables};
ghost use Rattle.mono_operations.specs.Reads.{reading, all};
ghost use Rattle.mono_check.specs.Walk.{holding, taken, Enters};

use ir_known::known::Known;
use ir_known::scope::Scope;
use mlc_base::memory::NoMemory;
use mono_operations::atom::name_argument;
use mono_operations::mono_uses::ask::result_from;
use mono_operations::tables::Tables;
use plain_tree::tree::{Binding, Exception, Parameter};

/// Binds a variable, if it is new.
pub fn bring(scope: &mut Scope, variable: usize, known: Known) -> Result<bool, NoMemory>
    ensures new { IfOk result (λ new. new ≡ is_new (all scope.old) variable) }
    ensures bound { IfOk result (λ new. new ≡ true → scope.new ≡ holding scope.old variable known) }
{
    let new = scope.bind(variable, known)?;
    Ok(new)
}

/// Binds the variable of a binding whose operation fits, if it is new.
pub fn declare(scope: &mut Scope, fits: bool, binding: Binding) -> Result<bool, NoMemory>
    ensures new { IfOk result (λ yes. yes ≡ (fits && is_new (all scope.old) binding.variable)) }
    ensures bound { IfOk result (λ yes. yes ≡ true → scope.new ≡ holding scope.old binding.variable (variant.OfType binding.ty)) }
{
    if !fits {
        return Ok(false);
    }
    let new = bring(scope, binding.variable, Known::OfType(binding.ty))?;
    Ok(new)
}

/// Binds an exception's name, if it is new and there is such an exception.
pub fn bring_name(scope: &mut Scope, variable: usize, named: Exception) -> Result<bool, NoMemory>
    ensures new { (t : Tables) → IfOk result (λ yes. yes
        ≡ given (name_argument t.types t.exn (all scope.old) (exception_of (reading t) named)) (λ a. is_new (all scope.old) variable)) }
    ensures bound { (t : Tables) (a : _) → name_argument t.types t.exn (all scope.old) (exception_of (reading t) named) ≡ Some a
        → IfOk result (λ yes. yes ≡ true → scope.new ≡ holding scope.old variable (variant.Exception a)) }
{
    match name_argument(scope, named) {
        Some(argument) => {
            let new = bring(scope, variable, Known::Exception(argument))?;
            Ok(new)
        }
        None => Ok(false),
    }
}

/// Binds a parameter of a function of this type, and gives the type of what the function gives.
fn enter_parameter(
    tables: &Tables,
    scope: &mut Scope,
    parameter: Parameter,
    ty: usize,
) -> Result<Option<usize>, NoMemory>
    ensures found { IfOk result (λ found. found ≡ taken tables.now scope.old parameter ty) }
    ensures bound { IfOk result (λ found. (v : ℕ) → found ≡ Some v
        → scope.new ≡ holding scope.old parameter.variable (variant.OfType parameter.ty)) }
{
    let new = bring(scope, parameter.variable, Known::OfType(parameter.ty))?;
    if !new {
        return Ok(None);
    }
    Ok(result_from(&tables.types, ty, parameter.ty))
}

/// Goes into a function of this type, and gives the type of its body.
pub fn enter_function(
    tables: &Tables,
    scope: &mut Scope,
    parameters: &[Parameter],
    last: Parameter,
    ty: usize,
) -> Result<Option<usize>, NoMemory>
    ensures { IfOk result (λ found. Enters tables.now scope.old scope.new parameters.now last ty found) }
{
    let mut rest = ty;
    for i in 0..parameters.len() {
        let parameter = parameters[i];
        let found = enter_parameter(tables, scope, parameter, rest)?;
        match found {
            Some(given) => rest = given,
            None => return Ok(None),
        }
    }
    scope.enter();
    let body = enter_parameter(tables, scope, last, rest)?;
    Ok(body)
}
