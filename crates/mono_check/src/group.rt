// Functions that know each other.
ghost use Rattle.std.specs.Prelude.{◌≡◌, true, IfOk};
ghost use Rattle.mono_operations.specs.declared.tables.Tables.{Tables};
ghost use Rattle.mono_check.specs.Walk.{functions_new, gathered};

use crate::opening::bring;
use ir_known::known::Known;
use ir_known::scope::Scope;
use mlc_base::memory::NoMemory;
use plain_tree::tree::Function;

/// Binds a group's functions, the last one first, where each is new.
pub fn bind_functions(scope: &mut Scope, functions: &[Function]) -> Result<bool, NoMemory>
    ensures new { (t : Tables) → IfOk result (λ yes. yes ≡ functions_new t scope.old functions.now) }
    ensures bound { IfOk result (λ yes. yes ≡ true → scope.new ≡ gathered functions.now scope.old) }
{
    let mut left = functions.len();
    while left > 0 {
        left -= 1;
        let function = &functions[left];
        let new = bring(scope, function.variable, Known::OfType(function.ty))?;
        if !new {
            return Ok(false);
        }
    }
    Ok(true)
}
