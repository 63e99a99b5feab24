// The program's declarations, one behind the other.
ghost use Rattle.std.specs.Prelude.{◌≡◌, ◌++◌, ◌∷◌, [], IfOk};

use mlc_base::memory::NoMemory;
use prog_tree::tree::Dec;

/// One more.
pub fn add_dec(made: &mut Vec<Dec>, dec: Dec) -> Result<(), NoMemory>
    ensures { IfOk result (λ _. made.new.items ≡ made.old.items ++ dec ∷ []) }
{
    made.push(dec)?;
    Ok(())
}

/// Several more.
pub fn add_decs(made: &mut Vec<Dec>, mut decs: Vec<Dec>) -> Result<(), NoMemory>
    ensures { IfOk result (λ _. made.new.items ≡ made.old.items ++ decs.items) }
{
    made.append(&mut decs)?;
    Ok(())
}
