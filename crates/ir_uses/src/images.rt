// Types put for variables, by number.
ghost use Rattle.std.specs.Prelude.{◌≡◌, ℕ, IfOk, length, nat_eq, slice_get};
ghost use Rattle.std.specs.Map.{lookup};
ghost use Rattle.ir_uses.specs.Puts.{put_for};

use ir_known::stack::Stack;
use mlc_base::memory::NoMemory;
use std::alloc::Global;
use ty_core::scheme::Quantified;

/// Types put for the variables 0, 1, ..
pub fn in_order(alloc: Global, types: &[usize]) -> Result<Stack<usize>, NoMemory>
    ensures { IfOk result (λ images. (v : ℕ) → lookup (nat_eq v) images ≡ slice_get types.now v) }
{
    let mut images = Stack::new(alloc);
    for i in 0..types.len() {
        let _ = images.push(i, types[i])?;
    }
    Ok(images)
}

/// Types put for as many parameters.
pub fn for_parameters(
    alloc: Global,
    parameters: &[Quantified],
    types: &[usize],
) -> Result<Stack<usize>, NoMemory>
    requires { length parameters.now ≡ length types.now }
    ensures { IfOk result (λ images. (v : ℕ) → lookup (nat_eq v) images ≡ put_for parameters.now types.now v) }
{
    let mut images = Stack::new(alloc);
    for i in 0..parameters.len() {
        let _ = images.push(parameters[i].variable, types[i])?;
    }
    Ok(images)
}
