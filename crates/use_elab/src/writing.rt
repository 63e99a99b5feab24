// Types written one after the other.
ghost use Rattle.std.specs.Prelude.{◌≡◌, map, length, IfOk};
ghost use Rattle.elab_context.specs.of_elab_typed.Numbers.{type_as};
ghost use Rattle.elab_context.specs.of_elab_state.Namings.{IsAmong};
ghost use Rattle.elab_context.specs.of_elab_steps.Growing.{Always, AreTypes, Grows};
ghost use Rattle.use_elab.specs.Fresh.{images_of};

use elab_context::elab_state::state::State;
use elab_context::elab_steps::step::write;
use mlc_base::memory::NoMemory;
use std::alloc::Global;

/// The numbers under which the tree writes types, where a naming is in force.
pub fn write_all(
    alloc: Global,
    state: &mut State,
    types: &[usize],
    naming: Option<usize>,
) -> Result<Vec<usize>, NoMemory>
    requires types { AreTypes state.old types.now }
    requires among { IsAmong (length state.old.namings.items) naming }
    ensures grows { IfOk result (λ _. Grows state.old state.new) }
    ensures are { IfOk result (λ ks. Always state.new (λ W. map W.reading.type ks.items ≡ map (type_as (W.naming naming)) (images_of W types.now))) }
    ensures next { IfOk result (λ _. state.new.next ≡ state.old.next) }
{
    let mut written = Vec::new(alloc);
    for i in 0..types.len() {
        let number = write(state, types[i], naming)?;
        written.push(number)?;
    }
    Ok(written)
}
