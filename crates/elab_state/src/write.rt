// Types that the tree writes, and namings.
ghost use Rattle.std.specs.Prelude.{◌≡◌, ◌<◌, ◌≤◌, ◌+◌, ℕ, length, Some, IfOk, OnErr};
ghost use Rattle.ty_core.specs.Types.{Typ};
ghost use Rattle.ty_basis.specs.Types.{name_count};
ghost use Rattle.elab_typed.specs.Numbers.{type_as, AgreeBelow, KeepsInitial};
ghost use Rattle.elab_state.specs.Namings.{ComesBefore, IsAmong};
ghost use Rattle.elab_state.specs.States.{types_in, numbers_in, reading_in, value_in};
ghost use Rattle.elab_state.specs.Steps.{Extends, Grows};
ghost use Rattle.elab_state.specs.declared.state.State.{State};

use crate::naming::{Naming, Written};
use crate::state::State;
use mlc_base::memory::NoMemory;

impl State {
    /// The number in the tree of a type of the solver, where a naming is in force.
    pub fn write(&mut self, ty: usize, naming: Option<usize>) -> Result<usize, NoMemory>
        requires held { ty < length (types_in self.old) }
        requires among { IsAmong (length self.old.namings.items) naming }
        ensures extends { IfOk result (λ _. (l : ℕ) → Extends l self.old self.new) }
        ensures reads { IfOk result (λ k. (later : State) → Grows self.new later → (g : ℕ → Typ)
            → (reading_in later g).type k ≡ type_as (numbers_in later naming) (value_in later g ty)) }
        ensures unchanged { OnErr result (self.new.written.items ≡ self.old.written.items) }
    {
        let number = self.written.len();
        self.written.push(Written { ty, naming })?;
        Ok(number)
    }

    /// The naming in which a name has this number, and others have what they had before.
    pub fn name(
        &mut self,
        stamp: u32,
        number: u32,
        before: Option<usize>,
    ) -> Result<usize, NoMemory>
        requires beyond { name_count ≤ stamp }
        requires later { ComesBefore self.old.namings.items before stamp }
        ensures extends { IfOk result (λ _. (l : ℕ) → Extends l self.old self.new) }
        ensures among { IfOk result (λ k. k < length self.new.namings.items) }
        ensures last { IfOk result (λ k. ComesBefore self.new.namings.items (Some k) (stamp + 1)) }
        ensures named { IfOk result (λ k. numbers_in self.new (Some k) stamp ≡ number) }
        ensures agrees { IfOk result (λ k. AgreeBelow stamp (numbers_in self.old before) (numbers_in self.new (Some k))) }
        ensures keeps { IfOk result (λ k. KeepsInitial (numbers_in self.new (Some k))) }
        ensures unchanged { OnErr result (self.new.namings.items ≡ self.old.namings.items) }
    {
        let naming = self.namings.len();
        self.namings.push(Naming {
            stamp,
            number,
            before,
        })?;
        Ok(naming)
    }
}
