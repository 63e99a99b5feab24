// The program of declarations that were elaborated.
ghost use Rattle.std.specs.Prelude.{◌++◌, ℕ, List, IfOk};
ghost use Rattle.sml_tree.specs.BareTree as bare;
ghost use Rattle.sml_tree.specs.TreeOf as source;
ghost use Rattle.ir_poly.specs.Types.{initial_constructors};
ghost use Rattle.ir_tables.specs.Tables.{constructors_of};
ghost use Rattle.final_types.specs.of_ir_prog.Programs.{body_in};
ghost use Rattle.elab_typed.specs.Laws.{IsProgramOf};
ghost use Rattle.elab_state.specs.declared.state.State.{State};
ghost use Rattle.elab_context.specs.declared.context.Context.{Context};
ghost use Rattle.basis_context.specs.Telling.{TellsBasis};
ghost use Rattle.dec_forms.specs.Decs.{IsDecs};
ghost use Rattle.elab_steps.specs.Tidy.{AreConstructors};
ghost use Rattle.elab_worlds.specs.Final.{IsLast, IsOrdered};
ghost use Rattle.final_types.specs.Programs.{IsProgramWith};

use elab_state::state::State;
use final_types::ir_prog::program::Program;
use final_types::program::program_of;
use mlc_base::memory::NoMemory;
use prog_tree::tree::Dec;
use std::alloc::Global;

/// The program of the last state and the tree of declarations that were elaborated: it is well typed, and does what they do.
pub fn elaborated_program(alloc: Global, state: State, body: &[Dec]) -> Result<Program, NoMemory>
    ensures is { IfOk result (IsProgramWith state body.now) }
    ensures right { IfOk result (λ p. (S : State) (C D : Context) (ds : List bare.Dec) (l : ℕ) → TellsBasis S C → IsDecs S C ds state D body.now
        → IsLast state l → AreConstructors state → IsOrdered state
        → IsProgramOf (initial_constructors ++ constructors_of p.tables) (source.decs_of ds) (body_in p)) }
{
    program_of(alloc, state, body)
}
