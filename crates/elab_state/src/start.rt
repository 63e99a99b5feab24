// The state before anything is elaborated.
ghost use Rattle.std.specs.Prelude.{◌≡◌, [], IfOk};
ghost use Rattle.prog_tree.specs.of_ir_tables.Tables.{initial_of, constructors_of, parameters_of, strings_of};
ghost use Rattle.elab_state.specs.States.{made, general_in};

use crate::state::State;
use mlc_base::memory::NoMemory;
use prog_tree::ir_tables::tables::Tables;
use std::alloc::Global;
use ty_instance::ty_solve::solver::Solver;

impl State {
    /// Nothing was made or written.
    pub fn new(alloc: Global) -> Result<State, NoMemory>
        ensures variables { IfOk result (λ s. made s ≡ 0) }
        ensures written { IfOk result (λ s. s.written.items ≡ []) }
        ensures namings { IfOk result (λ s. s.namings.items ≡ []) }
        ensures constructors { IfOk result (λ s. constructors_of s.tables ≡ []) }
        ensures general { IfOk result (λ s. general_in s ≡ []) }
        ensures next { IfOk result (λ s. s.next ≡ 0) }
        ensures level { IfOk result (λ s. s.level ≡ 0) }
        ensures flexible { IfOk result (λ s. s.flexible.items ≡ []) }
    {
        let solver = Solver::new(alloc)?;
        let tables = Tables::new(alloc)?;
        Ok(State {
            solver,
            written: Vec::new(alloc),
            namings: Vec::new(alloc),
            tables,
            next: 0,
            level: 0,
            flexible: Vec::new(alloc),
        })
    }
}
