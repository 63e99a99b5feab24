// The program of declarations that were elaborated.
ghost use Rattle.std.specs.Prelude.{IfOk};
ghost use Rattle.final_types.specs.Programs.{IsProgramWith};

use crate::finish::{Finished, finish};
use elab_state::state::State;
use ir_prog::program::Program;
use mlc_base::memory::NoMemory;
use prog_renumber::body::renumber;
use prog_tree::tree::Dec;
use std::alloc::Global;

/// The program of a last state and a tree: the tables at the end, and the tree with their numbers for its types.
pub fn program_of(alloc: Global, state: State, body: &[Dec]) -> Result<Program, NoMemory>
    ensures { IfOk result (IsProgramWith state body.now) }
{
    let Finished {
        tables,
        numbers,
        exn,
    } = finish(alloc, state)?;
    match renumber(alloc, &numbers, body) {
        Ok(body) => Ok(Program { tables, exn, body }),
        Err(e) => Err(e),
    }
}
