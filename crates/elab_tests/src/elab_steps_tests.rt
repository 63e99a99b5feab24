// Steps of one state, with ample memory.

use elab_steps::elab_state::state::State;
use elab_steps::step::{apply, fresh_type, next_variable, text, unify, write};
use elab_types::refused::Refused;
use elab_types::ty_solve::limit::Limit;
use mlc_base::place::Place;
use std::alloc::Global;
use std::test::Fail;
use ty_core::mark::Mark;
use ty_core::name::TyName;
use ty_core::ty::Head;

const OUTSIDE: Limit = Limit { names: 8, level: 0 };

const START: Place = Place { file: 0, byte: 0 };

/// The numbers that the first text, variable, written type and naming get.
fn numbers(alloc: Global, state: &mut State) -> Result<[usize; 4], Refused> {
    let naming = state.name(8, 8, None)?;
    let ty = fresh_type(alloc, state, Mark::Any, OUTSIDE)?;
    unify(alloc, state, START, ty, ty)?;
    let int = apply(alloc, state, Head::Named(TyName::INT), &[])?;
    let written = write(state, int, None)?;
    let first = text(alloc, state, b"a")?;
    let variable = next_variable(state)?;
    Ok([first, variable, written, naming])
}

#[test]
fn each_begins_at_0(rt: HostRuntime) -> Result<(), Fail> {
    let mut state = State::new(rt.alloc())?;
    let numbers = numbers(rt.alloc(), &mut state);
    assert_eq!(rt; numbers, Ok([0, 0, 0, 0]));
    Ok(())
}
