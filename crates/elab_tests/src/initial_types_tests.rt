// How many types the basis has, with ample memory.

use initial_types::schemes::{hidden_schemes, initial_schemes, integer_schemes};
use mlc_base::memory::NoMemory;
use std::alloc::Global;
use std::test::Fail;
use ty_table::types::Types;

/// How many values the basis has.
fn initial_count(alloc: Global) -> Result<usize, NoMemory> {
    let mut types = Types::new(alloc)?;
    let made = initial_schemes(alloc, &mut types)?;
    Ok(made.len())
}

/// How many members `Prim` has.
fn hidden_count(alloc: Global) -> Result<usize, NoMemory> {
    let mut types = Types::new(alloc)?;
    let made = hidden_schemes(alloc, &mut types)?;
    Ok(made.len())
}

/// How many members `Int` has.
fn integer_count(alloc: Global) -> Result<usize, NoMemory> {
    let mut types = Types::new(alloc)?;
    let made = integer_schemes(alloc, &mut types)?;
    Ok(made.len())
}

#[test]
fn values_have_their_types(rt: HostRuntime) -> Result<(), Fail> {
    let count = initial_count(rt.alloc())?;
    assert_eq!(rt; count, 25);
    Ok(())
}

#[test]
fn structures_have_their_types(rt: HostRuntime) -> Result<(), Fail> {
    let hidden = hidden_count(rt.alloc())?;
    assert_eq!(rt; hidden, 21);
    let integers = integer_count(rt.alloc())?;
    assert_eq!(rt; integers, 3);
    Ok(())
}
