// Code comes with ample memory.

use emit_code::cell::emit_cell;
use emit_code::choice::{Choice, Target, choose, push_table};
use emit_code::fault::EmitFault;
use emit_code::moves::move_all;
use ir_code::instr::Instr;
use scoped_map::scoped::Scoped;
use std::alloc::Global;
use std::test::Fail;

/// A swap, a cell and a table, one behind the other: how many instructions.
fn code(alloc: Global) -> Result<usize, EmitFault> {
    let mut code: Vec<Instr> = Vec::new(alloc);
    let slots: Scoped<u32> = Scoped::new(alloc);
    move_all(&mut code, 2, 0, &[1, 0])?;
    emit_cell(&mut code, &slots, 2, 7, &[])?;
    let targets = [Target { tag: 0, place: 9 }, Target { tag: 2, place: 8 }];
    push_table(alloc, &mut code, &targets, 4, 5, 3)?;
    Ok(code.len())
}

#[test]
fn code_comes(rt: HostRuntime) -> Result<(), Fail> {
    assert_eq!(rt; code(rt.alloc())?, 4 + 3 + 5);
    Ok(())
}

#[test]
fn choices_are_made(rt: HostRuntime) -> Result<(), Fail> {
    assert_eq!(rt; choose(&[2, 0])?, Choice::Table);
    assert_eq!(rt; choose(&[10, 20, 30, 40, 50])?, Choice::Search);
    assert_eq!(rt; choose(&[10, 20, 30])?, Choice::Tests);
    assert_eq!(rt; choose(&[50, 20, 30, 40, 10])?, Choice::Tests);
    Ok(())
}
