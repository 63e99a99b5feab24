// The routine comes with ample memory.

use emit_code::fault::EmitFault;
use emit_code::plain::put_two;
use emit_equality::equality::{push_equality, type_places};
use first_tables::tables::Shape;
use ir_code::instr::Instr;
use std::alloc::Global;
use std::test::Fail;

/// For integers and their lists: the places of both, the place behind, and how many instructions there are, with two before.
fn routine(alloc: Global) -> Result<(u32, u32, u32, usize), EmitFault> {
    let parts = vec![in alloc; 0, 1]?;
    let tags = vec![in alloc; Vec::new(alloc), parts]?;
    let shapes = vec![in alloc; Shape::Numbers, Shape::Cells(tags)]?;
    let (places, end) = type_places(alloc, &shapes)?;
    let mut code: Vec<Instr> = Vec::new(alloc);
    put_two(&mut code, Instr::End, Instr::End)?;
    push_equality(&mut code, &shapes, &places, end)?;
    Ok((place_at(&places, 0), place_at(&places, 1), end, code.len()))
}

/// The place of a type, 0 where there is none.
fn place_at(places: &[u32], ty: usize) -> u32 {
    if ty < places.len() { places[ty] } else { 0 }
}

// A head of 8, 3 for integers; a list has 6, a jump a tag, 1 for nil, and 4, 3 and 1 for cons.
#[test]
fn the_routine_comes(rt: HostRuntime) -> Result<(), Fail> {
    assert_eq!(rt; routine(rt.alloc())?, (10, 13, 30, 30));
    Ok(())
}
