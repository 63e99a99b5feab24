// Labels, scopes and searches come with ample memory.

use emit_code::choice::Target;
use emit_code::emit_rows::push::Packets;
use emit_code::fault::EmitFault;
use emit_code::places::Places;
use emit_parts::fault::WalkFault;
use emit_parts::pass::{Spot, bind_all, leave, pop_spot, push_spot, reserve, settle, spot_at};
use emit_parts::search::push_search;
use ir_code::instr::Instr;
use scoped_map::scoped::Scoped;
use std::alloc::Global;
use std::test::Fail;

/// A search for three tags: how many instructions.
fn search(alloc: Global) -> Result<usize, EmitFault> {
    let mut code: Vec<Instr> = Vec::new(alloc);
    let targets = [
        Target { tag: 1, place: 9 },
        Target { tag: 5, place: 8 },
        Target { tag: 9, place: 7 },
    ];
    push_search(&mut code, &targets, 4, 5, 3, true)?;
    Ok(code.len())
}

#[test]
fn a_search_comes(rt: HostRuntime) -> Result<(), Fail> {
    assert_eq!(rt; search(rt.alloc())?, 18);
    Ok(())
}

/// The depth of a variable that is bound again, after its scope was left.
fn rebound(alloc: Global) -> Result<(Option<u32>, u32), EmitFault> {
    let mut slots: Scoped<u32> = Scoped::new(alloc);
    let mut depth: u32 = 3;
    bind_all(&mut slots, &mut depth, &[7, 8])?;
    bind_all(&mut slots, &mut depth, &[7])?;
    leave(&mut slots, &mut depth, 1);
    Ok((slots.find(7), depth))
}

#[test]
fn scopes_are_left(rt: HostRuntime) -> Result<(), Fail> {
    let (found, depth) = rebound(rt.alloc())?;
    assert_eq!(rt; found, Some(3));
    assert_eq!(rt; depth, 5);
    Ok(())
}

/// The places of the innermost label and of the one around it, and of the latter when the former is left.
fn places(alloc: Global) -> Result<(u32, u32, u32), EmitFault> {
    let mut spots: Vec<Spot> = Vec::new(alloc);
    for place in 1..3 {
        push_spot(
            &mut spots,
            Spot {
                place,
                depth: 0,
                leaves: None,
            },
        )?;
    }
    let inner = spot_at(&spots, 0).place;
    let outer = spot_at(&spots, 1).place;
    pop_spot(&mut spots);
    Ok((inner, outer, spot_at(&spots, 0).place))
}

#[test]
fn labels_are_counted_from_the_innermost(rt: HostRuntime) -> Result<(), Fail> {
    let (inner, outer, left) = places(rt.alloc())?;
    assert_eq!(rt; inner, 2);
    assert_eq!(rt; outer, 1);
    assert_eq!(rt; left, 1);
    Ok(())
}

/// A label that comes where the code begins, and is said to be at a place.
fn settled(alloc: Global, place: u32) -> Result<(), WalkFault> {
    let mut labels = Vec::new(alloc);
    labels.push(place)?;
    let at = Places {
        texts: Vec::new(alloc),
        names: Vec::new(alloc),
        initial: 0,
        packets: Packets {
            overflow: 0,
            divide: 0,
            subscript: 0,
            size: 0,
            chr: 0,
        },
        funs: Vec::new(alloc),
        funs_end: 0,
        sets: Vec::new(alloc),
        sets_end: 0,
        types: Vec::new(alloc),
        types_end: 0,
        labels,
    };
    let code: Vec<Instr> = Vec::new(alloc);
    let mut found = Vec::new(alloc);
    let number = reserve(&mut found)?;
    settle(&code, &mut found, &at, true, number)
}

#[test]
fn labels_are_compared(rt: HostRuntime) -> Result<(), Fail> {
    assert_eq!(rt; settled(rt.alloc(), 0), Ok(()));
    assert_eq!(rt; settled(rt.alloc(), 1), Err(WalkFault::Unsettled));
    Ok(())
}
