// The rows of primitives are as long as is said.

use emit_rows::push::{Packets, Spot, push_row, push_test};
use emit_rows::sizes::{row_size, test_size};
use first_tables::operation::Operands;
use ir_code::instr::Instr;
use mlc_base::memory::NoMemory;
use mlc_prims::basis::BasisPrimitive;
use std::alloc::Global;
use std::test::Fail;

const PACKETS: Packets = Packets {
    overflow: 20,
    divide: 22,
    subscript: 24,
    size: 26,
    chr: 28,
};

const SPOT: Spot = Spot {
    place: 100,
    slot: 9,
    other: 200,
};

fn row(alloc: Global, operands: Operands, primitive: BasisPrimitive) -> Result<u32, NoMemory> {
    let mut code: Vec<Instr> = Vec::new(alloc);
    push_row(&mut code, PACKETS, SPOT, operands, primitive, &[2, 3, 4])?;
    Ok(code.len() as u32)
}

fn test(alloc: Global, operands: Operands, primitive: BasisPrimitive) -> Result<u32, NoMemory> {
    let mut code: Vec<Instr> = Vec::new(alloc);
    push_test(&mut code, SPOT, operands, primitive, &[2, 3, 4])?;
    Ok(code.len() as u32)
}

#[test]
fn code_comes_with_ample_memory(rt: HostRuntime) -> Result<(), Fail> {
    for primitive in [
        BasisPrimitive::Add,
        BasisPrimitive::Divide,
        BasisPrimitive::Negate,
        BasisPrimitive::Absolute,
        BasisPrimitive::LessEqual,
        BasisPrimitive::CharOf,
        BasisPrimitive::TextOf,
        BasisPrimitive::Concat,
    ] {
        assert_eq!(rt;
            row(rt.alloc(), Operands::Ints, primitive)?,
            row_size(Operands::Ints, primitive)
        );
    }
    for primitive in [
        BasisPrimitive::Less,
        BasisPrimitive::SizeOf,
        BasisPrimitive::CharAt,
        BasisPrimitive::PartOf,
        BasisPrimitive::Concat,
    ] {
        assert_eq!(rt;
            row(rt.alloc(), Operands::Texts, primitive)?,
            row_size(Operands::Texts, primitive)
        );
    }
    assert_eq!(rt;
        row(rt.alloc(), Operands::Chars, BasisPrimitive::StringOf)?,
        4
    );
    assert_eq!(rt;
        row(rt.alloc(), Operands::Words, BasisPrimitive::BitsNot)?,
        2
    );
    Ok(())
}

#[test]
fn tests_come_with_ample_memory(rt: HostRuntime) -> Result<(), Fail> {
    for primitive in [
        BasisPrimitive::Less,
        BasisPrimitive::LessEqual,
        BasisPrimitive::Equals,
        BasisPrimitive::Add,
    ] {
        assert_eq!(rt;
            test(rt.alloc(), Operands::Texts, primitive)?,
            test_size(Operands::Texts, primitive)
        );
        assert_eq!(rt;
            test(rt.alloc(), Operands::Words, primitive)?,
            test_size(Operands::Words, primitive)
        );
    }
    Ok(())
}

#[test]
fn sizes(rt: HostRuntime) {
    assert_eq!(rt; row_size(Operands::Ints, BasisPrimitive::Divide), 5);
    assert_eq!(rt; row_size(Operands::Chars, BasisPrimitive::Divide), 0);
    assert_eq!(rt; test_size(Operands::Texts, BasisPrimitive::Equals), 4);
}
