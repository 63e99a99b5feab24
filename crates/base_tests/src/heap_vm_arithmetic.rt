// The rows of arithmetic.

use crate::heap_vm_machine::{LEAST, MINUS_ONE, MOST, assert_runs};
use heap_vm::stop::Stop;
use ir_code::instr::Instr;
use mlc_base::memory::NoMemory;
use std::alloc::Global;
use std::process::Abort;
use std::test::Fail;

const ADD: Instr = Instr::Add {
    dst: 2,
    left: 0,
    right: 1,
};

const SUB: Instr = Instr::Sub {
    dst: 2,
    left: 0,
    right: 1,
};

const MUL: Instr = Instr::Mul {
    dst: 2,
    left: 0,
    right: 1,
};

const I_DIV: Instr = Instr::IDiv {
    dst: 2,
    left: 0,
    right: 1,
};

const I_MOD: Instr = Instr::IMod {
    dst: 2,
    left: 0,
    right: 1,
};

const I_QUOT: Instr = Instr::IQuot {
    dst: 2,
    left: 0,
    right: 1,
};

const I_REM: Instr = Instr::IRem {
    dst: 2,
    left: 0,
    right: 1,
};

const W_ADD: Instr = Instr::WAdd {
    dst: 2,
    left: 0,
    right: 1,
};

const W_SUB: Instr = Instr::WSub {
    dst: 2,
    left: 0,
    right: 1,
};

const W_MUL: Instr = Instr::WMul {
    dst: 2,
    left: 0,
    right: 1,
};

const W_DIV: Instr = Instr::WDiv {
    dst: 2,
    left: 0,
    right: 1,
};

const W_MOD: Instr = Instr::WMod {
    dst: 2,
    left: 0,
    right: 1,
};

const AND: Instr = Instr::And {
    dst: 2,
    left: 0,
    right: 1,
};

const OR: Instr = Instr::Or {
    dst: 2,
    left: 0,
    right: 1,
};

const XOR: Instr = Instr::Xor {
    dst: 2,
    left: 0,
    right: 1,
};

const SHL: Instr = Instr::Shl {
    dst: 2,
    left: 0,
    right: 1,
};

const SHR: Instr = Instr::Shr {
    dst: 2,
    left: 0,
    right: 1,
};

const SAR: Instr = Instr::Sar {
    dst: 2,
    left: 0,
    right: 1,
};

const I_LT: Instr = Instr::ILt {
    dst: 2,
    left: 0,
    right: 1,
};

const U_LT: Instr = Instr::ULt {
    dst: 2,
    left: 0,
    right: 1,
};

const EQ: Instr = Instr::Eq {
    dst: 2,
    left: 0,
    right: 1,
};

/// A row at two words; what it writes is its result, and then 0 where it went past the next instruction and else 1.
/// Where it has no result, 77 is written in its place.
type Case = (Instr, u32, u32, &'static str);

const SIGNED: [Case; 8] = [
    (ADD, 2, 3, "50"),
    (ADD, MOST, 1, "771"),
    (ADD, LEAST, MINUS_ONE, "771"),
    (SUB, 2, 3, "~10"),
    (SUB, LEAST, 1, "771"),
    (MUL, 0xffff_fffd, 4, "~120"),
    (MUL, 0x1_0000, 0x1_0000, "771"),
    (MUL, LEAST, MINUS_ONE, "771"),
];

const DIVISION: [Case; 16] = [
    (I_DIV, 7, 2, "30"),
    (I_DIV, 0xffff_fff9, 2, "~40"),
    (I_DIV, 7, 0xffff_fffe, "~40"),
    (I_DIV, LEAST, MINUS_ONE, "771"),
    (I_DIV, 1, 0, "771"),
    (I_MOD, 0xffff_fff9, 2, "10"),
    (I_MOD, 7, 0xffff_fffe, "~10"),
    (I_MOD, LEAST, MINUS_ONE, "00"),
    (I_MOD, 1, 0, "771"),
    (I_QUOT, 0xffff_fff9, 2, "~30"),
    (I_QUOT, LEAST, MINUS_ONE, "771"),
    (I_QUOT, 1, 0, "771"),
    (I_REM, 0xffff_fff9, 2, "~10"),
    (I_REM, 7, 0xffff_fffe, "10"),
    (I_REM, LEAST, MINUS_ONE, "00"),
    (I_REM, 1, 0, "771"),
];

const WORDS: [Case; 7] = [
    (W_ADD, MINUS_ONE, 2, "11"),
    (W_SUB, 1, 2, "~11"),
    (W_MUL, 0x1_0001, 0x1_0000, "655361"),
    (W_DIV, MINUS_ONE, 2, "21474836470"),
    (W_DIV, 1, 0, "771"),
    (W_MOD, MINUS_ONE, 10, "50"),
    (W_MOD, 1, 0, "771"),
];

const BITS: [Case; 11] = [
    (AND, 12, 10, "81"),
    (OR, 12, 10, "141"),
    (XOR, 12, 10, "61"),
    (SHL, 1, 31, "~21474836481"),
    (SHL, 1, 32, "01"),
    (SHL, 1, MINUS_ONE, "01"),
    (SHR, MINUS_ONE, 31, "11"),
    (SHR, MINUS_ONE, 32, "01"),
    (SAR, LEAST, 31, "~11"),
    (SAR, LEAST, 32, "~11"),
    (SAR, MOST, 40, "01"),
];

const COMPARISONS: [Case; 6] = [
    (I_LT, MINUS_ONE, 0, "11"),
    (I_LT, 0, MINUS_ONE, "01"),
    (U_LT, MINUS_ONE, 0, "01"),
    (U_LT, 0, MINUS_ONE, "11"),
    (EQ, 5, 5, "11"),
    (EQ, 5, 6, "01"),
];

/// Runs a row at two words and writes what it gives.
fn assert_computes(rt: &impl Abort, alloc: Global, case: Case) -> Result<(), NoMemory> {
    let (row, x, y, output) = case;
    let code = [
        Instr::Li { dst: 0, value: x },
        Instr::Li { dst: 1, value: y },
        Instr::Li { dst: 2, value: 77 },
        row,
        Instr::Li { dst: 3, value: 1 },
        Instr::IText { dst: 4, src: 2 },
        Instr::Print { text: 4 },
        Instr::IText { dst: 4, src: 3 },
        Instr::Print { text: 4 },
        Instr::End,
    ];
    assert_runs(rt, alloc, &[], &code, Stop::Ended, output)
}

fn assert_all_compute(rt: &impl Abort, alloc: Global, cases: &[Case]) -> Result<(), NoMemory> {
    for case in cases {
        assert_computes(rt, alloc, *case)?;
    }
    Ok(())
}

#[test]
fn signed_arithmetic_fits_or_goes_on(rt: HostRuntime) -> Result<(), Fail> {
    assert_all_compute(&rt, rt.alloc(), &SIGNED)?;
    Ok(())
}

#[test]
fn signed_division_rounds_down_or_towards_zero(rt: HostRuntime) -> Result<(), Fail> {
    assert_all_compute(&rt, rt.alloc(), &DIVISION)?;
    Ok(())
}

#[test]
fn words_wrap_and_divide_unsigned(rt: HostRuntime) -> Result<(), Fail> {
    assert_all_compute(&rt, rt.alloc(), &WORDS)?;
    Ok(())
}

#[test]
fn bits_shift_out(rt: HostRuntime) -> Result<(), Fail> {
    assert_all_compute(&rt, rt.alloc(), &BITS)?;
    Ok(())
}

#[test]
fn comparisons_give_one_or_zero(rt: HostRuntime) -> Result<(), Fail> {
    assert_all_compute(&rt, rt.alloc(), &COMPARISONS)?;
    Ok(())
}
