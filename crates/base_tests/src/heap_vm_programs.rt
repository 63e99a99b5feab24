// Control, handlers, the memory and strings.

use crate::heap_vm_machine::{LEAST, MINUS_ONE, MOST, Row, assert_all_run, assert_runs};
use heap_vm::stop::Stop;
use ir_code::instr::Instr;
use mlc_base::memory::NoMemory;
use std::alloc::Global;
use std::process::Abort;
use std::test::Fail;

const CALL: [Instr; 9] = [
    Instr::Call {
        target: 4,
        frame: 2,
    },
    Instr::Acc { dst: 0 },
    Instr::IText { dst: 1, src: 0 },
    Instr::Jmp { target: 7 },
    Instr::Li { dst: 2, value: 42 },
    Instr::Mov { dst: 3, src: 2 },
    Instr::Ret { value: 3 },
    Instr::Print { text: 1 },
    Instr::End,
];

// A packet goes to the last handler and then to the one before.
const RAISED_TWICE: [Instr; 9] = [
    Instr::PushHandler {
        record: 0,
        target: 5,
    },
    Instr::PushHandler {
        record: 3,
        target: 4,
    },
    Instr::Li { dst: 6, value: 99 },
    Instr::Raise { packet: 6 },
    Instr::Raise { packet: 6 },
    Instr::Acc { dst: 7 },
    Instr::IText { dst: 7, src: 7 },
    Instr::Print { text: 7 },
    Instr::End,
];

const TAKEN_BACK: [Instr; 4] = [
    Instr::PushHandler {
        record: 0,
        target: 3,
    },
    Instr::PopHandler { record: 0 },
    Instr::Raise { packet: 3 },
    Instr::End,
];

// The memory is the constants and then the heap.
const MEMORY: [Instr; 11] = [
    Instr::Ld {
        dst: 1,
        base: 0,
        offset: 1,
    },
    Instr::Alloc { dst: 2, words: 3 },
    Instr::AllocVar { dst: 3, words: 1 },
    Instr::St {
        base: 2,
        offset: 0,
        src: 1,
    },
    Instr::St {
        base: 2,
        offset: 1,
        src: 2,
    },
    Instr::St {
        base: 2,
        offset: 2,
        src: 3,
    },
    Instr::Copy {
        dst: 3,
        src: 2,
        count: 1,
    },
    Instr::Ld {
        dst: 6,
        base: 3,
        offset: 2,
    },
    Instr::IText { dst: 7, src: 6 },
    Instr::Print { text: 7 },
    Instr::End,
];

const OVERLAP: [Instr; 13] = [
    Instr::Alloc { dst: 1, words: 4 },
    Instr::Li { dst: 2, value: 7 },
    Instr::St {
        base: 1,
        offset: 0,
        src: 2,
    },
    Instr::Li { dst: 2, value: 8 },
    Instr::St {
        base: 1,
        offset: 1,
        src: 2,
    },
    Instr::Li { dst: 2, value: 1 },
    Instr::WAdd {
        dst: 3,
        left: 1,
        right: 2,
    },
    Instr::Li { dst: 2, value: 3 },
    Instr::Copy {
        dst: 3,
        src: 1,
        count: 2,
    },
    Instr::Ld {
        dst: 4,
        base: 1,
        offset: 2,
    },
    Instr::IText { dst: 5, src: 4 },
    Instr::Print { text: 5 },
    Instr::End,
];

const ROWS: [Row; 5] = [
    Row {
        constants: &[],
        code: &CALL,
        stop: Stop::Ended,
        output: "42",
    },
    Row {
        constants: &[],
        code: &RAISED_TWICE,
        stop: Stop::Ended,
        output: "99",
    },
    Row {
        constants: &[],
        code: &TAKEN_BACK,
        stop: Stop::Stuck,
        output: "",
    },
    Row {
        constants: &[41, 3],
        code: &MEMORY,
        stop: Stop::Ended,
        output: "5",
    },
    Row {
        constants: &[],
        code: &OVERLAP,
        stop: Stop::Ended,
        output: "8",
    },
];

#[test]
fn programs_write_what_they_should(rt: HostRuntime) -> Result<(), Fail> {
    assert_all_run(&rt, rt.alloc(), &ROWS)?;
    Ok(())
}

/// Writes 5 unless the word is 0.
fn assert_branches(
    rt: &impl Abort,
    alloc: Global,
    test: u32,
    output: &str,
) -> Result<(), NoMemory> {
    let code = [
        Instr::Li {
            dst: 0,
            value: test,
        },
        Instr::Brz { test: 0, target: 3 },
        Instr::Li { dst: 1, value: 5 },
        Instr::IText { dst: 2, src: 1 },
        Instr::Print { text: 2 },
        Instr::End,
    ];
    assert_runs(rt, alloc, &[], &code, Stop::Ended, output)
}

#[test]
fn a_branch_is_taken_at_zero(rt: HostRuntime) -> Result<(), Fail> {
    assert_branches(&rt, rt.alloc(), 0, "0")?;
    assert_branches(&rt, rt.alloc(), 1, "5")?;
    Ok(())
}

const ONE_MORE: Instr = Instr::WAdd {
    dst: 1,
    left: 1,
    right: 2,
};

/// Writes how many of three instructions are left from this index on.
fn assert_switches(
    rt: &impl Abort,
    alloc: Global,
    index: u32,
    output: &str,
) -> Result<(), NoMemory> {
    let code = [
        Instr::Li {
            dst: 0,
            value: index,
        },
        Instr::Li { dst: 2, value: 1 },
        Instr::Switch { index: 0, last: 2 },
        ONE_MORE,
        ONE_MORE,
        ONE_MORE,
        Instr::IText { dst: 3, src: 1 },
        Instr::Print { text: 3 },
        Instr::End,
    ];
    assert_runs(rt, alloc, &[], &code, Stop::Ended, output)
}

#[test]
fn a_switch_takes_the_last_from_there_on(rt: HostRuntime) -> Result<(), Fail> {
    for (index, output) in [(0, "3"), (1, "2"), (2, "1"), (3, "1"), (MINUS_ONE, "1")] {
        assert_switches(&rt, rt.alloc(), index, output)?;
    }
    Ok(())
}

// "a" at 0, "ab" at 2, "b" at 5, "" at 7.
const STRINGS: [u32; 8] = [1, 97, 2, 97, 98, 1, 98, 0];

/// Writes how two of the strings stand.
fn assert_compares(
    rt: &impl Abort,
    alloc: Global,
    left: u32,
    right: u32,
    output: &str,
) -> Result<(), NoMemory> {
    let code = [
        Instr::Li {
            dst: 0,
            value: left,
        },
        Instr::Li {
            dst: 1,
            value: right,
        },
        Instr::SCmp {
            dst: 2,
            left: 0,
            right: 1,
        },
        Instr::IText { dst: 3, src: 2 },
        Instr::Print { text: 3 },
        Instr::End,
    ];
    assert_runs(rt, alloc, &STRINGS, &code, Stop::Ended, output)
}

#[test]
fn strings_are_compared(rt: HostRuntime) -> Result<(), Fail> {
    for (left, right, output) in [
        (0, 2, "0"),
        (2, 0, "2"),
        (2, 5, "0"),
        (7, 0, "0"),
        (2, 2, "1"),
    ] {
        assert_compares(&rt, rt.alloc(), left, right, output)?;
    }
    Ok(())
}

/// Writes a signed word.
fn assert_writes(rt: &impl Abort, alloc: Global, value: u32, output: &str) -> Result<(), NoMemory> {
    let code = [
        Instr::Li { dst: 0, value },
        Instr::IText { dst: 1, src: 0 },
        Instr::Print { text: 1 },
        Instr::End,
    ];
    assert_runs(rt, alloc, &[], &code, Stop::Ended, output)
}

#[test]
fn signed_words_are_written(rt: HostRuntime) -> Result<(), Fail> {
    assert_writes(&rt, rt.alloc(), 0, "0")?;
    assert_writes(&rt, rt.alloc(), MOST, "2147483647")?;
    assert_writes(&rt, rt.alloc(), LEAST, "~2147483648")?;
    Ok(())
}
