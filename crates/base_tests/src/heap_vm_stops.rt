// Each check that stops.

use crate::heap_vm_machine::{MINUS_ONE, assert_runs};
use heap_vm::stop::Stop;
use ir_code::instr::Instr;
use std::test::Fail;

/// A slot past the stack.
const PAST: u32 = 256;

// Each is looked for before anything else.
const PAST_THE_STACK: [Instr; 32] = [
    Instr::Li {
        dst: PAST,
        value: 0,
    },
    Instr::Mov { dst: PAST, src: 0 },
    Instr::Mov { dst: 0, src: PAST },
    Instr::Brz {
        test: PAST,
        target: 0,
    },
    Instr::Switch {
        index: PAST,
        last: 0,
    },
    Instr::Call {
        target: 0,
        frame: 255,
    },
    Instr::Ret { value: PAST },
    Instr::Acc { dst: PAST },
    Instr::PushHandler {
        record: 254,
        target: 0,
    },
    Instr::PopHandler { record: PAST },
    Instr::Raise { packet: PAST },
    Instr::Alloc {
        dst: PAST,
        words: 2000,
    },
    Instr::AllocVar {
        dst: PAST,
        words: 0,
    },
    Instr::AllocVar {
        dst: 0,
        words: PAST,
    },
    Instr::Ld {
        dst: PAST,
        base: 0,
        offset: 2000,
    },
    Instr::Ld {
        dst: 0,
        base: PAST,
        offset: 0,
    },
    Instr::St {
        base: PAST,
        offset: 0,
        src: 0,
    },
    Instr::St {
        base: 0,
        offset: 2000,
        src: PAST,
    },
    Instr::Copy {
        dst: PAST,
        src: 0,
        count: 0,
    },
    Instr::Copy {
        dst: 0,
        src: PAST,
        count: 0,
    },
    Instr::Copy {
        dst: 0,
        src: 0,
        count: PAST,
    },
    Instr::Add {
        dst: PAST,
        left: 0,
        right: 0,
    },
    Instr::Add {
        dst: 0,
        left: PAST,
        right: 0,
    },
    Instr::WDiv {
        dst: 0,
        left: 0,
        right: PAST,
    },
    Instr::WAdd {
        dst: PAST,
        left: 0,
        right: 0,
    },
    Instr::WAdd {
        dst: 0,
        left: PAST,
        right: 0,
    },
    Instr::WAdd {
        dst: 0,
        left: 0,
        right: MINUS_ONE,
    },
    Instr::SCmp {
        dst: PAST,
        left: 0,
        right: 0,
    },
    Instr::SCmp {
        dst: 0,
        left: 0,
        right: PAST,
    },
    Instr::IText { dst: PAST, src: 0 },
    Instr::IText { dst: 0, src: PAST },
    Instr::Print { text: PAST },
];

#[test]
fn a_slot_past_the_stack_stops_before_anything_else(rt: HostRuntime) -> Result<(), Fail> {
    for row in PAST_THE_STACK.iter() {
        assert_runs(&rt, rt.alloc(), &[], &[*row], Stop::NoStack, "")?;
    }
    Ok(())
}

const ONE: Instr = Instr::Li { dst: 1, value: 1 };

const FIVE: Instr = Instr::Li { dst: 0, value: 5 };

// A packet at 0 whose name's string at 3 has a word over 255.
const CONSTANTS: [u32; 5] = [2, 0, 3, 1, 256];

// Two instructions, and what a run of them answers.
const ADDRESSES: [(Instr, Instr, Stop); 19] = [
    (ONE, Instr::Jmp { target: 9 }, Stop::Stuck),
    (FIVE, Instr::Switch { index: 0, last: 9 }, Stop::Stuck),
    (
        FIVE,
        Instr::Ld {
            dst: 2,
            base: 0,
            offset: 0,
        },
        Stop::Stuck,
    ),
    (
        ONE,
        Instr::Ld {
            dst: 2,
            base: 0,
            offset: MINUS_ONE,
        },
        Stop::Stuck,
    ),
    (
        ONE,
        Instr::St {
            base: 0,
            offset: 0,
            src: 1,
        },
        Stop::Stuck,
    ),
    (
        FIVE,
        Instr::St {
            base: 0,
            offset: 0,
            src: 1,
        },
        Stop::Stuck,
    ),
    (
        ONE,
        Instr::Copy {
            dst: 0,
            src: 0,
            count: 1,
        },
        Stop::Stuck,
    ),
    (
        FIVE,
        Instr::SCmp {
            dst: 2,
            left: 0,
            right: 1,
        },
        Stop::Stuck,
    ),
    (
        FIVE,
        Instr::SCmp {
            dst: 2,
            left: 1,
            right: 0,
        },
        Stop::Stuck,
    ),
    (FIVE, Instr::Print { text: 0 }, Stop::Stuck),
    (
        Instr::Li { dst: 0, value: 3 },
        Instr::Print { text: 0 },
        Stop::Stuck,
    ),
    (FIVE, Instr::Raise { packet: 0 }, Stop::Stuck),
    (ONE, Instr::Raise { packet: 0 }, Stop::Stuck),
    (
        Instr::Alloc { dst: 0, words: 1 },
        Instr::Alloc {
            dst: 0,
            words: 1024,
        },
        Stop::NoHeap,
    ),
    (
        Instr::Li {
            dst: 0,
            value: 1025,
        },
        Instr::AllocVar { dst: 0, words: 0 },
        Stop::NoHeap,
    ),
    (
        Instr::Alloc {
            dst: 0,
            words: 1023,
        },
        Instr::IText { dst: 0, src: 1 },
        Stop::NoHeap,
    ),
    (
        Instr::Alloc {
            dst: 0,
            words: 1022,
        },
        Instr::IText { dst: 0, src: 1 },
        Stop::Ended,
    ),
    (
        Instr::Li {
            dst: 0,
            value: 1024,
        },
        Instr::AllocVar { dst: 0, words: 0 },
        Stop::Ended,
    ),
    (
        FIVE,
        Instr::Copy {
            dst: 0,
            src: 0,
            count: 1,
        },
        Stop::Ended,
    ),
];

#[test]
fn an_address_outside_is_stuck_and_a_full_heap_stops(rt: HostRuntime) -> Result<(), Fail> {
    for (first, row, stop) in ADDRESSES {
        let code = [first, row, Instr::End];
        assert_runs(&rt, rt.alloc(), &CONSTANTS, &code, stop, "")?;
    }
    Ok(())
}

#[test]
fn no_code_is_stuck(rt: HostRuntime) -> Result<(), Fail> {
    assert_runs(&rt, rt.alloc(), &[], &[], Stop::Stuck, "")?;
    Ok(())
}
