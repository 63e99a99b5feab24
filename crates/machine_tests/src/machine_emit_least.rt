// The least heap and stack that suffice, and a word less of each. A heap holds the texts of what is written and the cells that are made; a stack two words and the
// variables of each frame, and what its operations use.

use crate::machine_emit_programs as of;
use crate::machine_emit_run::{Least, Size, is_least};
use heap_vm::stop::Stop;
use std::test::Fail;

#[test]
fn least_for_an_overflow(rt: HostRuntime) -> Result<(), Fail> {
    let size = Size { heap: 0, stack: 5 };
    let least = Least {
        size,
        end: Stop::Uncaught,
        output: "",
        name: "Overflow",
    };
    is_least(&rt, rt.alloc(), &of::NOTHING, &of::OVERFLOW, least)?;
    Ok(())
}

#[test]
fn least_for_a_tail_call(rt: HostRuntime) -> Result<(), Fail> {
    let size = Size { heap: 3, stack: 11 };
    let least = Least {
        size,
        end: Stop::Ended,
        output: "55",
        name: "",
    };
    is_least(&rt, rt.alloc(), &of::NOTHING, &of::SUM, least)?;
    Ok(())
}

#[test]
fn least_for_a_swap(rt: HostRuntime) -> Result<(), Fail> {
    let size = Size { heap: 3, stack: 15 };
    let least = Least {
        size,
        end: Stop::Ended,
        output: "~4",
        name: "",
    };
    is_least(&rt, rt.alloc(), &of::NOTHING, &of::SWAP, least)?;
    Ok(())
}

#[test]
fn least_for_a_loop(rt: HostRuntime) -> Result<(), Fail> {
    let size = Size { heap: 12, stack: 8 };
    let least = Least {
        size,
        end: Stop::Ended,
        output: "543210",
        name: "",
    };
    is_least(&rt, rt.alloc(), &of::NOTHING, &of::LOOP, least)?;
    Ok(())
}

#[test]
fn least_for_a_handler(rt: HostRuntime) -> Result<(), Fail> {
    let size = Size { heap: 2, stack: 8 };
    let least = Least {
        size,
        end: Stop::Ended,
        output: "1",
        name: "",
    };
    is_least(&rt, rt.alloc(), &of::NOTHING, &of::HANDLED, least)?;
    Ok(())
}

#[test]
fn least_for_a_handler_that_is_restored(rt: HostRuntime) -> Result<(), Fail> {
    let size = Size { heap: 2, stack: 10 };
    let least = Least {
        size,
        end: Stop::Ended,
        output: "9",
        name: "",
    };
    is_least(&rt, rt.alloc(), &of::NOTHING, &of::RESTORED, least)?;
    Ok(())
}

#[test]
fn least_for_a_handler_that_is_left(rt: HostRuntime) -> Result<(), Fail> {
    let size = Size { heap: 0, stack: 7 };
    let least = Least {
        size,
        end: Stop::Uncaught,
        output: "",
        name: "Div",
    };
    is_least(&rt, rt.alloc(), &of::NOTHING, &of::LEFT, least)?;
    Ok(())
}

#[test]
fn least_for_calls(rt: HostRuntime) -> Result<(), Fail> {
    let size = Size {
        heap: 4,
        stack: 106,
    };
    let least = Least {
        size,
        end: Stop::Ended,
        output: "210",
        name: "",
    };
    is_least(&rt, rt.alloc(), &of::NOTHING, &of::DEEP, least)?;
    Ok(())
}

#[test]
fn least_for_a_table_of_closures(rt: HostRuntime) -> Result<(), Fail> {
    let size = Size {
        heap: 10,
        stack: 15,
    };
    let least = Least {
        size,
        end: Stop::Ended,
        output: "3822",
        name: "",
    };
    is_least(&rt, rt.alloc(), &of::DENSE_SET, &of::DISPATCH, least)?;
    Ok(())
}

#[test]
fn least_for_a_search_of_closures(rt: HostRuntime) -> Result<(), Fail> {
    let size = Size {
        heap: 15,
        stack: 19,
    };
    let least = Least {
        size,
        end: Stop::Ended,
        output: "382238",
        name: "",
    };
    is_least(&rt, rt.alloc(), &of::SPARSE_SET, &of::SPARSE, least)?;
    Ok(())
}

#[test]
fn least_for_lists(rt: HostRuntime) -> Result<(), Fail> {
    let size = Size {
        heap: 22,
        stack: 23,
    };
    let least = Least {
        size,
        end: Stop::Ended,
        output: "10",
        name: "",
    };
    is_least(&rt, rt.alloc(), &of::TYPES, &of::EQUAL, least)?;
    Ok(())
}

#[test]
fn least_for_pairs(rt: HostRuntime) -> Result<(), Fail> {
    let size = Size {
        heap: 42,
        stack: 30,
    };
    let least = Least {
        size,
        end: Stop::Ended,
        output: "10",
        name: "",
    };
    is_least(&rt, rt.alloc(), &of::TYPES, &of::PAIRS, least)?;
    Ok(())
}

#[test]
fn least_for_references(rt: HostRuntime) -> Result<(), Fail> {
    let size = Size { heap: 8, stack: 20 };
    let least = Least {
        size,
        end: Stop::Ended,
        output: "210",
        name: "",
    };
    is_least(&rt, rt.alloc(), &of::TYPES, &of::REFERENCES, least)?;
    Ok(())
}

#[test]
fn least_for_a_switch_by_a_table(rt: HostRuntime) -> Result<(), Fail> {
    let size = Size {
        heap: 21,
        stack: 23,
    };
    let least = Least {
        size,
        end: Stop::Ended,
        output: "1009910210399",
        name: "",
    };
    is_least(&rt, rt.alloc(), &of::NOTHING, &of::TABLE, least)?;
    Ok(())
}

#[test]
fn least_for_a_switch_by_a_search(rt: HostRuntime) -> Result<(), Fail> {
    let size = Size {
        heap: 40,
        stack: 40,
    };
    let least = Least {
        size,
        end: Stop::Ended,
        output: "99110991201301409915099",
        name: "",
    };
    is_least(&rt, rt.alloc(), &of::NOTHING, &of::SEARCH, least)?;
    Ok(())
}

#[test]
fn least_for_a_switch_by_tests(rt: HostRuntime) -> Result<(), Fail> {
    let size = Size {
        heap: 21,
        stack: 24,
    };
    let least = Least {
        size,
        end: Stop::Ended,
        output: "991079915099",
        name: "",
    };
    is_least(&rt, rt.alloc(), &of::NOTHING, &of::TESTS, least)?;
    Ok(())
}

#[test]
fn least_for_cases(rt: HostRuntime) -> Result<(), Fail> {
    let size = Size {
        heap: 10,
        stack: 15,
    };
    let least = Least {
        size,
        end: Stop::Ended,
        output: "131012",
        name: "",
    };
    is_least(&rt, rt.alloc(), &of::NOTHING, &of::CASES, least)?;
    Ok(())
}

#[test]
fn least_for_runs(rt: HostRuntime) -> Result<(), Fail> {
    let size = Size {
        heap: 17,
        stack: 19,
    };
    let least = Least {
        size,
        end: Stop::Ended,
        output: "6564",
        name: "",
    };
    is_least(&rt, rt.alloc(), &of::NOTHING, &of::RUNS, least)?;
    Ok(())
}

#[test]
fn least_for_a_constant(rt: HostRuntime) -> Result<(), Fail> {
    let size = Size { heap: 3, stack: 5 };
    let least = Least {
        size,
        end: Stop::Ended,
        output: "42",
        name: "",
    };
    is_least(&rt, rt.alloc(), &of::NOTHING, &of::ONE, least)?;
    Ok(())
}

#[test]
fn least_for_texts(rt: HostRuntime) -> Result<(), Fail> {
    let size = Size { heap: 9, stack: 16 };
    let least = Least {
        size,
        end: Stop::Uncaught,
        output: "abcd4b",
        name: "Subscript",
    };
    is_least(&rt, rt.alloc(), &of::WORDS, &of::TEXTS, least)?;
    Ok(())
}

#[test]
fn least_for_bytes(rt: HostRuntime) -> Result<(), Fail> {
    let size = Size { heap: 5, stack: 13 };
    let least = Least {
        size,
        end: Stop::Uncaught,
        output: "b98",
        name: "Subscript",
    };
    is_least(&rt, rt.alloc(), &of::WORDS, &of::BYTES, least)?;
    Ok(())
}

#[test]
fn least_for_an_exception(rt: HostRuntime) -> Result<(), Fail> {
    let size = Size { heap: 3, stack: 5 };
    let least = Least {
        size,
        end: Stop::Uncaught,
        output: "",
        name: "option",
    };
    is_least(&rt, rt.alloc(), &of::NOTHING, &of::OWN, least)?;
    Ok(())
}

#[test]
fn least_for_another_exception(rt: HostRuntime) -> Result<(), Fail> {
    let size = Size { heap: 4, stack: 9 };
    let least = Least {
        size,
        end: Stop::Uncaught,
        output: "",
        name: "option",
    };
    is_least(&rt, rt.alloc(), &of::NOTHING, &of::OTHER, least)?;
    Ok(())
}

#[test]
fn least_for_an_exception_that_is_caught(rt: HostRuntime) -> Result<(), Fail> {
    let size = Size { heap: 6, stack: 9 };
    let least = Least {
        size,
        end: Stop::Ended,
        output: "5",
        name: "",
    };
    is_least(&rt, rt.alloc(), &of::NOTHING, &of::CAUGHT, least)?;
    Ok(())
}

#[test]
fn least_for_orders(rt: HostRuntime) -> Result<(), Fail> {
    let size = Size {
        heap: 20,
        stack: 49,
    };
    let least = Least {
        size,
        end: Stop::Ended,
        output: "1001110101",
        name: "",
    };
    is_least(&rt, rt.alloc(), &of::WORDS, &of::ORDERS, least)?;
    Ok(())
}

#[test]
fn least_for_orders_as_tests(rt: HostRuntime) -> Result<(), Fail> {
    let size = Size {
        heap: 20,
        stack: 38,
    };
    let least = Least {
        size,
        end: Stop::Ended,
        output: "1001110101",
        name: "",
    };
    is_least(&rt, rt.alloc(), &of::WORDS, &of::BRANCHES, least)?;
    Ok(())
}
