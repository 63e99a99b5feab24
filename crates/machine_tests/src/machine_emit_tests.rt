// What programs write, and how they end.

use crate::machine_emit_programs as of;
use crate::machine_emit_run::{ends, uncaught};
use std::test::Fail;

#[test]
fn a_constant_is_printed(rt: HostRuntime) -> Result<(), Fail> {
    ends(&rt, rt.alloc(), &of::NOTHING, &of::ONE, "42")?;
    Ok(())
}

#[test]
fn an_overflow_is_uncaught(rt: HostRuntime) -> Result<(), Fail> {
    uncaught(&rt, rt.alloc(), &of::NOTHING, &of::OVERFLOW, "", "Overflow")?;
    Ok(())
}

#[test]
fn a_tail_call_loops(rt: HostRuntime) -> Result<(), Fail> {
    ends(&rt, rt.alloc(), &of::NOTHING, &of::SUM, "55")?;
    Ok(())
}

#[test]
fn a_tail_call_swaps(rt: HostRuntime) -> Result<(), Fail> {
    ends(&rt, rt.alloc(), &of::NOTHING, &of::SWAP, "~4")?;
    Ok(())
}

#[test]
fn a_loop_counts(rt: HostRuntime) -> Result<(), Fail> {
    ends(&rt, rt.alloc(), &of::NOTHING, &of::LOOP, "543210")?;
    Ok(())
}

#[test]
fn a_handler_handles(rt: HostRuntime) -> Result<(), Fail> {
    ends(&rt, rt.alloc(), &of::NOTHING, &of::HANDLED, "1")?;
    Ok(())
}

#[test]
fn a_handler_is_restored(rt: HostRuntime) -> Result<(), Fail> {
    ends(&rt, rt.alloc(), &of::NOTHING, &of::RESTORED, "9")?;
    Ok(())
}

#[test]
fn a_handler_is_left(rt: HostRuntime) -> Result<(), Fail> {
    uncaught(&rt, rt.alloc(), &of::NOTHING, &of::LEFT, "", "Div")?;
    Ok(())
}

#[test]
fn a_table_of_closures(rt: HostRuntime) -> Result<(), Fail> {
    ends(&rt, rt.alloc(), &of::DENSE_SET, &of::DISPATCH, "3822")?;
    Ok(())
}

#[test]
fn a_search_of_closures(rt: HostRuntime) -> Result<(), Fail> {
    ends(&rt, rt.alloc(), &of::SPARSE_SET, &of::SPARSE, "382238")?;
    Ok(())
}

#[test]
fn texts_are_taken_apart(rt: HostRuntime) -> Result<(), Fail> {
    uncaught(
        &rt,
        rt.alloc(),
        &of::WORDS,
        &of::TEXTS,
        "abcd4b",
        "Subscript",
    )?;
    Ok(())
}

#[test]
fn bytes_of_texts(rt: HostRuntime) -> Result<(), Fail> {
    uncaught(&rt, rt.alloc(), &of::WORDS, &of::BYTES, "b98", "Subscript")?;
    Ok(())
}

#[test]
fn lists_are_compared(rt: HostRuntime) -> Result<(), Fail> {
    ends(&rt, rt.alloc(), &of::TYPES, &of::EQUAL, "10")?;
    Ok(())
}

#[test]
fn pairs_are_compared(rt: HostRuntime) -> Result<(), Fail> {
    ends(&rt, rt.alloc(), &of::TYPES, &of::PAIRS, "10")?;
    Ok(())
}

#[test]
fn an_exception_has_a_name(rt: HostRuntime) -> Result<(), Fail> {
    uncaught(&rt, rt.alloc(), &of::NOTHING, &of::OWN, "", "option")?;
    Ok(())
}

#[test]
fn exceptions_are_told_apart(rt: HostRuntime) -> Result<(), Fail> {
    uncaught(&rt, rt.alloc(), &of::NOTHING, &of::OTHER, "", "option")?;
    Ok(())
}

#[test]
fn an_exception_is_caught(rt: HostRuntime) -> Result<(), Fail> {
    ends(&rt, rt.alloc(), &of::NOTHING, &of::CAUGHT, "5")?;
    Ok(())
}

#[test]
fn references_are_places(rt: HostRuntime) -> Result<(), Fail> {
    ends(&rt, rt.alloc(), &of::TYPES, &of::REFERENCES, "210")?;
    Ok(())
}

#[test]
fn a_switch_by_a_table(rt: HostRuntime) -> Result<(), Fail> {
    ends(&rt, rt.alloc(), &of::NOTHING, &of::TABLE, "1009910210399")?;
    Ok(())
}

#[test]
fn a_switch_by_a_search(rt: HostRuntime) -> Result<(), Fail> {
    ends(
        &rt,
        rt.alloc(),
        &of::NOTHING,
        &of::SEARCH,
        "99110991201301409915099",
    )?;
    Ok(())
}

#[test]
fn a_switch_by_tests(rt: HostRuntime) -> Result<(), Fail> {
    ends(&rt, rt.alloc(), &of::NOTHING, &of::TESTS, "991079915099")?;
    Ok(())
}

#[test]
fn cases_go_on(rt: HostRuntime) -> Result<(), Fail> {
    ends(&rt, rt.alloc(), &of::NOTHING, &of::CASES, "131012")?;
    Ok(())
}

#[test]
fn runs_are_copied(rt: HostRuntime) -> Result<(), Fail> {
    ends(&rt, rt.alloc(), &of::NOTHING, &of::RUNS, "6564")?;
    Ok(())
}

#[test]
fn calls_nest(rt: HostRuntime) -> Result<(), Fail> {
    ends(&rt, rt.alloc(), &of::NOTHING, &of::DEEP, "210")?;
    Ok(())
}

#[test]
fn orders_are_values(rt: HostRuntime) -> Result<(), Fail> {
    ends(&rt, rt.alloc(), &of::WORDS, &of::ORDERS, "1001110101")?;
    Ok(())
}

#[test]
fn orders_are_tests(rt: HostRuntime) -> Result<(), Fail> {
    ends(&rt, rt.alloc(), &of::WORDS, &of::BRANCHES, "1001110101")?;
    Ok(())
}
