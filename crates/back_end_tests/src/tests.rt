// What programs write, and how they end.

use crate::programs as of;
use crate::run::{NotRun, ends, refusal, uncaught};
use back_end::refused::CompileRefused;
use std::test::Fail;

#[test]
fn no_declaration(rt: HostRuntime) -> Result<(), Fail> {
    ends(&rt, rt.alloc(), &of::NOTHING, "")?;
    Ok(())
}

#[test]
fn strings_are_printed(rt: HostRuntime) -> Result<(), Fail> {
    ends(&rt, rt.alloc(), &of::HELLO, "abcd")?;
    Ok(())
}

#[test]
fn a_function_at_two_types(rt: HostRuntime) -> Result<(), Fail> {
    ends(&rt, rt.alloc(), &of::TWO_TYPES, "3")?;
    Ok(())
}

#[test]
fn an_exception_is_handled(rt: HostRuntime) -> Result<(), Fail> {
    ends(&rt, rt.alloc(), &of::HANDLED, "6")?;
    Ok(())
}

#[test]
fn a_closure_captures(rt: HostRuntime) -> Result<(), Fail> {
    ends(&rt, rt.alloc(), &of::CAPTURED, "6")?;
    Ok(())
}

#[test]
fn a_list_of_things_is_matched(rt: HostRuntime) -> Result<(), Fail> {
    ends(&rt, rt.alloc(), &of::MATCHED, "16")?;
    Ok(())
}

#[test]
fn an_overflow_comes_after_output(rt: HostRuntime) -> Result<(), Fail> {
    uncaught(&rt, rt.alloc(), &of::OVERFLOWS, "ab", "Overflow")?;
    Ok(())
}

#[test]
fn an_exception_is_uncaught(rt: HostRuntime) -> Result<(), Fail> {
    uncaught(&rt, rt.alloc(), &of::RAISES, "", "unit")?;
    Ok(())
}

#[test]
fn no_rule_fits(rt: HostRuntime) -> Result<(), Fail> {
    uncaught(&rt, rt.alloc(), &of::MISSES, "", "Match")?;
    Ok(())
}

#[test]
fn a_reference_and_a_record(rt: HostRuntime) -> Result<(), Fail> {
    ends(&rt, rt.alloc(), &of::STORES, "6")?;
    Ok(())
}

#[test]
fn too_many_nodes(rt: HostRuntime) {
    assert_eq!(rt;
        refusal(rt.alloc(), &of::HEAVY),
        Some(NotRun::Refused(CompileRefused::TooLarge))
    );
}
