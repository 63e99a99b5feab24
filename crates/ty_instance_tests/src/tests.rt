// Instances of bodies, and types under substitutions.

use crate::read::{NONE, arrow, bind, last, list, read_all, variable, variables};
use mlc_base::memory::NoMemory;
use std::alloc::Global;
use std::test::Fail;
use ty_instance::instantiate::instantiate;
use ty_instance::put::put;
use ty_instance::resolve::resolve;
use ty_instance::within::instantiate_in;
use ty_solve::subst::Subst;
use ty_table::types::Types;

/// A body with two parameters, their types, and the instance.
static INSTANCES: [&str; 8] = [
    "0 i il i",
    "1 i il il",
    "01f i il iilf",
    "0l1lf 1 0 1l0lf",
    "iif i il iif",
    "iilf0f 3 3 iilf3f",
    "02f i i i0f",
    "23f 3l 3l 01f",
];

fn instance(
    alloc: Global,
    s: &mut Subst,
    body: usize,
    first: usize,
    second: usize,
) -> Result<usize, NoMemory> {
    let len = s.types.len();
    if body < len && first < len && second < len {
        instantiate_in(alloc, s, body, &[first, second])
    } else {
        Ok(NONE)
    }
}

fn instance_is(alloc: Global, s: &mut Subst, row: &str) -> Result<bool, NoMemory> {
    let mut read = read_all(alloc, s, row)?;
    let expected = last(&mut read);
    let second = last(&mut read);
    let first = last(&mut read);
    let body = last(&mut read);
    Ok(instance(alloc, s, body, first, second)? == expected)
}

fn instance_is_right(alloc: Global, row: &str) -> Result<bool, NoMemory> {
    let mut s = variables(alloc, 4)?;
    instance_is(alloc, &mut s, row)
}

#[test]
fn parameters_stand_for_their_types(rt: HostRuntime) -> Result<(), Fail> {
    for row in &INSTANCES {
        assert_eq!(rt; instance_is_right(rt.alloc(), row)?, true, "{}", row);
    }
    Ok(())
}

/// A body, the types that are put for its variables 2 and 0, and what it is then.
static PUT: [&str; 4] = [
    "0 i il il",
    "2 i il i",
    "01f i il il1f",
    "02l1ff 3 3l 3l3l1ff",
];

fn put_two(
    alloc: Global,
    s: &mut Subst,
    body: usize,
    first: usize,
    second: usize,
) -> Result<usize, NoMemory> {
    let len = s.types.len();
    if body < len && first < len && second < len {
        put(alloc, s, body, &[2, 0], &[first, second])
    } else {
        Ok(NONE)
    }
}

fn put_is(alloc: Global, s: &mut Subst, row: &str) -> Result<bool, NoMemory> {
    let mut read = read_all(alloc, s, row)?;
    let expected = last(&mut read);
    let second = last(&mut read);
    let first = last(&mut read);
    let body = last(&mut read);
    Ok(put_two(alloc, s, body, first, second)? == expected)
}

fn put_is_right(alloc: Global, row: &str) -> Result<bool, NoMemory> {
    let mut s = variables(alloc, 4)?;
    put_is(alloc, &mut s, row)
}

#[test]
fn some_variables_stand_for_types(rt: HostRuntime) -> Result<(), Fail> {
    for row in &PUT {
        assert_eq!(rt; put_is_right(rt.alloc(), row)?, true, "{}", row);
    }
    Ok(())
}

/// Two pairs that are made equal, a type, and the type under the substitution.
static RESOLVED: [&str; 8] = [
    "0 0 1 1 01f 01f",
    "0 i 1 1 01f i1f",
    "0 1l 1 i 0 il",
    "0 1l 1 i 01f ilif",
    "0 1 1 2l 02f 2l2f",
    "01f 2lif 2 3 0l 3ll",
    "0 1 2 3 03f2f 03f2f",
    "0l il 1 00f 1 iif",
];

fn under(alloc: Global, s: &mut Subst, t: usize) -> Result<usize, NoMemory> {
    if t < s.types.len() {
        resolve(alloc, s, t)
    } else {
        Ok(NONE)
    }
}

/// Makes the two pairs equal that were read before.
fn bind_both(alloc: Global, s: &mut Subst, read: &mut Vec<usize>) {
    for _pair in 0..2 {
        let right = last(read);
        let left = last(read);
        let _bound = bind(alloc, s, left, right);
    }
}

/// Whether a type and the expected one are one under the substitution, also where that is looked at again.
fn resolved_is(alloc: Global, s: &mut Subst, row: &str) -> Result<bool, NoMemory> {
    let mut read = read_all(alloc, s, row)?;
    let expected = last(&mut read);
    let t = last(&mut read);
    bind_both(alloc, s, &mut read);
    let found = under(alloc, s, t)?;
    Ok(found == under(alloc, s, expected)? && found == under(alloc, s, found)?)
}

fn resolved_is_right(alloc: Global, row: &str) -> Result<bool, NoMemory> {
    let mut s = variables(alloc, 4)?;
    resolved_is(alloc, &mut s, row)
}

#[test]
fn bound_variables_stand_for_their_types(rt: HostRuntime) -> Result<(), Fail> {
    for row in &RESOLVED {
        assert_eq!(rt; resolved_is_right(rt.alloc(), row)?, true, "{}", row);
    }
    Ok(())
}

/// Whether a variable with no image is itself.
fn is_itself(alloc: Global, types: &mut Types) -> Result<bool, NoMemory> {
    let body = types.variable(alloc, 7)?;
    Ok(instantiate(alloc, types, body, &[])? == body)
}

#[test]
fn a_scheme_with_no_parameters_is_its_body(rt: HostRuntime) -> Result<(), Fail> {
    let mut types = Types::new(rt.alloc())?;
    assert_eq!(rt; is_itself(rt.alloc(), &mut types)?, true);
    Ok(())
}

/// How many types an instance of a body of 2^40 written nodes adds to the table.
fn added_to(alloc: Global, s: &mut Subst) -> Result<usize, NoMemory> {
    let mut body = variable(alloc, s, 0)?;
    let image = variable(alloc, s, 1)?;
    for _ in 0..40 {
        body = arrow(alloc, s, body, body)?;
    }
    let before = s.types.len();
    let _instance = instance(alloc, s, body, image, image)?;
    Ok(s.types.len().saturating_sub(before))
}

fn added(alloc: Global) -> Result<usize, NoMemory> {
    let mut s = variables(alloc, 2)?;
    added_to(alloc, &mut s)
}

#[test]
fn shared_parts_are_put_once(rt: HostRuntime) -> Result<(), Fail> {
    assert_eq!(rt; added(rt.alloc())?, 40);
    Ok(())
}

/// Makes a variable stand for a list of another one.
fn link(alloc: Global, s: &mut Subst, v: usize, next: usize) -> Result<bool, NoMemory> {
    let this = variable(alloc, s, v)?;
    let next = variable(alloc, s, next)?;
    let next_list = list(alloc, s, next)?;
    Ok(bind(alloc, s, this, next_list))
}

/// How many nodes the first of `count` variables has, each but the last of which is a list of the next.
fn chain_size(alloc: Global, s: &mut Subst, count: usize) -> Result<u64, NoMemory> {
    for i in 1..count {
        let _bound = link(alloc, s, i - 1, i)?;
    }
    let first = variable(alloc, s, 0)?;
    let found = under(alloc, s, first)?;
    Ok(s.types.size(found))
}

fn ten_thousand(alloc: Global) -> Result<u64, NoMemory> {
    let mut s = variables(alloc, 10_000)?;
    chain_size(alloc, &mut s, 10_000)
}

#[test]
fn a_chain_of_ten_thousand_is_resolved(rt: HostRuntime) -> Result<(), Fail> {
    assert_eq!(rt; ten_thousand(rt.alloc())?, 10_000);
    Ok(())
}
