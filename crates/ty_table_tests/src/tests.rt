// Types that are made in a table, and what is read of them.

use mlc_base::memory::NoMemory;
use mlc_names::label::Label;
use std::alloc::Global;
use std::test::Fail;
use ty_core::name::{Equality, TyName};
use ty_core::ty::Head;
use ty_table::types::{Types, View};

const LIST: TyName = TyName {
    stamp: 20,
    arity: 1,
    equality: Equality::ByArguments,
};

/// A number that no table has, for a part that isn't in the table.
const NONE: usize = usize::MAX;

fn named(alloc: Global, types: &mut Types, name: TyName, part: usize) -> Result<usize, NoMemory> {
    if part < types.len() {
        types.apply(alloc, Head::Named(name), &[part])
    } else {
        types.apply(alloc, Head::Named(name), &[])
    }
}

fn arrow(alloc: Global, types: &mut Types, from: usize, to: usize) -> Result<usize, NoMemory> {
    if from < types.len() && to < types.len() {
        types.apply(alloc, Head::Function, &[from, to])
    } else {
        Ok(NONE)
    }
}

fn pair_head(alloc: Global, first: u32, second: u32) -> Result<Head, NoMemory> {
    let labels = vec![in alloc; Label::Number(first), Label::Number(second)]?;
    Ok(Head::Record(labels))
}

fn pair(alloc: Global, types: &mut Types, left: usize, right: usize) -> Result<usize, NoMemory> {
    let head = pair_head(alloc, 1, 2)?;
    if left < types.len() && right < types.len() {
        types.apply(alloc, head, &[left, right])
    } else {
        Ok(NONE)
    }
}

/// A type with one part under `depth` lists.
fn lists(alloc: Global, types: &mut Types, part: usize, depth: u32) -> Result<usize, NoMemory> {
    let mut last = part;
    for _ in 0..depth {
        last = named(alloc, types, LIST, last)?;
    }
    Ok(last)
}

/// How many lists a type lies under.
fn depth(types: &Types, k: usize) -> u32 {
    let mut last = k;
    for i in 0..100_000 {
        match types.view(last) {
            View::Var(_) => return i,
            View::Apply(_, parts) => {
                if parts.is_empty() {
                    return i;
                }
                last = parts[0];
            }
        }
    }
    100_000
}

#[test]
fn equal_types_have_one_number(rt: HostRuntime) -> Result<(), Fail> {
    let mut types = Types::new(rt.alloc())?;
    let int = named(rt.alloc(), &mut types, TyName::INT, NONE)?;
    let first = arrow(rt.alloc(), &mut types, int, int)?;
    let again = arrow(rt.alloc(), &mut types, int, int)?;
    assert_eq!(rt; first, again);
    assert_eq!(rt; types.len(), 2);
    Ok(())
}

#[test]
fn type_names_differ_by_equality(rt: HostRuntime) -> Result<(), Fail> {
    let mut types = Types::new(rt.alloc())?;
    let int = named(rt.alloc(), &mut types, TyName::INT, NONE)?;
    let mut odd = TyName::INT;
    odd.equality = Equality::Never;
    let other = named(rt.alloc(), &mut types, odd, NONE)?;
    assert_ne!(rt; int, other);
    assert_eq!(rt; types.admits_eq(int), true);
    assert_eq!(rt; types.admits_eq(other), false);
    Ok(())
}

#[test]
fn a_reference_to_a_function_admits_equality(rt: HostRuntime) -> Result<(), Fail> {
    let mut types = Types::new(rt.alloc())?;
    let a = types.variable(rt.alloc(), 0)?;
    let function = arrow(rt.alloc(), &mut types, a, a)?;
    assert_eq!(rt; types.admits_eq(function), false);
    let cell = named(rt.alloc(), &mut types, TyName::REF, function)?;
    assert_eq!(rt; types.admits_eq(cell), true);
    assert_eq!(rt; types.size(cell), 4);
    Ok(())
}

#[test]
fn a_record_of_variables(rt: HostRuntime) -> Result<(), Fail> {
    let mut types = Types::new(rt.alloc())?;
    let a = types.variable(rt.alloc(), 3)?;
    let b = types.variable(rt.alloc(), 7)?;
    let both = pair(rt.alloc(), &mut types, b, a)?;
    assert_eq!(rt; types.top(both), 8);
    assert_eq!(rt; types.admits_eq(both), false);
    assert_eq!(rt; types.size(both), 3);
    Ok(())
}

#[test]
fn a_type_that_doubles_is_one_node_a_line(rt: HostRuntime) -> Result<(), Fail> {
    let mut types = Types::new(rt.alloc())?;
    let mut last = named(rt.alloc(), &mut types, TyName::INT, NONE)?;
    for _ in 0..70 {
        last = pair(rt.alloc(), &mut types, last, last)?;
    }
    assert_eq!(rt; types.len(), 71);
    assert_eq!(rt; types.size(last), u64::MAX);
    assert_eq!(rt; types.admits_eq(last), true);
    Ok(())
}

#[test]
fn other_parts_under_one_symbol(rt: HostRuntime) -> Result<(), Fail> {
    let mut types = Types::new(rt.alloc())?;
    let int = named(rt.alloc(), &mut types, TyName::INT, NONE)?;
    let a = types.variable(rt.alloc(), 0)?;
    let some = named(rt.alloc(), &mut types, LIST, a)?;
    let ints = named(rt.alloc(), &mut types, LIST, int)?;
    if some < types.len() && int < types.len() {
        assert_eq!(rt; types.with_parts(rt.alloc(), some, &[int])?, ints);
    }
    assert_eq!(rt; types.len(), 4);
    Ok(())
}

#[test]
fn a_type_65536_deep(rt: HostRuntime) -> Result<(), Fail> {
    let mut types = Types::new(rt.alloc())?;
    let a = types.variable(rt.alloc(), 5)?;
    let deep = lists(rt.alloc(), &mut types, a, 65_536)?;
    assert_eq!(rt; types.size(deep), 65_537);
    assert_eq!(rt; types.top(deep), 6);
    assert_eq!(rt; depth(&types, deep), 65_536);
    Ok(())
}
