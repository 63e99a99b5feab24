// What is known of types without looking through them: their few variables, and equality where all variables admit it.

use mlc_base::memory::NoMemory;
use mlc_names::label::Label;
use std::alloc::Global;
use std::test::Fail;
use ty_core::name::{Equality, TyName};
use ty_core::ty::Head;
use ty_table::types::Types;
use ty_table::variables::Few;

/// A variable that isn't there.
const NONE: usize = usize::MAX;

/// How many variables are known, 5 where they are many, and which.
fn listed(few: Few) -> (u32, usize, usize, usize, usize) {
    match few {
        Few::Empty => (0, NONE, NONE, NONE, NONE),
        Few::One(a) => (1, a, NONE, NONE, NONE),
        Few::Two(a, b) => (2, a, b, NONE, NONE),
        Few::Three(a, b, c) => (3, a, b, c, NONE),
        Few::Four(a, b, c, d) => (4, a, b, c, d),
        Few::Many => (5, NONE, NONE, NONE, NONE),
    }
}

/// A head with two parts, or one.
#[derive(Clone, Copy)]
enum Over {
    Pair,
    Arrow,
    Reference,
    Opaque,
}

fn head(alloc: Global, over: Over) -> Result<Head, NoMemory> {
    match over {
        Over::Pair => Ok(Head::Record(vec![in alloc; Label::Number(1), Label::Number(2)]?)),
        Over::Arrow => Ok(Head::Function),
        Over::Reference => Ok(Head::Named(TyName::REF)),
        Over::Opaque => Ok(Head::Named(TyName {
            stamp: 20,
            arity: 2,
            equality: Equality::Never,
        })),
    }
}

fn above(
    alloc: Global,
    types: &mut Types,
    over: Over,
    left: usize,
    right: usize,
) -> Result<usize, NoMemory> {
    let head = head(alloc, over)?;
    if left < types.len() && right < types.len() {
        types.apply(alloc, head, &[left, right])
    } else {
        Ok(NONE)
    }
}

fn reference(alloc: Global, types: &mut Types, held: usize) -> Result<usize, NoMemory> {
    let head = head(alloc, Over::Reference)?;
    if held < types.len() {
        types.apply(alloc, head, &[held])
    } else {
        Ok(NONE)
    }
}

/// Pairs of pairs, with the variables 10, 11 and so on, as many as are wanted.
fn pairs(alloc: Global, types: &mut Types, count: usize) -> Result<usize, NoMemory> {
    let mut last = types.apply(alloc, Head::Named(TyName::INT), &[])?;
    for i in 0..count {
        let variable = types.variable(alloc, 10 + i.min(100))?;
        last = above(alloc, types, Over::Pair, last, variable)?;
    }
    Ok(last)
}

/// The variables of pairs, beside themselves.
fn twice(alloc: Global, count: usize) -> Result<(u32, usize, usize, usize, usize), NoMemory> {
    let mut types = Types::new(alloc)?;
    let once = pairs(alloc, &mut types, count)?;
    let both = above(alloc, &mut types, Over::Pair, once, once)?;
    Ok(listed(types.few(both)))
}

#[test]
fn no_variables(rt: HostRuntime) -> Result<(), Fail> {
    assert_eq!(rt; twice(rt.alloc(), 0)?, (0, NONE, NONE, NONE, NONE));
    Ok(())
}

#[test]
fn one_variable(rt: HostRuntime) -> Result<(), Fail> {
    assert_eq!(rt; twice(rt.alloc(), 1)?, (1, 10, NONE, NONE, NONE));
    Ok(())
}

#[test]
fn four_variables(rt: HostRuntime) -> Result<(), Fail> {
    assert_eq!(rt; twice(rt.alloc(), 3)?, (3, 10, 11, 12, NONE));
    assert_eq!(rt; twice(rt.alloc(), 4)?, (4, 10, 11, 12, 13));
    Ok(())
}

#[test]
fn five_variables(rt: HostRuntime) -> Result<(), Fail> {
    assert_eq!(rt; twice(rt.alloc(), 5)?, (5, NONE, NONE, NONE, NONE));
    Ok(())
}

/// The variables of pairs below a reference, and whether it admits equality whatever these are, and where they do.
fn below_reference(alloc: Global, count: usize) -> Result<(u32, bool, bool), NoMemory> {
    let mut types = Types::new(alloc)?;
    let held = pairs(alloc, &mut types, count)?;
    let cell = reference(alloc, &mut types, held)?;
    Ok((
        listed(types.few(cell)).0,
        types.admits_eq(cell),
        types.admits_eq_everywhere(cell),
    ))
}

#[test]
fn below_references(rt: HostRuntime) -> Result<(), Fail> {
    assert_eq!(rt; below_reference(rt.alloc(), 0)?, (0, true, true));
    assert_eq!(rt; below_reference(rt.alloc(), 4)?, (4, true, true));
    assert_eq!(rt; below_reference(rt.alloc(), 5)?, (5, true, true));
    Ok(())
}

/// Whether a type of pairs on both sides admits equality whatever their variables are, and where these do.
fn equality(alloc: Global, over: Over, count: usize) -> Result<(bool, bool), NoMemory> {
    let mut types = Types::new(alloc)?;
    let once = pairs(alloc, &mut types, count)?;
    let both = above(alloc, &mut types, over, once, once)?;
    Ok((types.admits_eq(both), types.admits_eq_everywhere(both)))
}

#[test]
fn equality_of_pairs(rt: HostRuntime) -> Result<(), Fail> {
    assert_eq!(rt; equality(rt.alloc(), Over::Pair, 0)?, (true, true));
    assert_eq!(rt; equality(rt.alloc(), Over::Pair, 1)?, (false, true));
    assert_eq!(rt; equality(rt.alloc(), Over::Pair, 5)?, (false, true));
    Ok(())
}

#[test]
fn equality_of_functions(rt: HostRuntime) -> Result<(), Fail> {
    assert_eq!(rt; equality(rt.alloc(), Over::Arrow, 0)?, (false, false));
    assert_eq!(rt; equality(rt.alloc(), Over::Arrow, 4)?, (false, false));
    assert_eq!(rt; equality(rt.alloc(), Over::Opaque, 1)?, (false, false));
    Ok(())
}

/// A pair of a variable and a function, or of the function under a reference.
fn beside(alloc: Global, held: bool) -> Result<(bool, bool), NoMemory> {
    let mut types = Types::new(alloc)?;
    let a = types.variable(alloc, 3)?;
    let function = above(alloc, &mut types, Over::Arrow, a, a)?;
    let cell = reference(alloc, &mut types, function)?;
    let both = above(
        alloc,
        &mut types,
        Over::Pair,
        a,
        if held { cell } else { function },
    )?;
    Ok((types.admits_eq(both), types.admits_eq_everywhere(both)))
}

#[test]
fn a_function_beside_a_variable(rt: HostRuntime) -> Result<(), Fail> {
    assert_eq!(rt; beside(rt.alloc(), false)?, (false, false));
    assert_eq!(rt; beside(rt.alloc(), true)?, (false, true));
    Ok(())
}

#[test]
fn a_number_past_the_table(rt: HostRuntime) -> Result<(), Fail> {
    let types = Types::new(rt.alloc())?;
    assert_eq!(rt; listed(types.few(7)), (1, 0, NONE, NONE, NONE));
    assert_eq!(rt;
        (types.admits_eq(7), types.admits_eq_everywhere(7)),
        (false, true)
    );
    Ok(())
}
