// Directives and their scopes.

use mlc_base::memory::NoMemory;
use mlc_names::names::{Name, Names};
use sml_tree::fixity::{Fixities, Infix};
use sml_tree::ident::Vid;
use std::alloc::Global;
use std::test::Fail;

fn plus_and_times(alloc: Global) -> Result<(Name, Name), NoMemory> {
    let mut names = Names::new(alloc)?;
    let plus = names.intern(alloc, b"+")?;
    let times = names.intern(alloc, b"*")?;
    Ok((plus, times))
}

fn left(precedence: u8) -> Infix {
    Infix {
        precedence,
        right: false,
    }
}

// `infix 6 +`
fn one_directive(alloc: Global, plus: Name) -> Result<Fixities, NoMemory> {
    let mut fixities = Fixities::new(alloc);
    fixities.add(Some(left(6)), &[plus])?;
    Ok(fixities)
}

// What is in force in the first part of `local nonfix + in infix 7 * end` after that.
fn first_part(alloc: Global, plus: Name) -> Result<Fixities, NoMemory> {
    let mut inner = one_directive(alloc, plus)?.copy(alloc)?;
    inner.add(None, &[plus])?;
    Ok(inner)
}

fn second_part(alloc: Global, plus: Name, times: Name) -> Result<Fixities, NoMemory> {
    let mut inner = first_part(alloc, plus)?;
    inner.add(Some(left(7)), &[times])?;
    Ok(inner)
}

fn precedence(fixities: &Fixities, vid: Vid) -> Option<u8> {
    match fixities.of(&vid) {
        None => None,
        Some(infix) => Some(infix.precedence),
    }
}

#[test]
fn a_directive_is_in_force(rt: HostRuntime) -> Result<(), Fail> {
    let (plus, times) = plus_and_times(rt.alloc())?;
    let fixities = one_directive(rt.alloc(), plus)?;
    assert!(rt; precedence(&fixities, Vid::Named(plus)) == Some(6));
    assert!(rt; precedence(&fixities, Vid::Named(times)) == None);
    Ok(())
}

#[test]
fn the_newest_directive_counts(rt: HostRuntime) -> Result<(), Fail> {
    let (plus, _) = plus_and_times(rt.alloc())?;
    let fixities = first_part(rt.alloc(), plus)?;
    assert!(rt; precedence(&fixities, Vid::Named(plus)) == None);
    Ok(())
}

#[test]
fn a_second_part_is_added_alone(rt: HostRuntime) -> Result<(), Fail> {
    let (plus, times) = plus_and_times(rt.alloc())?;
    let inner = second_part(rt.alloc(), plus, times)?;
    let mut fixities = one_directive(rt.alloc(), plus)?;
    assert!(rt; inner.len() == 3);
    fixities.add_newest(&inner, 2)?;
    assert!(rt; precedence(&fixities, Vid::Named(plus)) == Some(6));
    assert!(rt; precedence(&fixities, Vid::Named(times)) == Some(7));
    Ok(())
}

#[test]
fn equals_is_put_in_force(rt: HostRuntime) -> Result<(), Fail> {
    let mut fixities = Fixities::new(rt.alloc());
    fixities.put(Some(left(4)), Vid::Equals)?;
    assert!(rt; precedence(&fixities, Vid::Equals) == Some(4));
    Ok(())
}
