// Declarations of datatypes, and which of them admit equality. New names have the stamps 100, 101, ..

ghost use Rattle.std.specs.Prelude.{◌<◌, All, IfOk};

use datatype_equality::argument::Argument;
use datatype_equality::equality::equality_of_datatypes;
use mlc_base::memory::NoMemory;
use std::alloc::Global;
use std::test::Fail;
use ty_core::name::{Equality, TyName};
use ty_core::ty::Head;
use ty_table::types::Types;

const FIRST: usize = 100;

/// The type of a name without parameters, however it is marked.
fn new_name(alloc: Global, types: &mut Types, stamp: u32) -> Result<usize, NoMemory> {
    let name = TyName {
        stamp,
        arity: 0,
        equality: Equality::Never,
    };
    types.apply(alloc, Head::Named(name), &[])
}

/// A type name of the basis with a part, where it takes one.
fn named(
    alloc: Global,
    types: &mut Types,
    name: TyName,
    part: Option<usize>,
) -> Result<usize, NoMemory> {
    match part {
        Some(part) => {
            if part < types.len() {
                return types.apply(alloc, Head::Named(name), &[part]);
            }
            Ok(part)
        }
        None => types.apply(alloc, Head::Named(name), &[]),
    }
}

/// The type of functions from a type to itself.
fn function(alloc: Global, types: &mut Types, ty: usize) -> Result<usize, NoMemory> {
    if ty < types.len() {
        return types.apply(alloc, Head::Function, &[ty, ty]);
    }
    Ok(ty)
}

/// The answer for arguments of two datatypes.
fn two(alloc: Global, types: &Types, first: usize, second: usize) -> Result<Vec<bool>, NoMemory> {
    let arguments = [
        Argument {
            datatype: 0,
            ty: first,
        },
        Argument {
            datatype: 1,
            ty: second,
        },
    ];
    equality_of_datatypes(alloc, types, FIRST, 2, &arguments)
}

/// `datatype t = A of u and u = B of int`.
fn constants(alloc: Global) -> Result<Vec<bool>, NoMemory> {
    let mut types = Types::new(alloc)?;
    let u = new_name(alloc, &mut types, 101)?;
    let int = named(alloc, &mut types, TyName::INT, None)?;
    two(alloc, &types, u, int)
}

/// `datatype t = A of u and u = B of int -> int`.
fn functions(alloc: Global) -> Result<Vec<bool>, NoMemory> {
    let mut types = Types::new(alloc)?;
    let u = new_name(alloc, &mut types, 101)?;
    let int = named(alloc, &mut types, TyName::INT, None)?;
    let arrow = function(alloc, &mut types, int)?;
    two(alloc, &types, u, arrow)
}

/// `datatype t = A of (u -> u) ref and u = B of t -> t`.
fn references(alloc: Global) -> Result<Vec<bool>, NoMemory> {
    let mut types = Types::new(alloc)?;
    let t = new_name(alloc, &mut types, 100)?;
    let u = new_name(alloc, &mut types, 101)?;
    let from_u = function(alloc, &mut types, u)?;
    let cell = named(alloc, &mut types, TyName::REF, Some(from_u))?;
    let from_t = function(alloc, &mut types, t)?;
    two(alloc, &types, cell, from_t)
}

const LENGTH: usize = 100_000;

/// Each of many datatypes has an argument of the next one's type, and the last one a packet.
fn links(alloc: Global, types: &mut Types) -> Result<Vec<Argument>, NoMemory>
    ensures { IfOk result (λ links. All (λ a. a.datatype < 100000) links.items) }
{
    let mut links = Vec::new(alloc);
    for place in 0..99_999u32 {
        let ty = new_name(alloc, types, place + 101)?;
        links.push(Argument {
            datatype: place as usize,
            ty,
        })?;
    }
    let ty = named(alloc, types, TyName::EXN, None)?;
    links.push(Argument {
        datatype: 99_999,
        ty,
    })?;
    Ok(links)
}

fn chain(alloc: Global) -> Result<Vec<bool>, NoMemory> {
    let mut types = Types::new(alloc)?;
    let links = links(alloc, &mut types)?;
    equality_of_datatypes(alloc, &types, FIRST, LENGTH, links.as_slice())
}

#[test]
fn what_is_made_of_constants_admits_equality(rt: HostRuntime) -> Result<(), Fail> {
    let admit = constants(rt.alloc())?;
    assert_eq!(rt; admit.as_slice(), [true, true].as_slice());
    Ok(())
}

#[test]
fn a_function_inside_is_refused_through_other_datatypes(rt: HostRuntime) -> Result<(), Fail> {
    let admit = functions(rt.alloc())?;
    assert_eq!(rt; admit.as_slice(), [false, false].as_slice());
    Ok(())
}

#[test]
fn references_admit_equality_whatever_they_hold(rt: HostRuntime) -> Result<(), Fail> {
    let admit = references(rt.alloc())?;
    assert_eq!(rt; admit.as_slice(), [true, false].as_slice());
    Ok(())
}

#[test]
fn a_long_chain_is_refused_from_its_end(rt: HostRuntime) -> Result<(), Fail> {
    let admit = chain(rt.alloc())?;
    assert_eq!(rt; admit.len(), 100_000);
    for one in &admit {
        assert!(rt; !*one);
    }
    Ok(())
}
