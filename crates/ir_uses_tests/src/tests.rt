// Each part over the same tables. One function owns them, since each that does takes long to prove.

use crate::uses::{INTEGER, PACKER};
use crate::{constructors, known, primitives, records, uses};
use ir_tables::tables::Tables;
use ir_uses::exception::exception_argument;
use mlc_base::memory::NoMemory;
use std::alloc::Global;
use std::test::Fail;
use tests_given::given::{INT, make_tables};

#[derive(Clone, Copy)]
enum Part {
    Constructors,
    Primitives,
    Records,
    AlongTypes,
    Images,
    UsesAlone,
    UsesInside,
    Parameters,
}

/// A place, where something isn't so that has none.
fn place(right: bool) -> Option<usize> {
    if right { None } else { Some(0) }
}

fn wrong_over(alloc: Global, tables: &Tables, part: Part) -> Result<Option<usize>, NoMemory> {
    match part {
        Part::Constructors => constructors::wrong(alloc, tables),
        Part::Primitives => primitives::wrong(alloc, tables),
        Part::Records => Ok(records::wrong(tables)),
        Part::AlongTypes => known::wrong_inside(alloc, tables),
        Part::UsesAlone => uses::wrong_alone(alloc, tables),
        Part::UsesInside => uses::wrong_inside(alloc, tables),
        Part::Images => Ok(place(known::are_images(alloc, tables)?)),
        Part::Parameters => Ok(place(uses::is_declared_once(alloc, tables)?)),
    }
}

/// The first question of a part with another answer.
fn wrong(alloc: Global, part: Part) -> Result<Option<usize>, NoMemory> {
    let tables = make_tables(alloc, 7)?;
    wrong_over(alloc, &tables, part)
}

#[test]
fn constructors(rt: HostRuntime) -> Result<(), Fail> {
    assert_eq!(rt; wrong(rt.alloc(), Part::Constructors)?, None);
    Ok(())
}

#[test]
fn primitives(rt: HostRuntime) -> Result<(), Fail> {
    assert_eq!(rt; wrong(rt.alloc(), Part::Primitives)?, None);
    Ok(())
}

#[test]
fn records(rt: HostRuntime) -> Result<(), Fail> {
    assert_eq!(rt; wrong(rt.alloc(), Part::Records)?, None);
    Ok(())
}

#[test]
fn along_types(rt: HostRuntime) -> Result<(), Fail> {
    assert_eq!(rt; wrong(rt.alloc(), Part::AlongTypes)?, None);
    Ok(())
}

#[test]
fn uses_alone(rt: HostRuntime) -> Result<(), Fail> {
    assert_eq!(rt; wrong(rt.alloc(), Part::UsesAlone)?, None);
    Ok(())
}

#[test]
fn uses_under_a_parameter(rt: HostRuntime) -> Result<(), Fail> {
    assert_eq!(rt; wrong(rt.alloc(), Part::UsesInside)?, None);
    Ok(())
}

#[test]
fn images_of_parameters(rt: HostRuntime) -> Result<(), Fail> {
    assert_eq!(rt; wrong(rt.alloc(), Part::Images)?, None);
    Ok(())
}

#[test]
fn parameters(rt: HostRuntime) -> Result<(), Fail> {
    assert_eq!(rt; wrong(rt.alloc(), Part::Parameters)?, None);
    Ok(())
}

#[test]
fn arguments_of_exceptions(rt: HostRuntime) {
    assert_eq!(rt; exception_argument(PACKER), Some(Some(INT)));
    assert_eq!(rt; exception_argument(INTEGER), None);
}

#[test]
fn datatypes(rt: HostRuntime) -> Result<(), Fail> {
    assert_eq!(rt; constructors::wrong_datatype(rt.alloc())?, None);
    Ok(())
}

#[test]
fn scopes(rt: HostRuntime) -> Result<(), Fail> {
    assert!(rt; known::scopes_hold(rt.alloc())?);
    Ok(())
}
