// Annotations in a scope with nothing.

use elab_types::refused::Refused;
use elab_types::scope::TypeScope;
use elab_types::whole::annotation;
use mlc_base::make::{boxed, one};
use mlc_base::memory::NoMemory;
use mlc_base::place::Place;
use mlc_names::names::Name;
use sml_tree::ident::{LongId, Tyvar};
use sml_tree::tree::{Ty, TyPart};
use std::alloc::Global;
use std::test::Fail;
use ty_table::types::Types;

fn place(byte: u32) -> Place {
    Place { file: 0, byte }
}

/// What an annotation becomes in a scope with nothing: the nodes of its type, or why it is refused.
fn nodes_of(alloc: Global, ty: &Ty) -> Result<u64, Refused> {
    let mut types = Types::new(alloc)?;
    let scope = TypeScope::new(alloc);
    let number = annotation(alloc, &mut types, &scope, place(0), ty)?;
    Ok(types.size(number))
}

/// `{} -> {}`
fn unit_to_unit(alloc: Global) -> Result<Ty, NoMemory> {
    let unit = Ty::Record(place(6), Vec::new(alloc));
    let parts = one(
        alloc,
        TyPart {
            place: place(6),
            ty: unit,
        },
    )?;
    let first = boxed(alloc, Ty::Record(place(0), Vec::new(alloc)))?;
    Ok(Ty::Arrow(place(0), first, parts))
}

#[test]
fn a_function_type_has_three_nodes(rt: HostRuntime) -> Result<(), Fail> {
    let ty = unit_to_unit(rt.alloc())?;
    assert_eq!(rt; nodes_of(rt.alloc(), &ty), Ok(3));
    Ok(())
}

#[test]
fn a_type_constructor_that_is_not_bound_is_refused(rt: HostRuntime) -> Result<(), Fail> {
    let name = LongId {
        qualifiers: Vec::new(rt.alloc()),
        id: Name::standard(0),
    };
    let ty = Ty::Con(place(0), Vec::new(rt.alloc()), place(7), name);
    assert_eq!(rt; nodes_of(rt.alloc(), &ty), Err(Refused::Unbound(place(7))));
    Ok(())
}

#[test]
fn a_type_variable_that_is_not_in_scope_is_refused(rt: HostRuntime) -> Result<(), Fail> {
    let tyvar = Tyvar {
        name: Name::standard(0),
        equality: false,
    };
    let ty = Ty::Var(place(3), tyvar);
    assert_eq!(rt; nodes_of(rt.alloc(), &ty), Err(Refused::Broken(place(3))));
    Ok(())
}
