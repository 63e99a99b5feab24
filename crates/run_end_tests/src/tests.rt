// Variables of classes at the end of a run: what no clause says, that they are bound then.
ghost use Rattle.std.specs.Prelude.{◌≡◌, true};
ghost use Rattle.ty_core.specs.Marks.{is_inhabited};

use elab_state::state::State;
use elab_steps::step::fresh_type;
use elab_types::refused::Refused;
use mlc_base::place::Place;
use run_end::choose::choose_classes;
use std::alloc::Global;
use std::test::Fail;
use ty_core::mark::{Class, Mark};
use ty_core::name::TyName;
use ty_core::ty::Head;
use ty_solve::limit::Limit;
use ty_table::types::View;

const OUTSIDE: Limit = Limit { names: 8, level: 0 };

/// The type name that the first variable of a state is bound to, if it is to one.
fn name_of(state: &State) -> Option<TyName> {
    match state.solver.subst.get(0) {
        None => None,
        Some(ty) => match state.solver.subst.types.view(ty) {
            View::Var(_) => None,
            View::Apply(head, _) => match head {
                Head::Named(name) => Some(*name),
                _ => None,
            },
        },
    }
}

/// What the first variable is bound to, where variables from a number on are looked at.
fn chosen(alloc: Global, mark: Mark, first: usize) -> Result<Option<TyName>, Refused>
    requires { is_inhabited mark ≡ true }
{
    let mut state = State::new(alloc)?;
    fresh_type(alloc, &mut state, mark, OUTSIDE)?;
    choose_classes(alloc, &mut state, Place { file: 0, byte: 0 }, first)?;
    Ok(name_of(&state))
}

/// The class of these.
fn class(int: bool, word: bool, string: bool) -> Mark
    ensures { is_inhabited result ≡ true }
{
    Mark::Class(Class {
        int,
        word,
        char: true,
        string,
    })
}

#[test]
fn a_class_with_int_becomes_int(rt: HostRuntime) -> Result<(), Fail> {
    let mark = class(true, true, true);
    assert_eq!(rt; chosen(rt.alloc(), mark, 0), Ok(Some(TyName::INT)));
    Ok(())
}

#[test]
fn a_class_without_int_becomes_its_first(rt: HostRuntime) -> Result<(), Fail> {
    let mark = class(false, false, true);
    assert_eq!(rt; chosen(rt.alloc(), mark, 0), Ok(Some(TyName::CHAR)));
    Ok(())
}

#[test]
fn a_variable_of_no_class_stays_open(rt: HostRuntime) -> Result<(), Fail> {
    assert_eq!(rt; chosen(rt.alloc(), Mark::Any, 0), Ok(None));
    Ok(())
}

#[test]
fn a_variable_before_the_first_stays_open(rt: HostRuntime) -> Result<(), Fail> {
    let mark = class(true, true, true);
    assert_eq!(rt; chosen(rt.alloc(), mark, 1), Ok(None));
    Ok(())
}
