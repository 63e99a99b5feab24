// Classes of overloaded types that are left open: each variable of one stands for the default of its class.
ghost use Rattle.std.specs.Prelude.{◌≡◌, ◌<◌, ℕ, IfOk};
ghost use Rattle.ty_core.specs.Marks.{overloaded};
ghost use Rattle.ty_core.specs.Types.{var, con, none, name as named};
ghost use Rattle.ty_core.specs.declared.mark.Mark.{Mark};
ghost use Rattle.ty_table.specs.TypeAt.{type_at};
ghost use Rattle.ty_solve.specs.Substitution.{free};
ghost use Rattle.elab_state.specs.States.{dead_level, limit_in, made, said_in, types_in};
ghost use Rattle.elab_steps.specs.Growing.{Always, Grows, HasType};
ghost use Rattle.elab_steps.specs.World.{type_of};
ghost use Rattle.elab_worlds.specs.Final.{default_of};
ghost use Rattle.run_end.specs.Chosen.{AreChosen, HasDefault, IsChosen, IsNamed, LeavesOthers};

use elab_state::state::State;
use elab_types::refused::Refused;
use mlc_base::memory::NoMemory;
use mlc_base::place::Place;
use std::alloc::Global;
use ty_core::mark::{Class, Mark};
use ty_core::name::TyName;
use ty_core::ty::Head;
use ty_solve::refused::UnifyRefused;

/// The first of int, word, char and string that a class has.
fn default_name(class: Class) -> TyName
    ensures { result ≡ overloaded (default_of class) }
{
    if class.int {
        TyName::INT
    } else if class.word {
        TyName::WORD
    } else if class.char {
        TyName::CHAR
    } else {
        TyName::STRING
    }
}

/// The type that is a variable of the state.
fn variable_type(alloc: Global, state: &mut State, variable: usize) -> Result<usize, NoMemory>
    requires held { variable < made state.old }
    requires live { (limit_in state.old variable).level < dead_level }
    ensures grows { IfOk result (λ _. Grows state.old state.new) }
    ensures ty { IfOk result (λ r. HasType state.new r) }
    ensures is { IfOk result (λ r. type_at (types_in state.new) r ≡ var variable) }
    ensures said { IfOk result (λ _. said_in state.new ≡ said_in state.old) }
    ensures next { IfOk result (λ _. state.new.next ≡ state.old.next) }
{
    state.solver.variable(alloc, variable)
}

/// The type of a type name without arguments.
fn named_type(alloc: Global, state: &mut State, name: TyName) -> Result<usize, NoMemory>
    ensures grows { IfOk result (λ _. Grows state.old state.new) }
    ensures ty { IfOk result (λ r. HasType state.new r) }
    ensures is { IfOk result (λ r. type_at (types_in state.new) r ≡ con (named name) none) }
    ensures said { IfOk result (λ _. said_in state.new ≡ said_in state.old) }
    ensures next { IfOk result (λ _. state.new.next ≡ state.old.next) }
{
    state.solver.apply(alloc, Head::Named(name), &[])
}

/// Lets an open variable stand for a type name without arguments. Nothing else changes.
fn bind(
    alloc: Global,
    state: &mut State,
    place: Place,
    variable: usize,
    own: usize,
    ty: usize,
) -> Result<(), Refused>
    requires own { HasType state.old own }
    requires ty { HasType state.old ty }
    requires is_variable { type_at (types_in state.old) own ≡ var variable }
    requires is_named { IsNamed (type_at (types_in state.old) ty) }
    requires is_free { (k : Mark) × (said_in state.old variable ≡ free k) }
    ensures grows { IfOk result (λ _. Grows state.old state.new) }
    ensures equal { IfOk result (λ _. Always state.new (λ W. type_of W own ≡ type_of W ty)) }
    ensures others { IfOk result (λ _. LeavesOthers state.old state.new variable) }
    ensures next { IfOk result (λ _. state.new.next ≡ state.old.next) }
{
    match state.solver.unify(alloc, own, ty) {
        Ok(()) => Ok(()),
        Err(UnifyRefused::Memory) => Err(Refused::Memory),
        Err(UnifyRefused::Large) => Err(Refused::Large(place)),
        Err(_) => Err(Refused::Mistyped(place)),
    }
}

/// Chooses the default for an open variable of a class.
fn choose_one(
    alloc: Global,
    state: &mut State,
    place: Place,
    variable: usize,
    class: Class,
) -> Result<(), Refused>
    requires held { variable < made state.old }
    requires live { (limit_in state.old variable).level < dead_level }
    requires is_free { said_in state.old variable ≡ free (Mark.Class class) }
    ensures grows { IfOk result (λ _. Grows state.old state.new) }
    ensures chosen { IfOk result (λ _. Always state.new (HasDefault variable class)) }
    ensures others { IfOk result (λ _. LeavesOthers state.old state.new variable) }
    ensures next { IfOk result (λ _. state.new.next ≡ state.old.next) }
{
    let own = variable_type(alloc, state, variable)?;
    let ty = named_type(alloc, state, default_name(class))?;
    bind(alloc, state, place, variable, own, ty)
}

/// The same of a variable that is open, of a class, and not done with.
fn choose_if(alloc: Global, state: &mut State, place: Place, variable: usize) -> Result<(), Refused>
    requires held { variable < made state.old }
    ensures grows { IfOk result (λ _. Grows state.old state.new) }
    ensures chosen { IfOk result (λ _. IsChosen state.old state.new variable) }
    ensures others { IfOk result (λ _. LeavesOthers state.old state.new variable) }
    ensures next { IfOk result (λ _. state.new.next ≡ state.old.next) }
{
    let reach = state.solver.limits[variable].level;
    if reach >= usize::MAX {
        return Ok(());
    }
    match state.solver.subst.mark_of(variable) {
        Mark::Class(class) => choose_one(alloc, state, place, variable, class),
        _ => Ok(()),
    }
}

/// How many variables were made: where those of a run begin that is still to come.
pub fn variables_made(state: &State) -> usize
    ensures { result ≡ made state.now }
{
    state.solver.limits.len()
}

/// Chooses the default for each variable from the first one on that is open, of a class, and not done with.
pub fn choose_classes(
    alloc: Global,
    state: &mut State,
    place: Place,
    first: usize,
) -> Result<(), Refused>
    ensures grows { IfOk result (λ _. Grows state.old state.new) }
    ensures chosen { IfOk result (λ _. AreChosen state.old state.new first) }
    ensures next { IfOk result (λ _. state.new.next ≡ state.old.next) }
{
    for v in first..state.solver.limits.len() {
        choose_if(alloc, state, place, v)?;
    }
    Ok(())
}
