// What is known: types put for variables, questions along types, and scopes.

use ir_known::image::{Rest, is_image};
use ir_known::known::Known;
use ir_known::params::declare_all;
use ir_known::scope::Scope;
use ir_known::stack::Stack;
use ir_known::walk::{is_equality, is_over};
use ir_tables::tables::Tables;
use ir_uses::images::{for_parameters, in_order};
use mlc_base::memory::NoMemory;
use std::alloc::Global;
use tests_given::given::*;
use ty_core::mark::Mark;

/// Of a type, where the variable 0 is a parameter that admits equality.
#[derive(Clone, Copy)]
enum Ask {
    /// Whether a type is this one with integers put for the variable 0, and the rest for others.
    Image(Rest, usize),
    /// Whether it is over the parameter.
    Over,
    /// Whether it admits equality.
    Equality,
    /// Whether it does where all variables do.
    Everywhere,
}

const ASKED: [(usize, Ask, bool); 21] = [
    (A_TO_A, Ask::Image(Rest::Itself, INT_TO_INT), true),
    (A_TO_A, Ask::Image(Rest::Itself, A_TO_A), false),
    (B, Ask::Image(Rest::Itself, B), true),
    (B, Ask::Image(Rest::Itself, UNIT), false),
    (B, Ask::Image(Rest::Unit, UNIT), true),
    (INT_TO_INT, Ask::Image(Rest::Unit, INT_TO_INT), true),
    (INT, Ask::Over, true),
    (A_TO_A, Ask::Over, true),
    (B, Ask::Over, false),
    (SWAPPED, Ask::Over, false),
    (INT, Ask::Equality, true),
    (A, Ask::Equality, true),
    (B, Ask::Equality, false),
    (SWAPPED, Ask::Equality, false),
    (INT_TO_INT, Ask::Equality, false),
    (EXN, Ask::Equality, false),
    (INT, Ask::Everywhere, true),
    (B, Ask::Everywhere, true),
    (SWAPPED, Ask::Everywhere, true),
    (A_TO_A, Ask::Everywhere, false),
    (EXN, Ask::Everywhere, false),
];

fn is_integers(
    alloc: Global,
    tables: &Tables,
    rest: Rest,
    body: usize,
    ty: usize,
) -> Result<bool, NoMemory> {
    let images = in_order(alloc, &[INT])?;
    is_image(alloc, &tables.types, &images, rest, body, ty)
}

fn answer(
    alloc: Global,
    tables: &Tables,
    scope: &Stack<Mark>,
    ty: usize,
    ask: Ask,
) -> Result<bool, NoMemory> {
    match ask {
        Ask::Image(rest, image) => is_integers(alloc, tables, rest, ty, image),
        Ask::Over => is_over(alloc, &tables.types, scope, ty),
        Ask::Equality => is_equality(alloc, &tables.types, scope, ty),
        Ask::Everywhere => Ok(tables.types.admits_eq_everywhere(ty)),
    }
}

/// The first question with another answer.
fn wrong(alloc: Global, tables: &Tables, scope: &Stack<Mark>) -> Result<Option<usize>, NoMemory> {
    for i in 0..ASKED.len() {
        let (ty, ask, wanted) = ASKED[i];
        let said = answer(alloc, tables, scope, ty, ask)?;
        if said != wanted {
            return Ok(Some(i));
        }
    }
    Ok(None)
}

/// The first question with another answer, where the variable 0 is a parameter that admits equality.
pub fn wrong_inside(alloc: Global, tables: &Tables) -> Result<Option<usize>, NoMemory> {
    let mut scope: Stack<Mark> = Stack::new(alloc);
    let _ = declare_all(&mut scope, tables.parameters(EQUAL))?;
    wrong(alloc, tables, &scope)
}

/// Whether integers are put for the variable 0, and nothing for another, where they are put for one parameter.
pub fn are_images(alloc: Global, tables: &Tables) -> Result<bool, NoMemory> {
    let parameters = tables.parameters(ANY);
    if parameters.len() != 1 {
        return Ok(false);
    }
    let images = for_parameters(alloc, parameters, &[INT])?;
    Ok((images.get(0), images.get(1)) == (Some(INT), None))
}

/// Whether a variable is known at all, and in the function that was gone into last.
fn known(scope: &Scope, variable: usize) -> (bool, bool) {
    (
        scope.find(variable).is_some(),
        scope.find_local(variable).is_some(),
    )
}

/// Binds the variables 4, which is there, and 5. Whether they were new.
fn bind_inside(scope: &mut Scope) -> Result<(bool, bool), NoMemory> {
    scope.enter();
    let again = scope.bind(4, Known::OfType(1))?;
    let new = scope.bind(5, Known::Own(2))?;
    Ok((again, new))
}

/// Whether a function inside knows the variable around it and its own, and only the former is known behind it.
fn goes_in_and_out(scope: &mut Scope) -> Result<bool, NoMemory> {
    let _ = scope.bind(4, Known::OfType(0))?;
    let mark = scope.mark();
    let bound = bind_inside(scope)?;
    let inside = (known(scope, 4), known(scope, 5));
    scope.restore(mark);
    let outside = (known(scope, 4), known(scope, 5));
    let right = inside == ((true, false), (true, true))
        && outside == ((true, true), (false, false));
    Ok(right && bound == (false, true))
}

pub fn scopes_hold(alloc: Global) -> Result<bool, NoMemory> {
    let mut scope = Scope::new(alloc);
    goes_in_and_out(&mut scope)
}
