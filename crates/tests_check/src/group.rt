// Functions that know each other.
ghost use Rattle.std.specs.Prelude.{◌≡◌, ◌↔◌, ◌++◌, ℕ, List, map, true, false, IsTrue, IfOk, length};
ghost use Rattle.ty_core.specs.declared.scheme.Quantified.{Quantified};
ghost use Rattle.ir_tables.specs.Tables.{parameters_of, parameters_at};
ghost use Rattle.ty_table.specs.TypeAt.{type_at};
ghost use Rattle.ir_poly.specs.Types.{are_new};
ghost use Rattle.ir_known.specs.Knows.{known_of, marks_of};
ghost use Rattle.tests_check.specs.Fits.{FunsNew};
ghost use Rattle.plain_tree.specs.TreeOf.{funs_of, function_of};
ghost use Rattle.tests_check.specs.Reads.{reading};
ghost use Rattle.tests_check.specs.Walk.{Names, Gathers, IsSince, known_as, all};

use crate::opening::leave;
use ir_known::known::{Known, declare};
use ir_known::params::declare_all;
use ir_known::scope::{Mark as Place, Scope};
use ir_known::stack::Stack;
use ir_tables::tables::Tables;
use mlc_base::memory::NoMemory;
use plain_tree::tree::Function;
use ty_core::mark::Mark;

/// What the functions of a group are: of their own group, or generalised over a list of parameters.
#[derive(Clone, Copy)]
pub enum Standing {
    Inside,
    Over(usize),
}

/// What a function of a type is.
fn stand(tables: &Tables, standing: Standing, ty: usize) -> Known
    ensures { known_of tables.now.types (parameters_of tables.now) result ≡ known_as tables.now standing (type_at tables.now.types ty) }
{
    match standing {
        Standing::Inside => Known::Own(ty),
        Standing::Over(parameters) => declare(tables, parameters, ty),
    }
}

/// Binds a group's functions, the last one first, where each is new.
fn bind_functions(
    tables: &Tables,
    scope: &mut Scope,
    standing: Standing,
    functions: &[Function],
) -> Result<bool, NoMemory>
    ensures yes { IfOk result (λ yes. yes ≡ true
        → Gathers tables.now (known_as tables.now standing) scope.old scope.new (funs_of (map (function_of (reading tables.now)) functions.now))) }
    ensures no { IfOk result (λ yes. yes ≡ false → FunsNew (all tables.now scope.old) (funs_of (map (function_of (reading tables.now)) functions.now)) → ⊥) }
{
    let mut left = functions.len();
    while left > 0 {
        left -= 1;
        let function = &functions[left];
        let known = stand(tables, standing, function.ty);
        let new = scope.bind(function.variable, known)?;
        if !new {
            return Ok(false);
        }
    }
    Ok(true)
}

/// Declares a group's parameters and binds its functions for their bodies.
pub fn open_group(
    tables: &Tables,
    marks: &mut Stack<Mark>,
    scope: &mut Scope,
    parameters: usize,
    functions: &[Function],
) -> Result<bool, NoMemory>
    ensures new { IfOk result (λ yes. yes ≡ true → are_new (parameters_at (parameters_of tables.now) parameters) (marks_of marks.old) ≡ true) }
    ensures yes { IfOk result (λ yes. yes ≡ true
        → Gathers tables.now (known_as tables.now Standing.Inside) scope.old scope.new (funs_of (map (function_of (reading tables.now)) functions.now))) }
    ensures no { IfOk result (λ yes. yes ≡ false → are_new (parameters_at (parameters_of tables.now) parameters) (marks_of marks.old) ≡ true
        → FunsNew (all tables.now scope.old) (funs_of (map (function_of (reading tables.now)) functions.now)) → ⊥) }
    ensures declared { IfOk result (λ yes. yes ≡ true → marks_of marks.new ≡ parameters_at (parameters_of tables.now) parameters ++ marks_of marks.old) }
{
    let new = declare_all(marks, tables.parameters(parameters))?;
    if !new {
        return Ok(false);
    }
    let yes = bind_functions(tables, scope, Standing::Inside, functions)?;
    Ok(yes)
}

/// Leaves a group's bodies, and binds its functions for what comes next.
pub fn close_group(
    tables: &Tables,
    marks: &mut Stack<Mark>,
    scope: &mut Scope,
    len: usize,
    place: Place,
    parameters: usize,
    functions: &[Function],
) -> Result<bool, NoMemory>
    ensures yes { (s : Names) → IsSince scope.old s place → IfOk result (λ yes. yes ≡ true
        → Gathers tables.now (known_as tables.now (Standing.Over parameters)) s scope.new (funs_of (map (function_of (reading tables.now)) functions.now))) }
    ensures no { (s : Names) → IsSince scope.old s place → IfOk result (λ yes. yes ≡ false
        → FunsNew (all tables.now s) (funs_of (map (function_of (reading tables.now)) functions.now)) → ⊥) }
    ensures left { (qs D : List Quantified) → marks_of marks.old ≡ qs ++ D → len ≡ length D → IfOk result (λ _. marks_of marks.new ≡ D) }
{
    leave(marks, len);
    scope.restore(place);
    let yes = bind_functions(tables, scope, Standing::Over(parameters), functions)?;
    Ok(yes)
}
