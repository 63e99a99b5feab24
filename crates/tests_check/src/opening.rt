// What bindings, functions and arms bring into scope.
ghost use Rattle.std.specs.Prelude.{◌≡◌, ◌↔◌, ◌++◌, ◌∷◌, ℕ, List, None, Some, true, false, IsTrue, IfOk, length};
ghost use Rattle.ty_core.specs.Types.{Typ};
ghost use Rattle.ty_core.specs.declared.scheme.Quantified.{Quantified};
ghost use Rattle.ty_table.specs.TypeAt.{type_at};
ghost use Rattle.ir_poly.specs.Types.{over};
ghost use Rattle.ir_poly.specs.TestsChecked.{at};
ghost use Rattle.ir_tables.specs.Tables.{parameters_of, parameters_at};
ghost use Rattle.ir_known.specs.Knows.{marks_of};
ghost use Rattle.ir_known.specs.declared.known.Known.TheVariants as known;
ghost use Rattle.tests_check.specs.Walk.{Names, IsOpen, Declares, Takes, TakesNone, Enters, EntersNone, IsSince, all};

use ir_known::ask::result_from;
use ir_known::known::{Known, declare};
use ir_known::params::declare_all;
use ir_known::scope::{Mark as Place, Scope};
use ir_known::stack::Stack;
use ir_known::walk::is_over;
use ir_tables::tables::Tables;
use mlc_base::memory::NoMemory;
use plain_tree::tree::{Binding, Parameter};
use std::alloc::Global;
use ty_core::mark::Mark;

/// Takes parameters out of scope that came in since there were so many.
pub fn leave(marks: &mut Stack<Mark>, len: usize)
    ensures { (qs D : List Quantified) → marks_of marks.old ≡ qs ++ D → len ≡ length D → marks_of marks.new ≡ D }
{
    marks.truncate(len);
}

/// Binds a variable that is new to what a binding declares.
pub fn bind_declared(tables: &Tables, scope: &mut Scope, binding: Binding) -> Result<bool, NoMemory>
    ensures new { IfOk result (λ new. IsTrue new ↔ (at (all tables.now scope.old) binding.variable ≡ None)) }
    ensures bound { IfOk result (λ new. new ≡ true → Declares tables.now scope.old scope.new binding) }
{
    let known = declare(tables, binding.parameters, binding.ty);
    let new = scope.bind(binding.variable, known)?;
    Ok(new)
}

/// Declares the parameters of a binding, over which its type is.
pub fn open_binding(
    alloc: Global,
    tables: &Tables,
    marks: &mut Stack<Mark>,
    binding: Binding,
) -> Result<bool, NoMemory>
    ensures yes { IfOk result (λ yes. yes ≡ true → IsOpen tables.now (marks_of marks.old) binding) }
    ensures no { IfOk result (λ yes. yes ≡ false → IsOpen tables.now (marks_of marks.old) binding → ⊥) }
    ensures declared { IfOk result (λ yes. yes ≡ true
        → marks_of marks.new ≡ parameters_at (parameters_of tables.now) binding.parameters ++ marks_of marks.old) }
{
    let new = declare_all(marks, tables.parameters(binding.parameters))?;
    if !new {
        return Ok(false);
    }
    let yes = is_over(alloc, &tables.types, marks, binding.ty)?;
    Ok(yes)
}

/// Leaves a binding's operation, and binds its variable.
pub fn close_binding(
    tables: &Tables,
    marks: &mut Stack<Mark>,
    scope: &mut Scope,
    len: usize,
    place: Place,
    binding: Binding,
) -> Result<bool, NoMemory>
    ensures new { (s : Names) → IsSince scope.old s place → IfOk result (λ new. IsTrue new ↔ (at (all tables.now s) binding.variable ≡ None)) }
    ensures bound { (s : Names) → IsSince scope.old s place → IfOk result (λ new. new ≡ true → Declares tables.now s scope.new binding) }
    ensures left { (qs D : List Quantified) → marks_of marks.old ≡ qs ++ D → len ≡ length D → IfOk result (λ _. marks_of marks.new ≡ D) }
{
    leave(marks, len);
    scope.restore(place);
    let new = bind_declared(tables, scope, binding)?;
    Ok(new)
}

/// Binds a variable that is new, of a type over the parameters in scope.
pub fn bind_parameter(
    alloc: Global,
    tables: &Tables,
    marks: &Stack<Mark>,
    scope: &mut Scope,
    parameter: Parameter,
) -> Result<bool, NoMemory>
    ensures over { IfOk result (λ yes. yes ≡ true → over (marks_of marks.now) (type_at tables.now.types parameter.ty) ≡ true) }
    ensures new { IfOk result (λ yes. yes ≡ true → at (all tables.now scope.old) parameter.variable ≡ None) }
    ensures no { IfOk result (λ yes. yes ≡ false → over (marks_of marks.now) (type_at tables.now.types parameter.ty) ≡ true
        → at (all tables.now scope.old) parameter.variable ≡ None → ⊥) }
    ensures bound { IfOk result (λ yes. yes ≡ true → scope.new ≡ ((parameter.variable, known.OfType parameter.ty) ∷ scope.old.0, scope.old.1)) }
{
    let yes = is_over(alloc, &tables.types, marks, parameter.ty)?;
    if !yes {
        return Ok(false);
    }
    let new = scope.bind(parameter.variable, Known::OfType(parameter.ty))?;
    Ok(new)
}

/// Binds a parameter of a function of this type, and gives the type of what the function gives.
fn enter_parameter(
    alloc: Global,
    tables: &Tables,
    marks: &Stack<Mark>,
    scope: &mut Scope,
    parameter: Parameter,
    ty: usize,
) -> Result<Option<usize>, NoMemory>
    ensures some { IfOk result (λ found. (v : ℕ) → found ≡ Some v → Takes tables.now (marks_of marks.now) scope.old scope.new parameter ty v) }
    ensures none { IfOk result (λ found. found ≡ None → TakesNone tables.now (marks_of marks.now) scope.old parameter ty) }
{
    let yes = bind_parameter(alloc, tables, marks, scope, parameter)?;
    if !yes {
        return Ok(None);
    }
    Ok(result_from(&tables.types, ty, parameter.ty))
}

/// Goes into a function of this type, and gives the type of its body.
pub fn enter_function(
    alloc: Global,
    tables: &Tables,
    marks: &Stack<Mark>,
    scope: &mut Scope,
    parameters: &[Parameter],
    last: Parameter,
    ty: usize,
) -> Result<Option<usize>, NoMemory>
    ensures some { IfOk result (λ found. (v : ℕ) → found ≡ Some v
        → Enters tables.now (marks_of marks.now) scope.old scope.new parameters.now last ty v) }
    ensures none { IfOk result (λ found. found ≡ None → EntersNone tables.now (marks_of marks.now) scope.old parameters.now last ty) }
{
    let mut rest = ty;
    for i in 0..parameters.len() {
        let parameter = parameters[i];
        let found = enter_parameter(alloc, tables, marks, scope, parameter, rest)?;
        match found {
            Some(given) => rest = given,
            None => return Ok(None),
        }
    }
    scope.enter();
    let body = enter_parameter(alloc, tables, marks, scope, last, rest)?;
    Ok(body)
}
