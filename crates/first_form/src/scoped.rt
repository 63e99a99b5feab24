// Whether all that is named is in scope.
ghost use Rattle.std.specs.Prelude.{◌≡◌, ◌↔◌, ◌∷◌, ◌++◌, length, map, IsTrue, IfOk};
ghost use Rattle.first_values.specs.WellFormed.{AreIn, IsTest};
ghost use Rattle.std.specs.List.{AllByRecursion};
ghost use Rattle.first_known.specs.Takings.{takings_of};
ghost use Rattle.first_tables.specs.TablesOf.{tables_of, test_of};
ghost use Rattle.first_tree.specs.TreeOf.{tree_of, step_of, arm_of, arms_of, operation_of, fun_of};
ghost use Rattle.first_form.specs.Scoped.{StepScoped, StepsScoped, bound_by, after, FunScoped};
ghost use Rattle.ir_first.specs.WellFormed.{IsScoped, OpScoped, ArmsScoped};

use first_known::answers::both;
use first_known::calls::{Taking, is_callee};
use first_known::operations::{is_plain, is_test};
use first_known::scope::Scope;
use first_tables::operation::Test;
use first_tables::tables::Tables;
use first_tree::tree::{Arm, Exp, Fun, Operation, Step};
use mlc_base::memory::NoMemory;
use std::alloc::Global;

fn operation_is_scoped(
    tables: &Tables,
    arities: &[usize],
    takings: &[Taking],
    scope: &Scope,
    operation: &Operation,
) -> bool
    requires { takings.now ≡ takings_of arities.now (tables_of tables.now).sets }
    ensures { IsTrue result ↔ OpScoped (tables_of tables.now) arities.now scope.now (operation_of operation.now) }
{
    match operation {
        Operation::Plain(plain, operands) => both(
            is_plain(tables, *plain, operands.len()),
            scope.has_all(operands),
        ),
        Operation::Make(_, pieces) => scope.has_pieces(pieces),
        Operation::Attempt(_, _, operands) => scope.has_all(operands),
        Operation::Call(_, callee, operands) => both(
            is_callee(tables, arities, takings, scope, *callee, operands.len()),
            scope.has_all(operands),
        ),
        Operation::Raise(packet) => scope.has(*packet),
    }
}

fn test_is_scoped(tables: &Tables, scope: &Scope, test: Test, operands: &[usize]) -> bool
    ensures { IsTrue result ↔ (IsTest (tables_of tables.now) (test_of test) (length operands.now) × AreIn scope.now operands.now) }
{
    both(
        is_test(tables, test, operands.len()),
        scope.has_all(operands),
    )
}

/// An expression; the scope stays as it was.
#[cycle(scoped)]
fn exp_is_scoped(
    tables: &Tables,
    arities: &[usize],
    takings: &[Taking],
    scope: &mut Scope,
    e: &Exp,
) -> Result<bool, NoMemory>
    requires { takings.now ≡ takings_of arities.now (tables_of tables.now).sets }
    ensures scoped { IfOk result (λ yes. IsTrue yes ↔ IsScoped (tables_of tables.now) arities.now scope.old (tree_of e.now)) }
    ensures kept { IfOk result (λ _. scope.new ≡ scope.old) }
{
    match e {
        Exp::Steps(steps, rest) => {
            let len = scope.len();
            let before = steps_are_scoped(tables, arities, takings, scope, steps)?;
            let ends = exp_is_scoped(tables, arities, takings, scope, rest)?;
            scope.truncate(len);
            Ok(both(before, ends))
        }
        Exp::Ret(variable) => Ok(scope.has(*variable)),
        Exp::Switch(cell, arms) => {
            let here = scope.has(*cell);
            let fit = arms_are_scoped(tables, arities, takings, scope, arms)?;
            Ok(both(here, fit))
        }
        Exp::Miss => Ok(true),
    }
}

/// Steps; the scope is what it is after them.
#[cycle(scoped)]
fn steps_are_scoped(
    tables: &Tables,
    arities: &[usize],
    takings: &[Taking],
    scope: &mut Scope,
    steps: &[Step],
) -> Result<bool, NoMemory>
    requires { takings.now ≡ takings_of arities.now (tables_of tables.now).sets }
    ensures scoped { IfOk result (λ yes. IsTrue yes ↔ StepsScoped (tables_of tables.now) arities.now scope.old (map step_of steps.now)) }
    ensures bound { IfOk result (λ _. scope.new ≡ after (map step_of steps.now) scope.old) }
{
    let mut all = true;
    for i in 0..steps.len() {
        let step = &steps[i];
        let here = step_is_scoped(tables, arities, takings, scope, step)?;
        all = both(all, here);
    }
    Ok(all)
}

/// A step; the variable that it binds comes into scope.
#[cycle(scoped)]
fn step_is_scoped(
    tables: &Tables,
    arities: &[usize],
    takings: &[Taking],
    scope: &mut Scope,
    step: &Step,
) -> Result<bool, NoMemory>
    requires { takings.now ≡ takings_of arities.now (tables_of tables.now).sets }
    ensures scoped { IfOk result (λ yes. IsTrue yes ↔ StepScoped (tables_of tables.now) arities.now scope.old (step_of step.now)) }
    ensures bound { IfOk result (λ _. scope.new ≡ bound_by (step_of step.now) ++ scope.old) }
{
    match step {
        Step::Let(variable, operation) => {
            let yes = operation_is_scoped(tables, arities, takings, scope, operation);
            scope.bind(*variable)?;
            Ok(yes)
        }
        Step::Block(variable, body) => {
            let yes = exp_is_scoped(tables, arities, takings, scope, body)?;
            scope.bind(*variable)?;
            Ok(yes)
        }
        Step::Handle {
            variable,
            body,
            packet,
            handler,
        } => {
            let inside = exp_is_scoped(tables, arities, takings, scope, body)?;
            let handled = handler_is_scoped(tables, arities, takings, scope, *packet, handler)?;
            scope.bind(*variable)?;
            Ok(both(inside, handled))
        }
        Step::Turn(_) => Ok(true),
        Step::Try(attempt) => exp_is_scoped(tables, arities, takings, scope, attempt),
        Step::When(test, operands, other) => {
            let yes = test_is_scoped(tables, scope, *test, operands);
            let fits = exp_is_scoped(tables, arities, takings, scope, other)?;
            Ok(both(yes, fits))
        }
        Step::Unless(test, operands, other) => {
            let yes = test_is_scoped(tables, scope, *test, operands);
            let fits = exp_is_scoped(tables, arities, takings, scope, other)?;
            Ok(both(yes, fits))
        }
        Step::Case {
            cell,
            tag: _,
            others,
        } => {
            let yes = scope.has(*cell);
            let fit = arms_are_scoped(tables, arities, takings, scope, others)?;
            Ok(both(yes, fit))
        }
    }
}

/// A handler, where its packet is in scope.
#[cycle(scoped)]
fn handler_is_scoped(
    tables: &Tables,
    arities: &[usize],
    takings: &[Taking],
    scope: &mut Scope,
    packet: usize,
    handler: &Exp,
) -> Result<bool, NoMemory>
    requires { takings.now ≡ takings_of arities.now (tables_of tables.now).sets }
    ensures scoped { IfOk result (λ yes. IsTrue yes ↔ IsScoped (tables_of tables.now) arities.now (packet ∷ scope.old) (tree_of handler.now)) }
    ensures kept { IfOk result (λ _. scope.new ≡ scope.old) }
{
    let len = scope.len();
    scope.bind(packet)?;
    let yes = exp_is_scoped(tables, arities, takings, scope, handler)?;
    scope.truncate(len);
    Ok(yes)
}

#[cycle(scoped)]
fn arms_are_scoped(
    tables: &Tables,
    arities: &[usize],
    takings: &[Taking],
    scope: &mut Scope,
    arms: &[Arm],
) -> Result<bool, NoMemory>
    requires { takings.now ≡ takings_of arities.now (tables_of tables.now).sets }
    ensures scoped { IfOk result (λ yes. IsTrue yes ↔ ArmsScoped (tables_of tables.now) arities.now scope.old (arms_of (map arm_of arms.now))) }
    ensures kept { IfOk result (λ _. scope.new ≡ scope.old) }
{
    let mut all = true;
    for i in 0..arms.len() {
        let arm = &arms[i];
        let here = exp_is_scoped(tables, arities, takings, scope, &arm.body)?;
        all = both(all, here);
    }
    Ok(all)
}

fn fun_is_scoped(
    alloc: Global,
    tables: &Tables,
    arities: &[usize],
    takings: &[Taking],
    fun: &Fun,
) -> Result<bool, NoMemory>
    requires { takings.now ≡ takings_of arities.now (tables_of tables.now).sets }
    ensures { IfOk result (λ yes. IsTrue yes ↔ FunScoped (tables_of tables.now) arities.now (fun_of fun.now)) }
{
    let mut scope = Scope::new(alloc);
    scope.bind_all(&fun.params)?;
    exp_is_scoped(tables, arities, takings, &mut scope, &fun.body)
}

/// Whether all that the functions name is in scope, in functions that take so many arguments.
pub fn are_scoped(
    alloc: Global,
    tables: &Tables,
    arities: &[usize],
    takings: &[Taking],
    funs: &[Fun],
) -> Result<bool, NoMemory>
    requires { takings.now ≡ takings_of arities.now (tables_of tables.now).sets }
    ensures { IfOk result (λ yes. IsTrue yes ↔ AllByRecursion (FunScoped (tables_of tables.now) arities.now) (map fun_of funs.now)) }
{
    let mut all = true;
    for i in 0..funs.len() {
        let here = fun_is_scoped(alloc, tables, arities, takings, &funs[i])?;
        all = both(all, here);
    }
    Ok(all)
}
