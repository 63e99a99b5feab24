// Whether all that is named is in scope.
ghost use Rattle.std.specs.Prelude.{◌≡◌, ◌↔◌, ◌∷◌, ◌++◌, length, map, IsTrue, IfOk};
ghost use Rattle.std.specs.List.{AllByRecursion};
ghost use Rattle.first_values.specs.WellFormed.{AreIn, IsTest, IsCallee};
ghost use Rattle.first_known.specs.Takings.{takings_of};
ghost use Rattle.first_tables.specs.TablesOf.{tables_of, test_of, callee_of};
ghost use Rattle.ssa_tree.specs.TreeOf.{tree_of, step_of, arm_of, fun_of};
ghost use Rattle.ssa_form.specs.Labels.{label_of, labels_of};
ghost use Rattle.ssa_form.specs.Scoped.{StepScoped, StepsScoped, ArmScoped, GuardScoped, FunScoped, Grew, bound_by, labels_by, after, labels_after};
ghost use Rattle.ir_ssa.specs.WellFormed.{IsScoped, AllScoped};

use crate::labels::{Label, is_forward, is_label, label_at};
use first_known::answers::both;
use first_known::calls::{Taking, is_callee};
use first_known::operations::{is_plain, is_test};
use first_known::scope::Scope;
use first_tables::operation::{Callee, Test};
use first_tables::tables::Tables;
use mlc_base::make::one;
use mlc_base::memory::NoMemory;
use ssa_tree::tree::{Arm, Body, Fun, Step};
use std::alloc::Global;

fn test_is_scoped(tables: &Tables, scope: &Scope, test: Test, operands: &[usize]) -> bool
    ensures { IsTrue result ↔ (IsTest (tables_of tables.now) (test_of test) (length operands.now) × AreIn scope.now operands.now) }
{
    both(
        is_test(tables, test, operands.len()),
        scope.has_all(operands),
    )
}

fn call_is_scoped(
    tables: &Tables,
    arities: &[usize],
    takings: &[Taking],
    scope: &Scope,
    callee: Callee,
    operands: &[usize],
) -> bool
    requires { takings.now ≡ takings_of arities.now (tables_of tables.now).sets }
    ensures { IsTrue result
        ↔ (IsCallee (tables_of tables.now) arities.now scope.now (callee_of callee) (length operands.now) × AreIn scope.now operands.now) }
{
    both(
        is_callee(tables, arities, takings, scope, callee, operands.len()),
        scope.has_all(operands),
    )
}

/// A body, inside a handler or not; scope and labels stay as they were.
#[cycle(scoped)]
fn body_is_scoped(
    alloc: Global,
    tables: &Tables,
    arities: &[usize],
    takings: &[Taking],
    scope: &mut Scope,
    labels: &mut Vec<Label>,
    guarded: bool,
    body: &Body,
) -> Result<bool, NoMemory>
    requires { takings.now ≡ takings_of arities.now (tables_of tables.now).sets }
    ensures scoped { IfOk result (λ yes. IsTrue yes
        ↔ IsScoped (tables_of tables.now) arities.now scope.old (labels_of labels.old.items) guarded (tree_of body.now)) }
    ensures kept { IfOk result (λ _. scope.new ≡ scope.old) }
    ensures labels { IfOk result (λ _. labels.new.items ≡ labels.old.items) }
{
    match body {
        Body::Steps(steps, rest) => {
            let len = scope.len();
            let known = labels.len();
            let before = steps_are_scoped(
                alloc, tables, arities, takings, scope, labels, guarded, steps,
            )?;
            let ends = body_is_scoped(
                alloc, tables, arities, takings, scope, labels, guarded, rest,
            )?;
            scope.truncate(len);
            labels.truncate(known);
            Ok(both(before, ends))
        }
        Body::Guard {
            label,
            body,
            packet,
            handler,
        } => {
            let inside = guarded_is_scoped(
                alloc, tables, arities, takings, scope, labels, *label, body,
            )?;
            let handled = handler_is_scoped(
                alloc, tables, arities, takings, scope, labels, guarded, *packet, handler,
            )?;
            Ok(both(inside, handled))
        }
        Body::Switch(cell, arms, last) => {
            let here = scope.has(*cell);
            let fit = arms_are_scoped(
                alloc, tables, arities, takings, scope, labels, guarded, arms,
            )?;
            let ends = body_is_scoped(
                alloc, tables, arities, takings, scope, labels, guarded, last,
            )?;
            Ok(both(here, both(fit, ends)))
        }
        Body::Goto(label, operands) => Ok(both(
            is_forward(labels, *label, operands.len()),
            scope.has_all(operands),
        )),
        Body::Jump(_, label, operands) => Ok(both(
            is_label(labels, *label, operands.len()),
            scope.has_all(operands),
        )),
        Body::Tail(_, callee, operands) => Ok(both(
            !guarded,
            call_is_scoped(tables, arities, takings, scope, *callee, operands),
        )),
        Body::Ret(variable) => Ok(both(!guarded, scope.has(*variable))),
        Body::Raise(packet) => Ok(scope.has(*packet)),
    }
}

/// Steps; what is in scope, and labels, are what they are after them.
#[cycle(scoped)]
fn steps_are_scoped(
    alloc: Global,
    tables: &Tables,
    arities: &[usize],
    takings: &[Taking],
    scope: &mut Scope,
    labels: &mut Vec<Label>,
    guarded: bool,
    steps: &[Step],
) -> Result<bool, NoMemory>
    requires { takings.now ≡ takings_of arities.now (tables_of tables.now).sets }
    ensures scoped { IfOk result (λ yes. IsTrue yes
        ↔ StepsScoped (tables_of tables.now) arities.now scope.old (labels_of labels.old.items) guarded (map step_of steps.now)) }
    ensures bound { IfOk result (λ _. scope.new ≡ after (map step_of steps.now) scope.old) }
    ensures labels { IfOk result (λ _. labels_of labels.new.items ≡ labels_after (map step_of steps.now) (labels_of labels.old.items)) }
    ensures grew { IfOk result (λ _. Grew labels.old.items labels.new.items) }
{
    let mut all = true;
    for i in 0..steps.len() {
        let step = &steps[i];
        let here = step_is_scoped(
            alloc, tables, arities, takings, scope, labels, guarded, step,
        )?;
        all = both(all, here);
    }
    Ok(all)
}

/// A step; what it binds comes into scope.
#[cycle(scoped)]
fn step_is_scoped(
    alloc: Global,
    tables: &Tables,
    arities: &[usize],
    takings: &[Taking],
    scope: &mut Scope,
    labels: &mut Vec<Label>,
    guarded: bool,
    step: &Step,
) -> Result<bool, NoMemory>
    requires { takings.now ≡ takings_of arities.now (tables_of tables.now).sets }
    ensures scoped { IfOk result (λ yes. IsTrue yes
        ↔ StepScoped (tables_of tables.now) arities.now scope.old (labels_of labels.old.items) guarded (step_of step.now)) }
    ensures bound { IfOk result (λ _. scope.new ≡ bound_by (step_of step.now) ++ scope.old) }
    ensures labels { IfOk result (λ _. labels_of labels.new.items ≡ labels_by (step_of step.now) ++ labels_of labels.old.items) }
    ensures grew { IfOk result (λ _. Grew labels.old.items labels.new.items) }
{
    match step {
        Step::Plain(plain, operands, variable) => {
            let yes = both(
                is_plain(tables, *plain, operands.len()),
                scope.has_all(operands),
            );
            scope.bind(*variable)?;
            Ok(yes)
        }
        Step::Make(_, pieces, variable) => {
            let yes = scope.has_pieces(pieces);
            scope.bind(*variable)?;
            Ok(yes)
        }
        Step::Call(_, callee, operands, variable) => {
            let yes = call_is_scoped(tables, arities, takings, scope, *callee, operands);
            scope.bind(*variable)?;
            Ok(yes)
        }
        Step::Attempt(_, _, operands, variable, raised) => {
            let yes = scope.has_all(operands);
            scope.bind(*variable)?;
            let other = body_is_scoped(
                alloc, tables, arities, takings, scope, labels, guarded, raised,
            )?;
            Ok(both(yes, other))
        }
        Step::Turn(_) => Ok(true),
        Step::Label(params, body) => {
            let label = Label {
                takes: params.len(),
                loops: false,
            };
            let yes = labelled_is_scoped(
                alloc, tables, arities, takings, scope, labels, guarded, label, body,
            )?;
            scope.bind_all(params)?;
            Ok(yes)
        }
        Step::Again(params, body) => {
            let label = Label {
                takes: params.len(),
                loops: true,
            };
            let yes = labelled_is_scoped(
                alloc, tables, arities, takings, scope, labels, guarded, label, body,
            )?;
            scope.bind_all(params)?;
            labels.push(label)?;
            Ok(yes)
        }
        Step::When(test, operands, other) => {
            let yes = test_is_scoped(tables, scope, *test, operands);
            let fits = body_is_scoped(
                alloc, tables, arities, takings, scope, labels, guarded, other,
            )?;
            Ok(both(yes, fits))
        }
        Step::Unless(test, operands, other) => {
            let yes = test_is_scoped(tables, scope, *test, operands);
            let fits = body_is_scoped(
                alloc, tables, arities, takings, scope, labels, guarded, other,
            )?;
            Ok(both(yes, fits))
        }
        Step::Case {
            cell,
            tag: _,
            others,
            last,
        } => {
            let yes = scope.has(*cell);
            let fit = arms_are_scoped(
                alloc, tables, arities, takings, scope, labels, guarded, others,
            )?;
            let ends = body_is_scoped(
                alloc, tables, arities, takings, scope, labels, guarded, last,
            )?;
            Ok(both(yes, both(fit, ends)))
        }
    }
}

/// A body with one label more.
#[cycle(scoped)]
fn labelled_is_scoped(
    alloc: Global,
    tables: &Tables,
    arities: &[usize],
    takings: &[Taking],
    scope: &mut Scope,
    labels: &mut Vec<Label>,
    guarded: bool,
    label: Label,
    body: &Body,
) -> Result<bool, NoMemory>
    requires { takings.now ≡ takings_of arities.now (tables_of tables.now).sets }
    ensures scoped { IfOk result (λ yes. IsTrue yes
        ↔ IsScoped (tables_of tables.now) arities.now scope.old (label_of label ∷ labels_of labels.old.items) guarded (tree_of body.now)) }
    ensures kept { IfOk result (λ _. scope.new ≡ scope.old) }
    ensures labels { IfOk result (λ _. labels.new.items ≡ labels.old.items) }
{
    let known = labels.len();
    labels.push(label)?;
    let yes = body_is_scoped(
        alloc, tables, arities, takings, scope, labels, guarded, body,
    )?;
    labels.truncate(known);
    Ok(yes)
}

/// A body under a handler, which has one label.
#[cycle(scoped)]
fn guarded_is_scoped(
    alloc: Global,
    tables: &Tables,
    arities: &[usize],
    takings: &[Taking],
    scope: &mut Scope,
    labels: &[Label],
    label: usize,
    body: &Body,
) -> Result<bool, NoMemory>
    requires { takings.now ≡ takings_of arities.now (tables_of tables.now).sets }
    ensures scoped { IfOk result (λ yes. IsTrue yes
        ↔ GuardScoped (tables_of tables.now) arities.now scope.old (labels_of labels.now) label (tree_of body.now)) }
    ensures kept { IfOk result (λ _. scope.new ≡ scope.old) }
{
    match label_at(labels, label) {
        Some(found) => {
            let mut inner = one(alloc, found)?;
            body_is_scoped(
                alloc, tables, arities, takings, scope, &mut inner, true, body,
            )
        }
        None => Ok(false),
    }
}

/// A handler, where its packet is in scope.
#[cycle(scoped)]
fn handler_is_scoped(
    alloc: Global,
    tables: &Tables,
    arities: &[usize],
    takings: &[Taking],
    scope: &mut Scope,
    labels: &mut Vec<Label>,
    guarded: bool,
    packet: usize,
    handler: &Body,
) -> Result<bool, NoMemory>
    requires { takings.now ≡ takings_of arities.now (tables_of tables.now).sets }
    ensures scoped { IfOk result (λ yes. IsTrue yes
        ↔ IsScoped (tables_of tables.now) arities.now (packet ∷ scope.old) (labels_of labels.old.items) guarded (tree_of handler.now)) }
    ensures kept { IfOk result (λ _. scope.new ≡ scope.old) }
    ensures labels { IfOk result (λ _. labels.new.items ≡ labels.old.items) }
{
    let len = scope.len();
    scope.bind(packet)?;
    let yes = body_is_scoped(
        alloc, tables, arities, takings, scope, labels, guarded, handler,
    )?;
    scope.truncate(len);
    Ok(yes)
}

#[cycle(scoped)]
fn arms_are_scoped(
    alloc: Global,
    tables: &Tables,
    arities: &[usize],
    takings: &[Taking],
    scope: &mut Scope,
    labels: &mut Vec<Label>,
    guarded: bool,
    arms: &[Arm],
) -> Result<bool, NoMemory>
    requires { takings.now ≡ takings_of arities.now (tables_of tables.now).sets }
    ensures scoped { IfOk result (λ yes. IsTrue yes
        ↔ AllByRecursion (ArmScoped (tables_of tables.now) arities.now scope.old (labels_of labels.old.items) guarded) (map arm_of arms.now)) }
    ensures kept { IfOk result (λ _. scope.new ≡ scope.old) }
    ensures labels { IfOk result (λ _. labels.new.items ≡ labels.old.items) }
{
    let mut all = true;
    for i in 0..arms.len() {
        let arm = &arms[i];
        let here = body_is_scoped(
            alloc, tables, arities, takings, scope, labels, guarded, &arm.body,
        )?;
        all = both(all, here);
    }
    Ok(all)
}

fn fun_is_scoped(
    alloc: Global,
    tables: &Tables,
    arities: &[usize],
    takings: &[Taking],
    fun: &Fun,
) -> Result<bool, NoMemory>
    requires { takings.now ≡ takings_of arities.now (tables_of tables.now).sets }
    ensures { IfOk result (λ yes. IsTrue yes ↔ FunScoped (tables_of tables.now) arities.now (fun_of fun.now)) }
{
    let mut scope = Scope::new(alloc);
    scope.bind_all(&fun.params)?;
    let mut labels = Vec::new(alloc);
    body_is_scoped(
        alloc,
        tables,
        arities,
        takings,
        &mut scope,
        &mut labels,
        false,
        &fun.body,
    )
}

/// Whether all that the functions name is in scope, in functions that take so many arguments.
pub fn are_scoped(
    alloc: Global,
    tables: &Tables,
    arities: &[usize],
    takings: &[Taking],
    funs: &[Fun],
) -> Result<bool, NoMemory>
    requires { takings.now ≡ takings_of arities.now (tables_of tables.now).sets }
    ensures { IfOk result (λ yes. IsTrue yes ↔ AllByRecursion (FunScoped (tables_of tables.now) arities.now) (map fun_of funs.now)) }
{
    let mut all = true;
    for i in 0..funs.len() {
        let here = fun_is_scoped(alloc, tables, arities, takings, &funs[i])?;
        all = both(all, here);
    }
    Ok(all)
}
