// What may be generalised over parameters.
ghost use Rattle.std.specs.Prelude.{◌≡◌, ◌&&◌, map, ℕ};
ghost use Rattle.ir_poly.specs.TestsChecked.{may_generalise};
ghost use Rattle.ir_tables.specs.Tables.{parameters_of, parameters_at};
ghost use Rattle.ir_plain.specs.Tree as clean;
ghost use Rattle.ir_poly.specs.Tests.{poly};
ghost use Rattle.ir_tables.specs.declared.tables.Tables.{Tables as AnyTables};
ghost use Rattle.plain_tree.specs.TreeOf.{tree_of, step_of, arm_of, operation_of, onto, put, firsts, arms_of};
ghost use Rattle.tests_check.specs.Reads.{reading};

use ir_tables::tables::Tables;
use plain_tree::tree::{Arm, Exp, Operation, Step};

/// Whether an operation gives a value.
pub fn is_value_operation(operation: &Operation) -> bool
    ensures { (t : AnyTables) → clean.is_value_op (operation_of (reading t) operation.now) ≡ result }
{
    match operation {
        Operation::Refer {
            place: _,
            ty: _,
            argument: _,
        } => false,
        Operation::Perform {
            place: _,
            primitive: _,
            ty: _,
            arguments: _,
        } => false,
        Operation::Apply {
            place: _,
            function: _,
            argument: _,
        } => false,
        Operation::Raise(_) => false,
        Operation::Use(_, _) => true,
        Operation::Constant(_) => true,
        Operation::Constructor {
            constructor: _,
            ty: _,
        } => true,
        Operation::Construct {
            place: _,
            constructor: _,
            ty: _,
            argument: _,
        } => true,
        Operation::Reference(_) => true,
        Operation::Content {
            ty: _,
            reference: _,
        } => true,
        Operation::Pack {
            place: _,
            ty: _,
            exception: _,
            argument: _,
        } => true,
        Operation::Record { ty: _, fields: _ } => true,
        Operation::Select {
            ty: _,
            label: _,
            record: _,
        } => true,
        Operation::Primitive(_, _) => true,
        Operation::RaiseInitial(_) => true,
    }
}

/// Whether an expression gives a value.
#[cycle(values)]
pub fn is_value(e: &Exp) -> bool
    ensures { (t : AnyTables) → clean.is_value (tree_of (reading t) e.now) ≡ result }
{
    match e {
        Exp::Steps(steps, rest) => are_value_steps(steps) && is_value(rest),
        Exp::Ret(_) => true,
        Exp::Switch {
            atom: _,
            ty: _,
            arms,
        } => are_value_arms(arms),
        Exp::First(attempts, last) => are_values(attempts) && is_value(last),
        Exp::Miss => true,
    }
}

/// Whether each attempt gives a value.
#[cycle(values)]
fn are_values(attempts: &[Exp]) -> bool
    ensures { (t : AnyTables) (d : clean.Exp poly) → clean.is_value (firsts (map (tree_of (reading t)) attempts.now) d) ≡ (result && clean.is_value d) }
{
    for i in 0..attempts.len() {
        let attempt = &attempts[i];
        if !is_value(attempt) {
            return false;
        }
    }
    true
}

/// Whether each arm gives a value.
#[cycle(values)]
fn are_value_arms(arms: &[Arm]) -> bool
    ensures { (t : AnyTables) → clean.are_values (arms_of (map (arm_of (reading t)) arms.now)) ≡ result }
{
    for i in 0..arms.len() {
        let arm = &arms[i];
        if !is_value_arm(arm) {
            return false;
        }
    }
    true
}

/// Whether an arm gives a value.
#[cycle(values)]
fn is_value_arm(arm: &Arm) -> bool
    ensures { (t : AnyTables) → clean.is_value (arm_of (reading t) arm.now).body ≡ result }
{
    is_value(&arm.body)
}

/// Whether each step gives a value.
#[cycle(values)]
fn are_value_steps(steps: &[Step]) -> bool
    ensures { (t : AnyTables) (e : clean.Exp poly) → clean.is_value (onto (map (step_of (reading t)) steps.now) e) ≡ (result && clean.is_value e) }
{
    for i in 0..steps.len() {
        let step = &steps[i];
        if !is_value_step(step) {
            return false;
        }
    }
    true
}

/// Whether a step leaves a value one.
#[cycle(values)]
fn is_value_step(step: &Step) -> bool
    ensures { (t : AnyTables) (e : clean.Exp poly) → clean.is_value (put (step_of (reading t) step.now) e) ≡ (result && clean.is_value e) }
{
    match step {
        Step::Let(_, operation) => is_value_operation(operation),
        Step::Fn {
            binding: _,
            parameters: _,
            last: _,
            body: _,
        } => true,
        Step::Block(_, body) => is_value(body),
        Step::Handle {
            binding: _,
            body: _,
            packet: _,
            handler: _,
        } => false,
        Step::Exception {
            variable: _,
            identifier: _,
            argument: _,
        } => false,
        Step::Name(_, _) => true,
        Step::Group(_, _) => false,
        Step::Test {
            atom: _,
            ty: _,
            case: _,
            others,
        } => are_value_arms(others),
        Step::Counted(_) => true,
    }
}

/// Whether an operation may be generalised over parameters.
pub fn operation_may(tables: &Tables, parameters: usize, operation: &Operation) -> bool
    ensures { may_generalise (parameters_at (parameters_of tables.now) parameters) (operation_of (reading tables.now) operation.now) ≡ result }
{
    tables.parameters(parameters).is_empty() || is_value_operation(operation)
}

/// Whether a block may be generalised over parameters: only then it is looked through.
pub fn block_may(tables: &Tables, parameters: usize, body: &Exp) -> bool
    ensures { may_generalise (parameters_at (parameters_of tables.now) parameters) (clean.block (tree_of (reading tables.now) body.now)) ≡ result }
{
    tables.parameters(parameters).is_empty() || is_value(body)
}

/// Whether there are no parameters, over which a handler may not be generalised.
pub fn handler_may(tables: &Tables, parameters: usize) -> bool
    ensures { (e h : clean.Exp poly) (x : ℕ) → may_generalise (parameters_at (parameters_of tables.now) parameters) (clean.handle e x h) ≡ result }
{
    tables.parameters(parameters).is_empty()
}
