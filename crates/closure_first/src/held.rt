// Constants are within their bounds, and strings stand in their table. To know it of a constant, it is read.
ghost use Rattle.std.specs.Prelude.{◌≡◌, ℕ, List};
ghost use Rattle.std.specs.List.{AllByRecursion};
ghost use Rattle.ir_tables.specs.Tables.{literal_at};
ghost use Rattle.plain_tree.specs.TreeOf.{operation_of, case_of};
ghost use Rattle.mono_bound.specs.Reads.{reading, mono_of};
ghost use Rattle.closure_bodies.specs.of_closure_whole.Constants.{IsHeld, CaseHeld, OpHeld, AreHeld};
ghost use Rattle.closure_bodies.specs.of_closure_parts.Settings.{Row, Texts};
ghost use Rattle.closure_bodies.specs.of_closure_steps.Reads.{mono_step, mono_arm, mono_function};
ghost use Rattle.closure_first.specs.Held.{HasEmpty, StepHeld, ArmHeld, MemberHeld};

use ir_tables::tables::Constant;
use plain_tree::tree::{Arm, Case, Exp, Function, Operation, Step};

fn constant_is_held(constant: Constant)
    ensures { (strings : Texts) → HasEmpty strings → IsHeld strings (literal_at strings constant) }
{
    match constant {
        Constant::Int(_) => {}
        Constant::Word(_) => {}
        Constant::Char(_) => {}
        Constant::Text(_) => {}
    }
}

fn case_is_held(case: Case)
    ensures { (types : List Row) (strings : Texts) → HasEmpty strings → CaseHeld strings (case_of (reading types strings) case) }
{
    match case {
        Case::Constant(constant) => constant_is_held(constant),
        Case::Constructor(_) => {}
        Case::ConstructorOf {
            constructor: _,
            argument: _,
        } => {}
        Case::Exception(_) => {}
        Case::ExceptionOf {
            exception: _,
            argument: _,
        } => {}
        Case::Record(_) => {}
    }
}

fn operation_is_held(operation: &Operation)
    ensures { (types : List Row) (strings : Texts) → HasEmpty strings → OpHeld strings (operation_of (reading types strings) operation.now) }
{
    match operation {
        Operation::Constant(constant) => constant_is_held(*constant),
        Operation::Use(_, _) => {}
        Operation::Constructor {
            constructor: _,
            ty: _,
        } => {}
        Operation::Construct {
            place: _,
            constructor: _,
            ty: _,
            argument: _,
        } => {}
        Operation::Reference(_) => {}
        Operation::Refer {
            place: _,
            ty: _,
            argument: _,
        } => {}
        Operation::Content {
            ty: _,
            reference: _,
        } => {}
        Operation::Pack {
            place: _,
            ty: _,
            exception: _,
            argument: _,
        } => {}
        Operation::Record { ty: _, fields: _ } => {}
        Operation::Select {
            ty: _,
            label: _,
            record: _,
        } => {}
        Operation::Primitive(_, _) => {}
        Operation::Perform {
            place: _,
            primitive: _,
            ty: _,
            arguments: _,
        } => {}
        Operation::Apply {
            place: _,
            function: _,
            argument: _,
        } => {}
        Operation::Raise(_) => {}
        Operation::RaiseInitial(_) => {}
    }
}

/// The constants of an expression are held.
#[cycle(held)]
pub fn constants_are_held(e: &Exp)
    ensures { (types : List Row) (strings : Texts) → HasEmpty strings → AreHeld strings (mono_of types strings e.now) }
{
    match e {
        Exp::Steps(steps, rest) => {
            steps_are_held(steps);
            constants_are_held(rest);
        }
        Exp::Ret(_) => {}
        Exp::Switch {
            atom: _,
            ty: _,
            arms,
        } => arms_are_held(arms),
        Exp::First(attempts, last) => {
            all_are_held(attempts);
            constants_are_held(last);
        }
        Exp::Miss => {}
    }
}

#[cycle(held)]
fn steps_are_held(steps: &[Step])
    ensures { (types : List Row) (strings : Texts) → HasEmpty strings → AllByRecursion (λ s. StepHeld strings (mono_step types strings s)) steps.now }
{
    for i in 0..steps.len() {
        let step = &steps[i];
        step_is_held(step);
    }
}

#[cycle(held)]
fn step_is_held(step: &Step)
    ensures { (types : List Row) (strings : Texts) → HasEmpty strings → StepHeld strings (mono_step types strings step.now) }
{
    match step {
        Step::Let(_, operation) => operation_is_held(operation),
        Step::Fn {
            binding: _,
            parameters: _,
            last: _,
            body,
        } => constants_are_held(body),
        Step::Block(_, body) => constants_are_held(body),
        Step::Handle {
            binding: _,
            body,
            packet: _,
            handler,
        } => {
            constants_are_held(body);
            constants_are_held(handler);
        }
        Step::Exception {
            variable: _,
            identifier: _,
            argument: _,
        } => {}
        Step::Name(_, _) => {}
        Step::Group(_, functions) => functions_are_held(functions),
        Step::Test {
            atom: _,
            ty: _,
            case,
            others,
        } => {
            case_is_held(*case);
            arms_are_held(others);
        }
        Step::Counted(_) => {}
    }
}

#[cycle(held)]
fn all_are_held(attempts: &[Exp])
    ensures { (types : List Row) (strings : Texts) → HasEmpty strings → AllByRecursion (λ e. AreHeld strings (mono_of types strings e)) attempts.now }
{
    for i in 0..attempts.len() {
        let attempt = &attempts[i];
        constants_are_held(attempt);
    }
}

#[cycle(held)]
fn arms_are_held(arms: &[Arm])
    ensures { (types : List Row) (strings : Texts) → HasEmpty strings → AllByRecursion (λ a. ArmHeld strings (mono_arm types strings a)) arms.now }
{
    for i in 0..arms.len() {
        let arm = &arms[i];
        arm_is_held(arm);
    }
}

#[cycle(held)]
fn arm_is_held(arm: &Arm)
    ensures { (types : List Row) (strings : Texts) → HasEmpty strings → ArmHeld strings (mono_arm types strings arm.now) }
{
    case_is_held(arm.case);
    constants_are_held(&arm.body);
}

#[cycle(held)]
fn functions_are_held(functions: &[Function])
    ensures { (types : List Row) (strings : Texts) → HasEmpty strings → AllByRecursion (λ f. MemberHeld strings (mono_function types strings f)) functions.now }
{
    for i in 0..functions.len() {
        let function = &functions[i];
        member_is_held(function);
    }
}

#[cycle(held)]
fn member_is_held(function: &Function)
    ensures { (types : List Row) (strings : Texts) → HasEmpty strings → MemberHeld strings (mono_function types strings function.now) }
{
    constants_are_held(&function.body);
}
