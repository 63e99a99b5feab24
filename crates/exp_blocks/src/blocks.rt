// Tests that stand by themselves, and the steps that have them.
ghost use Rattle.std.specs.Prelude.{◌≡◌, not, suc, map, IfOk};
ghost use Rattle.ir_plain.specs.Tree.{ret, first, block, fn, handle, arm, no_arms, is_con, Fun};
ghost use Rattle.ir_poly.specs.Tests.{Tests, poly};
ghost use Rattle.ir_values.specs.Values.{truth_number as constructor_of};
ghost use Rattle.ty_table.specs.TypeAt.{type_at};
ghost use Rattle.ir_tables.specs.Tables.{parameters_at};
ghost use Rattle.match_compile.specs.Compile.{atom, otherwise, otherwise_op, grouped};
ghost use Rattle.plain_tree.specs.TreeOf.{firsts, arms_of, funs_of, tree_of, operation_of, arm_of, function_of};
ghost use Rattle.exp_steps.specs.of_match_types.Views.{View, Keeps, reading, value_type};
ghost use Rattle.exp_steps.specs.of_match_types.declared.work.ValueType.TheVariants.{Source as OfSource};
ghost use Rattle.exp_steps.specs.of_match_types.declared.work.Work.{Work as State};
ghost use Rattle.exp_steps.specs.of_match_steps.Steps.{Puts, stand};
ghost use Rattle.exp_steps.specs.Making.{Pushed};
ghost use Rattle.exp_blocks.specs.Giving.{Gives, GivesFun, lambda_of, otherwise_of, linking};

use exp_steps::match_types::types::{new_binding, scoped_type};
use exp_steps::match_types::work::{ValueType, Work};
use exp_steps::operations::push_operation;
use mlc_base::make::{boxed, one};
use mlc_base::memory::NoMemory;
use mlc_names::words::{FALSE, TRUE};
use plain_tree::tree::{Arm, Case, Exp, Function, Operation, Parameter, Step};
use std::alloc::Global;

/// What is raised where no rule applies: the packet that was matched, Match or Bind.
#[derive(Clone, Copy)]
pub enum Otherwise {
    Again,
    Match,
    Bind,
}

/// A function's parameters and its body.
#[derive(Drop)]
pub struct Lambda {
    pub parameters: Vec<Parameter>,
    pub last: Parameter,
    pub body: Exp,
}

/// A variable as all that there is.
fn returned(alloc: Global, value: usize) -> Result<Box<Exp>, NoMemory>
    ensures { IfOk result (λ made. (v : View) → tree_of (reading v) made.value ≡ ret (atom value)) }
{
    let made = boxed(alloc, Exp::Ret(value))?;
    Ok(made)
}

/// Steps, and then a variable.
pub fn ended(alloc: Global, steps: Vec<Step>, value: usize) -> Result<Exp, NoMemory>
    ensures { IfOk result (λ made. (v : View) → tree_of (reading v) made ≡ stand v steps.items (ret (atom value))) }
{
    match returned(alloc, value) {
        Ok(last) => Ok(Exp::Steps(steps, last)),
        Err(e) => Err(e),
    }
}

/// Attempts in order, and the last.
pub fn attempted(alloc: Global, attempts: Vec<Exp>, last: Exp) -> Result<Exp, NoMemory>
    ensures { IfOk result (λ made. (v : View) → tree_of (reading v) made ≡ firsts (map (tree_of (reading v)) attempts.items) (tree_of (reading v) last)) }
{
    match boxed(alloc, last) {
        Ok(last) => Ok(Exp::First(attempts, last)),
        Err(e) => Err(e),
    }
}

/// An attempt, and what comes where it misses.
pub fn one_of(alloc: Global, attempt: Exp, last: Exp) -> Result<Exp, NoMemory>
    ensures { IfOk result (λ made. (v : View) → tree_of (reading v) made ≡ first (tree_of (reading v) attempt) (tree_of (reading v) last)) }
{
    match one(alloc, attempt) {
        Ok(attempts) => {
            let made = attempted(alloc, attempts, last)?;
            Ok(made)
        }
        Err(e) => Err(e),
    }
}

/// What raises where no rule applies.
fn raising_operation(other: Otherwise, packet: usize) -> Operation
    ensures { (v : View) → operation_of (reading v) result ≡ otherwise_op packet (otherwise_of other) }
{
    match other {
        Otherwise::Again => Operation::Raise(packet),
        Otherwise::Match => Operation::RaiseInitial(0),
        Otherwise::Bind => Operation::RaiseInitial(1),
    }
}

/// What is raised, in place of a value of this type, where nothing fits the value in a variable.
pub fn raising(
    alloc: Global,
    work: &mut Work,
    t: ValueType,
    matched: usize,
    other: Otherwise,
) -> Result<Exp, NoMemory>
    ensures next { IfOk result (λ _. work.new.next ≡ suc work.old.next) }
    ensures keeps { IfOk result (λ _. Keeps work.old work.new) }
    ensures gives { IfOk result (λ made. Gives work.new made (λ v. otherwise v.scope work.old.next (value_type v t) matched (otherwise_of other))) }
{
    let operation = raising_operation(other, matched);
    let mut steps = Vec::new(alloc);
    let value = push_operation(alloc, work, t, operation, &mut steps)?;
    let made = ended(alloc, steps, value)?;
    Ok(made)
}

/// The value of a block comes into a new variable.
pub fn push_block(
    alloc: Global,
    work: &mut Work,
    t: ValueType,
    body: Exp,
    steps: &mut Vec<Step>,
) -> Result<usize, NoMemory>
    ensures { IfOk result (λ a. (g : View → Tests) → Gives work.old body g → Pushed work.old work.new steps.old.items steps.new.items t (λ v. block (g v)) a) }
{
    let body = boxed(alloc, body)?;
    let binding = new_binding(alloc, work, t)?;
    steps.push(Step::Block(binding, body))?;
    Ok(binding.variable)
}

/// A function comes into a new variable.
pub fn push_lambda(
    alloc: Global,
    work: &mut Work,
    u: usize,
    lambda: Lambda,
    steps: &mut Vec<Step>,
) -> Result<usize, NoMemory>
    ensures { IfOk result (λ a. (g : View → Fun poly) → GivesFun work.old lambda g
        → Pushed work.old work.new steps.old.items steps.new.items (OfSource u) (λ v. fn (g v)) a) }
{
    let body = boxed(alloc, lambda.body)?;
    let binding = new_binding(alloc, work, ValueType::Source(u))?;
    steps.push(Step::Fn {
        binding,
        parameters: lambda.parameters,
        last: lambda.last,
        body,
    })?;
    Ok(binding.variable)
}

/// The value of a body, or of the handler of its packet, comes into a new variable.
pub fn push_handle(
    alloc: Global,
    work: &mut Work,
    u: usize,
    body: Exp,
    packet: usize,
    handler: Exp,
    steps: &mut Vec<Step>,
) -> Result<usize, NoMemory>
    ensures { IfOk result (λ a. (g h : View → Tests) → Gives work.old body g → Gives work.old handler h
        → Pushed work.old work.new steps.old.items steps.new.items (OfSource u) (λ v. handle (g v) packet (h v)) a) }
{
    let handler = boxed(alloc, handler)?;
    let body = boxed(alloc, body)?;
    let binding = new_binding(alloc, work, ValueType::Source(u))?;
    steps.push(Step::Handle {
        binding,
        body,
        packet,
        handler,
    })?;
    Ok(binding.variable)
}

/// The constructor of a truth value.
fn truth_number(is: bool) -> usize
    ensures { result ≡ constructor_of is }
{
    if is { TRUE as usize } else { FALSE as usize }
}

/// The other truth value is the result.
fn other_arm(alloc: Global, goes_on: bool, value: usize) -> Result<Vec<Arm>, NoMemory>
    ensures { IfOk result (λ made. (v : View) → arms_of (map (arm_of (reading v)) made.items)
        ≡ arm (is_con (constructor_of (not goes_on))) (ret (atom value)) no_arms) }
{
    let other = truth_number(!goes_on);
    let arm = Arm {
        case: Case::Constructor(other),
        body: Exp::Ret(value),
    };
    let made = one(alloc, arm)?;
    Ok(made)
}

/// What comes next comes where the value is this truth value; else the value is the other one.
pub fn push_link(
    alloc: Global,
    work: &mut Work,
    goes_on: bool,
    value: usize,
    steps: &mut Vec<Step>,
) -> Result<(), NoMemory>
    ensures next { IfOk result (λ _. work.new.next ≡ work.old.next) }
    ensures keeps { IfOk result (λ _. Keeps work.old work.new) }
    ensures puts { IfOk result (λ _. Puts work.new steps.old.items steps.new.items (linking goes_on value)) }
{
    let ty = scoped_type(alloc, work, ValueType::Bool)?;
    let others = other_arm(alloc, goes_on, value)?;
    let goes = truth_number(goes_on);
    steps.push(Step::Test {
        atom: value,
        ty,
        case: Case::Constructor(goes),
        others,
    })?;
    Ok(())
}

/// A function of a group.
pub fn member(variable: usize, ty: usize, lambda: Lambda) -> Function
    ensures { (v : View) → function_of (reading v) result ≡ record { variable = variable; type = type_at v.types ty; function = lambda_of v lambda } }
{
    Function {
        variable,
        ty,
        parameters: lambda.parameters,
        last: lambda.last,
        body: lambda.body,
    }
}

/// Functions that know each other. A group without functions is none.
pub fn push_group(
    parameters: usize,
    members: Vec<Function>,
    steps: &mut Vec<Step>,
) -> Result<(), NoMemory>
    ensures { IfOk result (λ _. (w : State) → Puts w steps.old.items steps.new.items
        (λ v rest. grouped (parameters_at v.parameters parameters) (funs_of (map (function_of (reading v)) members.items)) rest)) }
{
    if members.is_empty() {
        return Ok(());
    }
    steps.push(Step::Group(parameters, members))?;
    Ok(())
}
