// What comes into scope.
ghost use Rattle.std.specs.Prelude.{◌≡◌, ℕ, List, drop, IfOk};
ghost use Rattle.plain_tree.specs.TreeOf.{case_of};
ghost use Rattle.mono_bound.specs.Reads.{reading};
ghost use Rattle.closure_convert.specs.Scope.{names, add_all};
ghost use Rattle.closure_convert.specs.Closed.{members, case_scope};
ghost use Rattle.capture_scope.specs.Seen.{members_of};
ghost use Rattle.closure_parts.specs.of_capture_table.Told.{first_parameter};
ghost use Rattle.closure_steps.specs.Reads.{mono_step, functions_in};
ghost use Rattle.closure_parts.specs.Settings.{Row, Texts};
ghost use Rattle.closure_steps.specs.Steps.{behind};

use capture_scope::scope::{Member, Scope, ScopeFault};
use mlc_base::memory::NoMemory;
use plain_tree::tree::{Case, Function, Parameter, Step};
use std::alloc::Global;

/// A function's number: its first parameter.
pub fn number_of(parameters: &[Parameter], last: Parameter) -> usize
    ensures { result ≡ first_parameter parameters.now last }
{
    if parameters.is_empty() {
        last.variable
    } else {
        parameters[0].variable
    }
}

/// All functions of a group but the first.
pub fn rest_of(members: &[Member]) -> &[Member]
    ensures { result.now ≡ drop 1 members.now }
{
    if members.is_empty() {
        members
    } else {
        &members[1..]
    }
}

/// The functions of a group, each by the variable that it is bound to and its number.
pub fn members_of_group(alloc: Global, functions: &[Function]) -> Result<Vec<Member>, NoMemory>
    ensures { IfOk result (λ found. (types : List Row) (strings : Texts)
        → members_of found.items ≡ members types (functions_in types strings functions.now)) }
{
    let mut found = Vec::new(alloc);
    for i in 0..functions.len() {
        let function = &functions[i];
        let number = number_of(&function.parameters, function.last);
        found.push(Member {
            name: function.variable,
            number,
        })?;
    }
    Ok(found)
}

/// What a case binds comes into scope.
pub fn bind_case(scope: &mut Scope, case: Case) -> Result<(), ScopeFault>
    ensures { IfOk result (λ _. (types : List Row) (strings : Texts)
        → scope.new ≡ case_scope types (case_of (reading types strings) case) scope.old) }
{
    match case {
        Case::ConstructorOf {
            constructor: _,
            argument,
        } => scope.add(argument.variable),
        Case::ExceptionOf {
            exception: _,
            argument,
        } => scope.add(argument.variable),
        Case::Constant(_) => Ok(()),
        Case::Constructor(_) => Ok(()),
        Case::Exception(_) => Ok(()),
        Case::Record(_) => Ok(()),
    }
}

/// The functions of a group come into scope after it, the first last.
fn bind_group(scope: &mut Scope, members: &[Member]) -> Result<(), ScopeFault>
    ensures { IfOk result (λ _. scope.new ≡ add_all (names (members_of members.now)) scope.old) }
{
    let mut left = members.len();
    while left > 0 {
        left -= 1;
        scope.add(members[left].name)?;
    }
    Ok(())
}

/// What a step binds comes into scope.
pub fn bind_step(alloc: Global, scope: &mut Scope, step: &Step) -> Result<(), ScopeFault>
    ensures { IfOk result (λ _. (types : List Row) (strings : Texts)
        → scope.new ≡ behind types (mono_step types strings step.now) scope.old) }
{
    match step {
        Step::Let(binding, _) => scope.add(binding.variable),
        Step::Fn {
            binding,
            parameters: _,
            last: _,
            body: _,
        } => scope.add(binding.variable),
        Step::Block(binding, _) => scope.add(binding.variable),
        Step::Handle {
            binding,
            body: _,
            packet: _,
            handler: _,
        } => scope.add(binding.variable),
        Step::Exception {
            variable,
            identifier: _,
            argument: _,
        } => scope.add(*variable),
        Step::Name(variable, _) => scope.add(*variable),
        Step::Group(_, functions) => {
            let members = members_of_group(alloc, functions)?;
            bind_group(scope, &members)
        }
        Step::Test {
            atom: _,
            ty: _,
            case,
            others: _,
        } => bind_case(scope, *case),
        Step::Counted(_) => Ok(()),
    }
}
