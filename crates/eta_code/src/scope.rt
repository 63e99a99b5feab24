// What comes into scope: whether it is the name of an exception that takes an argument.
ghost use Rattle.std.specs.Prelude.{◌≡◌, ℕ, List, IfOk};
ghost use Rattle.eta_parts.specs.Reads.{Row, mono_step};
ghost use Rattle.eta_code.specs.Scopes.{name_takes, with_case, with_parameters, with_functions};
ghost use Rattle.eta_code.specs.Steps.{binds};

use eta_parts::ask::takes;
use mlc_base::memory::NoMemory;
use plain_tree::tree::{Case, Exception, Function, Parameter, Step};
use scoped_map::scoped::Scoped;

fn names_exception(names: &Scoped<bool>, exception: Exception) -> bool
    ensures { result ≡ name_takes names.now exception }
{
    match exception {
        Exception::Initial(_) => false,
        Exception::Held(variable) => takes(names, variable),
    }
}

/// What a case binds.
pub fn bind_case(names: &mut Scoped<bool>, case: Case) -> Result<(), NoMemory>
    ensures { IfOk result (λ _. names.new ≡ with_case case names.old) }
{
    match case {
        Case::ConstructorOf {
            constructor: _,
            argument,
        } => names.bind(argument.variable, false),
        Case::ExceptionOf {
            exception: _,
            argument,
        } => names.bind(argument.variable, false),
        Case::Constant(_) => Ok(()),
        Case::Constructor(_) => Ok(()),
        Case::Exception(_) => Ok(()),
        Case::Record(_) => Ok(()),
    }
}

/// The parameters of a function.
pub fn bind_parameters(
    names: &mut Scoped<bool>,
    parameters: &[Parameter],
    last: Parameter,
) -> Result<(), NoMemory>
    ensures { IfOk result (λ _. names.new ≡ with_parameters parameters.now last names.old) }
{
    for i in 0..parameters.len() {
        names.bind(parameters[i].variable, false)?;
    }
    names.bind(last.variable, false)
}

/// The functions of a group, the first last.
pub fn bind_functions(names: &mut Scoped<bool>, functions: &[Function]) -> Result<(), NoMemory>
    ensures { IfOk result (λ _. names.new ≡ with_functions functions.now names.old) }
{
    let mut left = functions.len();
    while left > 0 {
        left -= 1;
        let function = &functions[left];
        names.bind(function.variable, false)?;
    }
    Ok(())
}

/// What a step binds for all that follows it.
pub fn bind_step(names: &mut Scoped<bool>, step: &Step) -> Result<(), NoMemory>
    ensures { IfOk result (λ _. (types : List Row) (strings : List (List ℕ)) → names.new ≡ binds types (mono_step types strings step.now) names.old) }
{
    match step {
        Step::Let(binding, _) => names.bind(binding.variable, false),
        Step::Fn {
            binding,
            parameters: _,
            last: _,
            body: _,
        } => names.bind(binding.variable, false),
        Step::Block(binding, _) => names.bind(binding.variable, false),
        Step::Handle {
            binding,
            body: _,
            packet: _,
            handler: _,
        } => names.bind(binding.variable, false),
        Step::Exception {
            variable,
            identifier: _,
            argument,
        } => names.bind(*variable, argument.is_some()),
        Step::Name(variable, exception) => {
            let takes = names_exception(names, *exception);
            names.bind(*variable, takes)
        }
        Step::Group(_, functions) => bind_functions(names, functions),
        Step::Test {
            atom: _,
            ty: _,
            case,
            others: _,
        } => bind_case(names, *case),
        Step::Counted(_) => Ok(()),
    }
}
