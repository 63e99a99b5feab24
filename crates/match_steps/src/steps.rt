// The steps of one operation, at the end of those made before.
ghost use Rattle.std.specs.Prelude.{◌≡◌, suc, IfOk};
ghost use Rattle.match_names.specs.Bindings.{names_of};
ghost use Rattle.match_compile.specs.Compile.{excepted};
ghost use Rattle.plain_tree.specs.TreeOf.{exception_of};
ghost use Rattle.prog_tree.specs.TreeOf.{exc_of};
ghost use Rattle.prog_tree.specs.declared.tree.Head.TheVariants.{Exception as OfException};
ghost use Rattle.match_types.specs.Views.{View, reading, Keeps, Stands, in_view};
ghost use Rattle.match_steps.specs.Steps.{Puts};
ghost use Rattle.match_steps.specs.Made.{testing, naming, selecting, containing, heading, argument_after};

use match_names::names::Names;
use match_types::types::{fresh, new_binding, scoped_type};
use match_types::work::{ValueType, Work};
use mlc_base::memory::NoMemory;
use mlc_names::label::Label;
use plain_tree::tree::{Case, Exception, Operation, Parameter, Step};
use prog_tree::tree::{Exception as Named, Head};
use std::alloc::Global;

/// A new variable with a type of the source.
pub fn new_parameter(alloc: Global, work: &mut Work, t: ValueType) -> Result<Parameter, NoMemory>
    ensures variable { IfOk result (λ x. x.variable ≡ work.old.next) }
    ensures ty { IfOk result (λ x. Stands work.new x.ty (in_view t)) }
    ensures next { IfOk result (λ _. work.new.next ≡ suc work.old.next) }
    ensures keeps { IfOk result (λ _. Keeps work.old work.new) }
{
    let ty = scoped_type(alloc, work, t)?;
    let variable = fresh(work)?;
    Ok(Parameter { variable, ty })
}

/// An exception, with the number that its variable has got.
pub fn exception_in(names: &Names, exception: Named) -> Exception
    ensures { (v : View) → exception_of (reading v) result ≡ excepted (names_of names.now) (exc_of exception) }
{
    match exception {
        Named::Initial(n) => Exception::Initial(n),
        Named::Held(x) => Exception::Held(names.number(x)),
    }
}

/// The name of an exception comes into a new variable.
pub fn push_name(
    work: &mut Work,
    exception: Named,
    steps: &mut Vec<Step>,
) -> Result<usize, NoMemory>
    ensures is { IfOk result (λ n. n ≡ work.old.next) }
    ensures next { IfOk result (λ _. work.new.next ≡ suc work.old.next) }
    ensures keeps { IfOk result (λ _. Keeps work.old work.new) }
    ensures puts { IfOk result (λ _. Puts work.new steps.old.items steps.new.items (naming exception work.old.next)) }
{
    let named = exception_in(&work.names, exception);
    let n = fresh(work)?;
    steps.push(Step::Name(n, named))?;
    Ok(n)
}

/// The atom of this type is tested.
pub fn push_test(
    alloc: Global,
    work: &mut Work,
    t: ValueType,
    atom: usize,
    case: Case,
    steps: &mut Vec<Step>,
) -> Result<(), NoMemory>
    ensures next { IfOk result (λ _. work.new.next ≡ work.old.next) }
    ensures keeps { IfOk result (λ _. Keeps work.old work.new) }
    ensures puts { IfOk result (λ _. Puts work.new steps.old.items steps.new.items (testing t atom case)) }
{
    let ty = scoped_type(alloc, work, t)?;
    steps.push(Step::Test {
        atom,
        ty,
        case,
        others: Vec::new(alloc),
    })?;
    Ok(())
}

/// A field of type `u` of a record of type `t` comes into a new variable.
pub fn push_select(
    alloc: Global,
    work: &mut Work,
    t: ValueType,
    atom: usize,
    label: Label,
    u: ValueType,
    steps: &mut Vec<Step>,
) -> Result<usize, NoMemory>
    ensures is { IfOk result (λ n. n ≡ work.old.next) }
    ensures next { IfOk result (λ _. work.new.next ≡ suc work.old.next) }
    ensures keeps { IfOk result (λ _. Keeps work.old work.new) }
    ensures puts { IfOk result (λ _. Puts work.new steps.old.items steps.new.items (selecting t atom label u work.old.next)) }
{
    let ty = scoped_type(alloc, work, t)?;
    let binding = new_binding(alloc, work, u)?;
    steps.push(Step::Let(
        binding,
        Operation::Select {
            ty,
            label,
            record: atom,
        },
    ))?;
    Ok(binding.variable)
}

/// What a reference holds comes into a new variable of type `u`.
pub fn push_content(
    alloc: Global,
    work: &mut Work,
    u: ValueType,
    reference: usize,
    steps: &mut Vec<Step>,
) -> Result<usize, NoMemory>
    ensures is { IfOk result (λ n. n ≡ work.old.next) }
    ensures next { IfOk result (λ _. work.new.next ≡ suc work.old.next) }
    ensures keeps { IfOk result (λ _. Keeps work.old work.new) }
    ensures puts { IfOk result (λ _. Puts work.new steps.old.items steps.new.items (containing u reference work.old.next)) }
{
    let binding = new_binding(alloc, work, u)?;
    steps.push(Step::Let(
        binding,
        Operation::Content {
            ty: binding.ty,
            reference,
        },
    ))?;
    Ok(binding.variable)
}

/// A packet of an exception that holds an argument of type `u` is tested for in an atom of type `t`. Gives the argument's variable.
fn push_exception_head(
    alloc: Global,
    work: &mut Work,
    named: Named,
    u: ValueType,
    t: ValueType,
    atom: usize,
    steps: &mut Vec<Step>,
) -> Result<usize, NoMemory>
    ensures is { IfOk result (λ n. n ≡ suc work.old.next) }
    ensures next { IfOk result (λ n. work.new.next ≡ suc n) }
    ensures keeps { IfOk result (λ _. Keeps work.old work.new) }
    ensures puts { IfOk result (λ _. Puts work.new steps.old.items steps.new.items (heading (OfException named) u t work.old.next atom)) }
{
    let exception = push_name(work, named, steps)?;
    let argument = new_parameter(alloc, work, u)?;
    let case = Case::ExceptionOf {
        exception,
        argument,
    };
    push_test(alloc, work, t, atom, case, steps)?;
    Ok(argument.variable)
}

/// What stands before an argument of type `u` is tested in an atom of type `t`. Gives the argument's variable.
pub fn push_head(
    alloc: Global,
    work: &mut Work,
    head: Head,
    u: ValueType,
    t: ValueType,
    atom: usize,
    steps: &mut Vec<Step>,
) -> Result<usize, NoMemory>
    ensures is { IfOk result (λ n. n ≡ argument_after head work.old.next) }
    ensures next { IfOk result (λ n. work.new.next ≡ suc n) }
    ensures keeps { IfOk result (λ _. Keeps work.old work.new) }
    ensures puts { IfOk result (λ _. Puts work.new steps.old.items steps.new.items (heading head u t work.old.next atom)) }
{
    match head {
        Head::Constructor(constructor) => {
            let argument = new_parameter(alloc, work, u)?;
            let case = Case::ConstructorOf {
                constructor,
                argument,
            };
            push_test(alloc, work, t, atom, case, steps)?;
            Ok(argument.variable)
        }
        Head::Reference => {
            let held = push_content(alloc, work, u, atom, steps)?;
            Ok(held)
        }
        Head::Exception(named) => {
            let argument = push_exception_head(alloc, work, named, u, t, atom, steps)?;
            Ok(argument)
        }
    }
}
