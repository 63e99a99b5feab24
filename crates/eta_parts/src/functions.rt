// What is a function by itself, as a function.
ghost use Rattle.std.specs.Prelude.{◌≡◌, ◌+◌, true, false, ℕ, List, length, IfOk};
ghost use Rattle.mlc_names.specs.declared.label.Label.TheVariants.{Number};
ghost use Rattle.ir_plain.specs.Tree.{fn, prim_alone};
ghost use Rattle.ir_mono.specs.Mono.{Mono};
ghost use Rattle.plain_tree.specs.TreeOf.{onto};
ghost use Rattle.eta_expand.specs.Expand.{Names, constructing, referring, packing, performing, selecting, used_as, expand_op, op_news};
ghost use Rattle.eta_parts.specs.Reads.{Row, Texts, mono_step, steps_in, a_let};
ghost use Rattle.eta_parts.specs.Numbers.{numbers_from};

use crate::ask::{fields_at, given_at, take_numbers, taken_at, takes_one};
use crate::making::{block_of, ended, function, giving, value};
use mlc_base::make::{one, two};
use mlc_base::memory::NoMemory;
use mlc_names::label::Label;
use mlc_prims::basis::BasisPrimitive;
use mono_types::types::Types;
use plain_tree::tree::{Binding, Exception, Operation, Parameter, Step};
use std::alloc::Global;

/// A constructor that takes an argument, as a function.
pub fn constructing_function(
    alloc: Global,
    next: &mut usize,
    binding: Binding,
    constructor: usize,
    ty: usize,
    argument: usize,
) -> Result<Step, NoMemory>
    ensures made { IfOk result (λ made. (types : List Row) (strings : Texts)
        → mono_step types strings made ≡ a_let types strings binding (fn (constructing types next.old constructor ty argument))) }
    ensures news { IfOk result (λ _. next.new ≡ next.old + 2) }
{
    let parameter = take_numbers(next, 1)?;
    let given = take_numbers(next, 1)?;
    let operation = Operation::Construct {
        place: None,
        constructor,
        ty,
        argument: parameter,
    };
    let body = giving(alloc, Vec::new(alloc), value(given, ty), operation)?;
    function(
        alloc,
        binding,
        Parameter {
            variable: parameter,
            ty: argument,
        },
        body,
    )
}

/// The constructor `ref` as a function from a type to references.
pub fn referring_function(
    alloc: Global,
    next: &mut usize,
    binding: Binding,
    held: usize,
    reference: usize,
) -> Result<Step, NoMemory>
    ensures made { IfOk result (λ made. (types : List Row) (strings : Texts)
        → mono_step types strings made ≡ a_let types strings binding (fn (referring types next.old held reference))) }
    ensures news { IfOk result (λ _. next.new ≡ next.old + 2) }
{
    let parameter = take_numbers(next, 1)?;
    let given = take_numbers(next, 1)?;
    let operation = Operation::Refer {
        place: None,
        ty: held,
        argument: parameter,
    };
    let body = giving(alloc, Vec::new(alloc), value(given, reference), operation)?;
    function(
        alloc,
        binding,
        Parameter {
            variable: parameter,
            ty: held,
        },
        body,
    )
}

/// The packets of an exception, as a function of their argument.
fn packing_function(
    alloc: Global,
    next: &mut usize,
    binding: Binding,
    argument: usize,
    packet: usize,
    exception: usize,
) -> Result<Step, NoMemory>
    ensures made { IfOk result (λ made. (types : List Row) (strings : Texts)
        → mono_step types strings made ≡ a_let types strings binding (fn (packing types next.old argument packet exception))) }
    ensures news { IfOk result (λ _. next.new ≡ next.old + 3) }
{
    let parameter = take_numbers(next, 1)?;
    let name = take_numbers(next, 1)?;
    let given = take_numbers(next, 1)?;
    let steps = one(alloc, Step::Name(name, Exception::Held(exception)))?;
    let operation = Operation::Pack {
        place: None,
        ty: argument,
        exception: name,
        argument: parameter,
    };
    let body = giving(alloc, steps, value(given, packet), operation)?;
    function(
        alloc,
        binding,
        Parameter {
            variable: parameter,
            ty: argument,
        },
        body,
    )
}

/// An exception that takes an argument, as a function: its name is brought in first.
pub fn exception_function(
    alloc: Global,
    types: &Types,
    next: &mut usize,
    binding: Binding,
    exception: usize,
) -> Result<Step, NoMemory>
    ensures made { IfOk result (λ made. (strings : Texts)
        → mono_step types.now strings made ≡ a_let types.now strings binding (used_as types.now true next.old binding.ty exception)) }
    ensures news { IfOk result (λ _. next.new ≡ next.old + 5) }
{
    let name = take_numbers(next, 1)?;
    let given = take_numbers(next, 1)?;
    let made = packing_function(
        alloc,
        next,
        value(given, binding.ty),
        taken_at(types, binding.ty),
        given_at(types, binding.ty),
        name,
    )?;
    let steps = two(alloc, Step::Name(name, Exception::Held(exception)), made)?;
    let body = ended(alloc, steps, given)?;
    block_of(alloc, binding, body)
}

/// The label of a number.
fn label(number: usize) -> Result<Label, NoMemory>
    ensures { IfOk result (λ l. l ≡ Number number) }
{
    match u32::try_from(number) {
        Ok(number) => Ok(Label::Number(number)),
        Err(_) => Err(NoMemory),
    }
}

/// Each part of a tuple comes into a new variable.
fn push_parts(
    alloc: Global,
    next: &mut usize,
    tuple: Parameter,
    parts: &[usize],
    steps: &mut Vec<Step>,
) -> Result<Vec<usize>, NoMemory>
    ensures steps { IfOk result (λ _. (types : List Row) (strings : Texts) (e : Mono types)
        → onto (steps_in types strings steps.new.items) e ≡ onto (steps_in types strings steps.old.items) (selecting types tuple.ty tuple.variable 1 next.old parts.now e)) }
    ensures variables { IfOk result (λ variables. variables.items ≡ numbers_from next.old parts.now) }
    ensures news { IfOk result (λ _. next.new ≡ next.old + length parts.now) }
{
    let mut variables = Vec::new(alloc);
    for i in 0..parts.len() {
        let variable = take_numbers(next, 1)?;
        let label = label(i + 1)?;
        steps.push(Step::Let(
            value(variable, parts[i]),
            Operation::Select {
                ty: tuple.ty,
                label,
                record: tuple.variable,
            },
        ))?;
        variables.push(variable)?;
    }
    Ok(variables)
}

/// A primitive as a function of one argument.
fn single_function(
    alloc: Global,
    next: &mut usize,
    binding: Binding,
    primitive: BasisPrimitive,
    ty: usize,
    argument: usize,
    given_type: usize,
) -> Result<Step, NoMemory>
    ensures made { IfOk result (λ made. (types : List Row) (strings : Texts) (parts : List ℕ)
        → mono_step types strings made ≡ a_let types strings binding (fn (performing types true next.old primitive ty argument given_type parts))) }
    ensures news { IfOk result (λ _. next.new ≡ next.old + 2) }
{
    let parameter = take_numbers(next, 1)?;
    let given = take_numbers(next, 1)?;
    let arguments = one(alloc, parameter)?;
    let operation = Operation::Perform {
        place: None,
        primitive,
        ty,
        arguments,
    };
    let body = giving(alloc, Vec::new(alloc), value(given, given_type), operation)?;
    function(
        alloc,
        binding,
        Parameter {
            variable: parameter,
            ty: argument,
        },
        body,
    )
}

/// A primitive as a function of a tuple of these parts.
fn tuple_function(
    alloc: Global,
    next: &mut usize,
    binding: Binding,
    primitive: BasisPrimitive,
    ty: usize,
    argument: usize,
    given_type: usize,
    parts: &[usize],
) -> Result<Step, NoMemory>
    ensures made { IfOk result (λ made. (types : List Row) (strings : Texts)
        → mono_step types strings made ≡ a_let types strings binding (fn (performing types false next.old primitive ty argument given_type parts.now))) }
    ensures news { IfOk result (λ _. next.new ≡ next.old + (2 + length parts.now)) }
{
    let variable = take_numbers(next, 1)?;
    let parameter = Parameter {
        variable,
        ty: argument,
    };
    let mut steps = Vec::new(alloc);
    let arguments = push_parts(alloc, next, parameter, parts, &mut steps)?;
    let given = take_numbers(next, 1)?;
    let operation = Operation::Perform {
        place: None,
        primitive,
        ty,
        arguments,
    };
    let body = giving(alloc, steps, value(given, given_type), operation)?;
    function(alloc, binding, parameter, body)
}

/// A primitive as a function.
pub fn primitive_function(
    alloc: Global,
    types: &Types,
    next: &mut usize,
    binding: Binding,
    primitive: BasisPrimitive,
    ty: usize,
) -> Result<Step, NoMemory>
    ensures made { IfOk result (λ made. (strings : Texts) (names : Names)
        → mono_step types.now strings made ≡ a_let types.now strings binding (expand_op types.now names next.old binding.ty (prim_alone primitive ty))) }
    ensures news { IfOk result (λ _. (names : Names) → next.new ≡ next.old + op_news types.now names binding.ty (prim_alone primitive ty)) }
{
    let taken = taken_at(types, binding.ty);
    let given = given_at(types, binding.ty);
    if takes_one(primitive) {
        single_function(alloc, next, binding, primitive, ty, taken, given)
    } else {
        tuple_function(
            alloc,
            next,
            binding,
            primitive,
            ty,
            taken,
            given,
            fields_at(types, taken),
        )
    }
}
