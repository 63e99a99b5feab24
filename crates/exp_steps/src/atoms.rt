// Expressions without parts.
ghost use Rattle.std.specs.Prelude.{IfOk};
ghost use Rattle.prog_tree.specs.declared.tree.Atom.TheVariants as atoms;
ghost use Rattle.prog_tree.specs.declared.tree.Used.TheVariants as uses;
ghost use Rattle.exp_steps.specs.Making.{Makes};
ghost use Rattle.exp_steps.specs.Made.{atomic, used};

use crate::operations::push_operation;
use crate::types::{named_type, primitive_type, scoped_types};
use ir_tables::tables::Constant;
use match_steps::match_types::types::scoped_type;
use match_steps::match_types::work::{ValueType, Work};
use match_steps::steps::push_name;
use mlc_base::memory::NoMemory;
use mlc_prims::basis::BasisPrimitive;
use plain_tree::tree::{Operation, Step};
use prog_tree::tree::{Atom, Exception, Used};
use std::alloc::Global;
use ty_core::name::TyName;

/// A constant.
fn push_constant(
    alloc: Global,
    work: &mut Work,
    constant: Constant,
    u: usize,
    steps: &mut Vec<Step>,
) -> Result<usize, NoMemory>
    ensures { IfOk result (λ a. Makes work.old work.new steps.old.items steps.new.items (atomic (atoms.Constant constant) u) a) }
{
    let a = push_operation(
        alloc,
        work,
        ValueType::Source(u),
        Operation::Constant(constant),
        steps,
    )?;
    Ok(a)
}

/// A function inside its own group.
fn push_own(
    alloc: Global,
    work: &mut Work,
    x: usize,
    u: usize,
    steps: &mut Vec<Step>,
) -> Result<usize, NoMemory>
    ensures { IfOk result (λ a. Makes work.old work.new steps.old.items steps.new.items (atomic (atoms.Own x) u) a) }
{
    let number = work.names.number(x);
    let operation = Operation::Use(number, Vec::new(alloc));
    let a = push_operation(alloc, work, ValueType::Source(u), operation, steps)?;
    Ok(a)
}

/// An exception as a value.
fn push_exception(
    alloc: Global,
    work: &mut Work,
    exception: Exception,
    u: usize,
    steps: &mut Vec<Step>,
) -> Result<usize, NoMemory>
    ensures { IfOk result (λ a. Makes work.old work.new steps.old.items steps.new.items (atomic (atoms.Exception exception) u) a) }
{
    let name = push_name(work, exception, steps)?;
    let operation = Operation::Use(name, Vec::new(alloc));
    let a = push_operation(alloc, work, ValueType::Source(u), operation, steps)?;
    Ok(a)
}

/// The constructor `ref` as a function.
fn push_reference(
    alloc: Global,
    work: &mut Work,
    held: usize,
    u: usize,
    steps: &mut Vec<Step>,
) -> Result<usize, NoMemory>
    ensures { IfOk result (λ a. Makes work.old work.new steps.old.items steps.new.items (atomic (atoms.Reference held) u) a) }
{
    let ty = scoped_type(alloc, work, ValueType::Source(held))?;
    let a = push_operation(
        alloc,
        work,
        ValueType::Source(u),
        Operation::Reference(ty),
        steps,
    )?;
    Ok(a)
}

/// An expression with no parts.
pub fn push_atom(
    alloc: Global,
    work: &mut Work,
    atom: Atom,
    u: usize,
    steps: &mut Vec<Step>,
) -> Result<usize, NoMemory>
    ensures { IfOk result (λ a. Makes work.old work.new steps.old.items steps.new.items (atomic atom u) a) }
{
    match atom {
        Atom::Constant(constant) => push_constant(alloc, work, constant, u, steps),
        Atom::Own(x) => push_own(alloc, work, x, u, steps),
        Atom::Exception(exception) => push_exception(alloc, work, exception, u, steps),
        Atom::Reference(held) => push_reference(alloc, work, held, u, steps),
    }
}

/// A variable at types.
fn push_variable(
    alloc: Global,
    work: &mut Work,
    x: usize,
    types: &[usize],
    u: usize,
    steps: &mut Vec<Step>,
) -> Result<usize, NoMemory>
    ensures { IfOk result (λ a. Makes work.old work.new steps.old.items steps.new.items (used (uses.Variable x) types.now u) a) }
{
    let number = work.names.number(x);
    let at = scoped_types(alloc, work, types)?;
    let a = push_operation(
        alloc,
        work,
        ValueType::Source(u),
        Operation::Use(number, at),
        steps,
    )?;
    Ok(a)
}

/// A constructor of this datatype as a value.
fn push_constructor(
    alloc: Global,
    work: &mut Work,
    constructor: usize,
    name: TyName,
    types: &[usize],
    u: usize,
    steps: &mut Vec<Step>,
) -> Result<usize, NoMemory>
    ensures { IfOk result (λ a. Makes work.old work.new steps.old.items steps.new.items (used (uses.Constructor constructor name) types.now u) a) }
{
    let ty = named_type(alloc, work, name, types)?;
    let operation = Operation::Constructor { constructor, ty };
    let a = push_operation(alloc, work, ValueType::Source(u), operation, steps)?;
    Ok(a)
}

/// A primitive as a value.
fn push_primitive(
    alloc: Global,
    work: &mut Work,
    primitive: BasisPrimitive,
    types: &[usize],
    u: usize,
    steps: &mut Vec<Step>,
) -> Result<usize, NoMemory>
    ensures { IfOk result (λ a. Makes work.old work.new steps.old.items steps.new.items (used (uses.Primitive primitive) types.now u) a) }
{
    let ty = primitive_type(alloc, work, types)?;
    let a = push_operation(
        alloc,
        work,
        ValueType::Source(u),
        Operation::Primitive(primitive, ty),
        steps,
    )?;
    Ok(a)
}

/// What is used at types.
pub fn push_used(
    alloc: Global,
    work: &mut Work,
    what: Used,
    types: &[usize],
    u: usize,
    steps: &mut Vec<Step>,
) -> Result<usize, NoMemory>
    ensures { IfOk result (λ a. Makes work.old work.new steps.old.items steps.new.items (used what types.now u) a) }
{
    match what {
        Used::Variable(x) => push_variable(alloc, work, x, types, u, steps),
        Used::Constructor(constructor, name) => push_constructor(
            alloc,
            work,
            constructor,
            name,
            types,
            u,
            steps,
        ),
        Used::Primitive(primitive) => push_primitive(alloc, work, primitive, types, u, steps),
    }
}
