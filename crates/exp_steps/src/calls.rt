// What is done with the values of parts.
ghost use Rattle.std.specs.Prelude.{◌≡◌, IfOk, List, [], ◌∷◌};
ghost use Rattle.mlc_names.specs.declared.label.Label.TheVariants.{Number};
ghost use Rattle.ir_plain.specs.Tree.{make_record, no_row};
ghost use Rattle.ty_core.specs.Types.{Typ};
ghost use Rattle.ty_table.specs.TypeAt.{type_at};
ghost use Rattle.ir_poly.specs.Prog.{Exp as Source, Fields, type_of};
ghost use Rattle.ir_poly.specs.Types.{unit_type};
ghost use Rattle.match_compile.specs.Compile.{way, by_call, by_building, by_performing, scoped, building};
ghost use Rattle.plain_tree.specs.TreeOf.{operation_of};
ghost use Rattle.plain_tree.specs.declared.tree.Step.{Step as Row};
ghost use Rattle.prog_tree.specs.TreeOf.{Reading, tree_of};
ghost use Rattle.match_steps.specs.of_match_types.Views.{View, reading, Keeps, Stands};
ghost use Rattle.match_steps.specs.of_match_types.declared.work.Work.{Work as State};
ghost use Rattle.match_steps.specs.of_match_types.declared.work.ValueType.TheVariants.{Source as OfSource, Unit as OfUnit};
ghost use Rattle.exp_steps.specs.Making.{Makes, MakesAll, MakesTuple, Weighs, Begun, Pushed, atoms_in};
ghost use Rattle.exp_steps.specs.Made.{raised, applied, recorded};
ghost use Rattle.exp_steps.specs.Ways.{built_of, made_at, type_or_unit as known_type};

use crate::operations::push_operation;
use crate::records::in_order;
use crate::ways::{Built, push_weights};
use match_steps::match_types::types::scoped_type;
use match_steps::match_types::work::{ValueType, Work};
use match_steps::steps::push_name;
use mlc_base::memory::NoMemory;
use mlc_base::place::Place;
use mlc_prims::basis::BasisPrimitive;
use plain_tree::tree::{Field, Operation, Step};
use prog_tree::tree::Exp;
use std::alloc::Global;

/// A packet is raised.
pub fn push_raise(
    alloc: Global,
    work: &mut Work,
    u: usize,
    packet: usize,
    steps: &mut Vec<Step>,
) -> Result<usize, NoMemory>
    ensures { IfOk result (λ a. (w : State) (ss : List Row) (e : Reading → Source) → Makes w work.old ss steps.old.items e packet
        → Makes w work.new ss steps.new.items (raised u e) a) }
{
    let a = push_operation(
        alloc,
        work,
        ValueType::Source(u),
        Operation::Raise(packet),
        steps,
    )?;
    Ok(a)
}

/// A function is called.
pub fn push_call(
    alloc: Global,
    work: &mut Work,
    place: Place,
    u: usize,
    function: usize,
    argument: usize,
    steps: &mut Vec<Step>,
) -> Result<usize, NoMemory>
    ensures { IfOk result (λ a. (w v : State) (ss us : List Row) (f d : Reading → Source) → ((R : Reading) → way (f R) (d R) ≡ by_call)
        → Makes w v ss us f function → Makes v work.old us steps.old.items d argument → Makes w work.new ss steps.new.items (applied place u f d) a) }
{
    let operation = Operation::Apply {
        place,
        function,
        argument,
    };
    let a = push_operation(alloc, work, ValueType::Source(u), operation, steps)?;
    Ok(a)
}

/// A record of fields whose values were made, in the order of their labels.
pub fn push_record(
    alloc: Global,
    work: &mut Work,
    u: usize,
    fields: Vec<Field>,
    steps: &mut Vec<Step>,
) -> Result<usize, NoMemory>
    ensures { IfOk result (λ a. (w : State) (ss : List Row) (fs : Reading → Fields) → MakesAll w work.old ss steps.old.items fs fields.items
        → Makes w work.new ss steps.new.items (recorded u fs) a) }
{
    let ordered = in_order(alloc, &fields)?;
    let ty = scoped_type(alloc, work, ValueType::Source(u))?;
    let operation = Operation::Record {
        ty,
        fields: ordered,
    };
    let a = push_operation(alloc, work, ValueType::Source(u), operation, steps)?;
    Ok(a)
}

/// Unit.
pub fn push_unit(alloc: Global, work: &mut Work, steps: &mut Vec<Step>) -> Result<usize, NoMemory>
    ensures { IfOk result (λ a. Pushed work.old work.new steps.old.items steps.new.items OfUnit (λ v. make_record (scoped v.scope unit_type) no_row) a) }
{
    let ty = scoped_type(alloc, work, ValueType::Unit)?;
    let operation = Operation::Record {
        ty,
        fields: Vec::new(alloc),
    };
    let a = push_operation(alloc, work, ValueType::Unit, operation, steps)?;
    Ok(a)
}

/// The name of an exception that is built is brought in.
fn push_built_name(work: &mut Work, built: Built, steps: &mut Vec<Step>) -> Result<usize, NoMemory>
    ensures { IfOk result (λ name. (f : Reading → Source) (after : List Row) → ((w : State) → Weighs w w steps.new.items after f)
        → Begun work.old work.new steps.old.items after f built name) }
{
    match built {
        Built::Constructor(_) => Ok(work.next),
        Built::Reference(_) => Ok(work.next),
        Built::Exception(exception) => {
            let name = push_name(work, exception, steps)?;
            Ok(name)
        }
    }
}

/// What a construction begins with. Gives the variable of its exception's name, where it has one.
pub fn push_beginning(
    work: &mut Work,
    built: Built,
    function: &Exp,
    steps: &mut Vec<Step>,
) -> Result<usize, NoMemory>
    ensures { IfOk result (λ name. Begun work.old work.new steps.old.items steps.new.items (λ R. tree_of R function.now) built name) }
{
    let name = push_built_name(work, built, steps)?;
    push_weights(function, steps)?;
    Ok(name)
}

/// The type that a construction of type `u` from a value of type `argument` is made at.
fn built_at(built: Built, u: usize, argument: usize) -> usize
    ensures { (R : Reading) → R.type result ≡ made_at (built_of built R) (R.type u) (R.type argument) }
{
    match built {
        Built::Constructor(_) => u,
        Built::Reference(held) => held,
        Built::Exception(_) => argument,
    }
}

/// A construction, with the type that it is made at over the parameters in scope.
fn construction(built: Built, name: usize, place: Place, ty: usize, value: usize) -> Operation
    ensures { (v : View) (u w : Typ) → type_at v.types ty ≡ scoped v.scope (made_at (built_of built v.source) u w)
        → operation_of (reading v) result ≡ building v.scope (built_of built v.source) place u w name value }
{
    let place = Some(place);
    match built {
        Built::Constructor(constructor) => Operation::Construct {
            place,
            constructor,
            ty,
            argument: value,
        },
        Built::Reference(_) => Operation::Refer {
            place,
            ty,
            argument: value,
        },
        Built::Exception(_) => Operation::Pack {
            place,
            ty,
            exception: name,
            argument: value,
        },
    }
}

/// A construction of type `u` from a value of type `argument`.
fn push_construction(
    alloc: Global,
    work: &mut Work,
    built: Built,
    name: usize,
    place: Place,
    u: usize,
    argument: usize,
    value: usize,
    steps: &mut Vec<Step>,
) -> Result<usize, NoMemory>
    ensures { IfOk result (λ a. Pushed work.old work.new steps.old.items steps.new.items (OfSource u)
        (λ v. building v.scope (built_of built v.source) place (v.source.type u) (v.source.type argument) name value) a) }
{
    let at = built_at(built, u, argument);
    let ty = scoped_type(alloc, work, ValueType::Source(at))?;
    let operation = construction(built, name, place, ty, value);
    let a = push_operation(alloc, work, ValueType::Source(u), operation, steps)?;
    Ok(a)
}

/// What is built from the value of an argument, whose type is given.
pub fn push_built(
    alloc: Global,
    work: &mut Work,
    built: Built,
    name: usize,
    place: Place,
    u: usize,
    argument: usize,
    value: usize,
    steps: &mut Vec<Step>,
) -> Result<usize, NoMemory>
    ensures { IfOk result (λ a. (w v : State) (ss us : List Row) (f d : Reading → Source) → ((R : Reading) → way (f R) (d R) ≡ by_building (built_of built R))
        → ((R : Reading) → R.type argument ≡ type_of (d R)) → Begun w v ss us f built name → Makes v work.old us steps.old.items d value
        → Makes w work.new ss steps.new.items (applied place u f d) a) }
{
    let a = push_construction(alloc, work, built, name, place, u, argument, value, steps)?;
    Ok(a)
}

/// The type that a primitive is used at, over the parameters in scope.
fn type_or_unit(alloc: Global, work: &mut Work, at: Option<usize>) -> Result<usize, NoMemory>
    ensures is { IfOk result (λ k. Stands work.new k (λ v. scoped v.scope (known_type at v.source))) }
    ensures next { IfOk result (λ _. work.new.next ≡ work.old.next) }
    ensures keeps { IfOk result (λ _. Keeps work.old work.new) }
{
    match at {
        Some(t) => {
            let k = scoped_type(alloc, work, ValueType::Source(t))?;
            Ok(k)
        }
        None => {
            let k = scoped_type(alloc, work, ValueType::Unit)?;
            Ok(k)
        }
    }
}

/// Where the values of fields are.
fn values(alloc: Global, fields: &[Field]) -> Result<Vec<usize>, NoMemory>
    ensures { IfOk result (λ made. made.items ≡ atoms_in fields.now) }
{
    let mut made = Vec::new(alloc);
    for i in 0..fields.len() {
        made.push(fields[i].atom)?;
    }
    Ok(made)
}

/// A primitive is performed on the parts of a tuple that is written.
pub fn push_performed(
    alloc: Global,
    work: &mut Work,
    place: Place,
    u: usize,
    primitive: BasisPrimitive,
    at: Option<usize>,
    fields: &[Field],
    steps: &mut Vec<Step>,
) -> Result<usize, NoMemory>
    ensures { IfOk result (λ a. (w v : State) (ss us : List Row) (f d : Reading → Source)
        → ((R : Reading) → way (f R) (d R) ≡ by_performing primitive (known_type at R))
        → Weighs w v ss us f → MakesTuple v work.old us steps.old.items d fields.now → Makes w work.new ss steps.new.items (applied place u f d) a) }
{
    let arguments = values(alloc, fields)?;
    let ty = type_or_unit(alloc, work, at)?;
    let operation = Operation::Perform {
        place: Some(place),
        primitive,
        ty,
        arguments,
    };
    let a = push_operation(alloc, work, ValueType::Source(u), operation, steps)?;
    Ok(a)
}
