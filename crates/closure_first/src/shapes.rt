// Shapes of types.
ghost use Rattle.std.specs.Prelude.{◌≡◌, ◌∷◌, ◌++◌, [], ℕ, List, Some, map, reverse, nat_eq, slice_get, if◌then◌else◌, IfOk};
ghost use Rattle.std.specs.Option.{option_map};
ghost use Rattle.ty_core.specs.TypesOf.{head_of};
ghost use Rattle.ir_mono.specs.Types.{Row, node, bool_number};
ghost use Rattle.first_tables.specs.TablesOf.{items_of, shape_of};
ghost use Rattle.closure_meaning.specs.Convert as clean;
ghost use Rattle.closure_meaning.specs.Convert.{argument_types, part_types, parts_among, constructors_in};
ghost use Rattle.closure_first.specs.Shapes.{by_stamp, parts_next};

use first_tables::tables::Shape;
use mlc_base::make::one;
use mlc_base::memory::NoMemory;
use mono_types::constructors::Constructors;
use mono_types::types::{Types, View};
use std::alloc::Global;
use ty_core::name::TyName;
use ty_core::ty::Head;

/// The number of the type of truth values.
const BOOL: usize = 1;

fn is_stamp(stamp: u32, other: u32) -> bool
    ensures { result ≡ nat_eq stamp other }
{
    stamp == other
}

fn is_bool(ty: usize) -> bool
    ensures { result ≡ nat_eq ty bool_number }
{
    ty == BOOL
}

/// The shape of a type whose name has this number.
fn shape_named(stamp: u32, parts: Vec<Vec<usize>>) -> Shape
    ensures { shape_of result ≡ by_stamp stamp (map items_of parts.items) }
{
    if is_stamp(stamp, TyName::STRING.stamp) {
        Shape::Texts
    } else if is_stamp(stamp, TyName::REF.stamp) {
        Shape::References
    } else if is_stamp(stamp, TyName::INT.stamp) {
        Shape::Numbers
    } else if is_stamp(stamp, TyName::WORD.stamp) {
        Shape::Numbers
    } else if is_stamp(stamp, TyName::CHAR.stamp) {
        Shape::Numbers
    } else {
        Shape::Cells(parts)
    }
}

/// The types of what a constructor takes.
fn taken(alloc: Global, argument: Option<usize>) -> Result<Vec<usize>, NoMemory>
    ensures { IfOk result (λ made. made.items ≡ argument_types argument) }
{
    match argument {
        Some(ty) => one(alloc, ty),
        None => Ok(Vec::new(alloc)),
    }
}

/// The types of what the constructor takes that was the i-th to come, if there is one.
fn push_taken(
    alloc: Global,
    constructors: &Constructors,
    i: usize,
    parts: &mut Vec<Vec<usize>>,
) -> Result<(), NoMemory>
    ensures { IfOk result (λ _. map items_of parts.new.items
        ≡ parts_next (map items_of parts.old.items) (option_map (λ k. k.1) (slice_get (reverse constructors.now) i))) }
{
    match constructors.argument_at(i) {
        Some(argument) => {
            let next = taken(alloc, argument)?;
            parts.push(next)?;
            Ok(())
        }
        None => Ok(()),
    }
}

/// No parts at the tags of false and true, behind what is there.
fn push_truths(alloc: Global, truths: bool, parts: &mut Vec<Vec<usize>>) -> Result<(), NoMemory>
    ensures { IfOk result (λ _. map items_of parts.new.items ≡ map items_of parts.old.items ++ (if truths then [] ∷ [] ∷ [] else [])) }
{
    if truths {
        parts.push(Vec::new(alloc))?;
        parts.push(Vec::new(alloc))?;
    }
    Ok(())
}

/// The types of the parts at each tag, the latest constructor first.
fn parts_of(
    alloc: Global,
    truths: bool,
    constructors: &Constructors,
) -> Result<Vec<Vec<usize>>, NoMemory>
    ensures { IfOk result (λ parts. map items_of parts.items ≡ parts_among truths constructors.now) }
{
    let mut parts = Vec::new(alloc);
    for i in 0..constructors.len() {
        push_taken(alloc, constructors, i, &mut parts)?;
    }
    push_truths(alloc, truths, &mut parts)?;
    parts.reverse();
    Ok(parts)
}

fn parts_at(alloc: Global, types: &Types, ty: usize) -> Result<Vec<Vec<usize>>, NoMemory>
    ensures { IfOk result (λ parts. map items_of parts.items ≡ parts_among (nat_eq ty bool_number) (constructors_in (slice_get types.now ty))) }
{
    match types.constructors(ty) {
        Some(constructors) => parts_of(alloc, is_bool(ty), constructors),
        None => parts_of(alloc, is_bool(ty), &Constructors::new(alloc)),
    }
}

fn shape_by(
    alloc: Global,
    types: &Types,
    ty: usize,
    head: &Head,
    parts: &[usize],
) -> Result<Shape, NoMemory>
    ensures { IfOk result (λ shape. (r : Row) → slice_get types.now ty ≡ Some r
        → shape_of shape ≡ clean.shape_of (nat_eq ty bool_number) r (node (head_of head.now) parts.now)) }
{
    match head {
        Head::Function => Ok(Shape::Opaque),
        Head::Record(_) => {
            let fields = Vec::from_slice(alloc, parts)?;
            let cells = one(alloc, fields)?;
            Ok(Shape::Cells(cells))
        }
        Head::Named(name) => {
            let cells = parts_at(alloc, types, ty)?;
            Ok(shape_named(name.stamp, cells))
        }
    }
}

fn shape_at(alloc: Global, types: &Types, ty: usize) -> Result<Shape, NoMemory>
    ensures { IfOk result (λ shape. (r : Row) → slice_get types.now ty ≡ Some r
        → shape_of shape ≡ clean.shape_of (nat_eq ty bool_number) r r.type) }
{
    match types.view(ty) {
        View::Nothing => Ok(Shape::Opaque),
        View::Apply(head, parts) => shape_by(alloc, types, ty, head, parts),
    }
}

/// How the values of each type are compared.
pub fn shapes(alloc: Global, types: &Types) -> Result<Vec<Shape>, NoMemory>
    ensures { IfOk result (λ made. map shape_of made.items ≡ clean.shapes types.now) }
{
    let mut made = Vec::new(alloc);
    for ty in 0..types.len() {
        let next = shape_at(alloc, types, ty)?;
        made.push(next)?;
    }
    Ok(made)
}
