// Types of primitives.
ghost use Rattle.std.specs.Prelude.{◌≡◌, ◌<◌, ◌∷◌, [], length, map, slice_get, take, IfOk, Some};
ghost use Rattle.ty_core.specs.Types.{con, arrow, name, none, more};
ghost use Rattle.ty_basis.specs.Types.{pair_type, function_type};
ghost use Rattle.ty_basis.specs.Primitives.{tuple_type, primitive_type};
ghost use Rattle.ty_table.specs.TypeAt.{type_at, types_at, AllBelow};
ghost use Rattle.ir_uses.specs.Shapes.{shape_type, shapes_of};

use ir_uses::shape::{Arguments, Shape, primitive_type};
use mlc_base::memory::NoMemory;
use mlc_names::label::Label;
use mlc_prims::basis::BasisPrimitive;
use std::alloc::Global;
use ty_core::name::TyName;
use ty_core::ty::Head;
use ty_table::types::Types;

/// A type name with one argument.
pub fn applied(
    alloc: Global,
    types: &mut Types,
    constructor: TyName,
    argument: usize,
) -> Result<usize, NoMemory>
    requires { argument < length types.old }
    ensures is { IfOk result (λ r. slice_get types.new r ≡ Some (con (name constructor) (more (type_at types.old argument) none))) }
    ensures earlier_stay { take (length types.old) types.new ≡ types.old }
{
    types.apply(alloc, Head::Named(constructor), &[argument])
}

/// The type of functions.
pub fn function(alloc: Global, types: &mut Types, from: usize, to: usize) -> Result<usize, NoMemory>
    requires from { from < length types.old }
    requires to { to < length types.old }
    ensures is { IfOk result (λ r. slice_get types.new r ≡ Some (function_type (type_at types.old from) (type_at types.old to))) }
    ensures earlier_stay { take (length types.old) types.new ≡ types.old }
{
    types.apply(alloc, Head::Function, &[from, to])
}

/// The type of pairs.
pub fn pair(
    alloc: Global,
    types: &mut Types,
    first: usize,
    second: usize,
) -> Result<usize, NoMemory>
    requires first { first < length types.old }
    requires second { second < length types.old }
    ensures is { IfOk result (λ r. slice_get types.new r ≡ Some (pair_type (type_at types.old first) (type_at types.old second))) }
    ensures earlier_stay { take (length types.old) types.new ≡ types.old }
{
    let labels = vec![in alloc; Label::Number(1), Label::Number(2)]?;
    types.apply(alloc, Head::Record(labels), &[first, second])
}

/// The type of triples.
fn triple(
    alloc: Global,
    types: &mut Types,
    first: usize,
    second: usize,
    third: usize,
) -> Result<usize, NoMemory>
    requires first { first < length types.old }
    requires second { second < length types.old }
    requires third { third < length types.old }
    ensures is { IfOk result (λ r. slice_get types.new r
        ≡ Some (tuple_type (type_at types.old first ∷ type_at types.old second ∷ type_at types.old third ∷ []))) }
    ensures earlier_stay { take (length types.old) types.new ≡ types.old }
{
    let labels = vec![in alloc; Label::Number(1), Label::Number(2), Label::Number(3)]?;
    types.apply(alloc, Head::Record(labels), &[first, second, third])
}

/// The type of references to the parameter.
fn reference_in(alloc: Global, types: &mut Types) -> Result<usize, NoMemory>
    ensures is { IfOk result (λ r. slice_get types.new r ≡ Some (shape_type Shape.Reference)) }
    ensures earlier_stay { take (length types.old) types.new ≡ types.old }
{
    let parameter = types.variable(alloc, 0)?;
    applied(alloc, types, TyName::REF, parameter)
}

/// The type of a shape.
pub fn shape_in(alloc: Global, types: &mut Types, shape: Shape) -> Result<usize, NoMemory>
    ensures is { IfOk result (λ r. slice_get types.new r ≡ Some (shape_type shape)) }
    ensures earlier_stay { take (length types.old) types.new ≡ types.old }
{
    match shape {
        Shape::Parameter => types.variable(alloc, 0),
        Shape::Reference => reference_in(alloc, types),
        Shape::Named(name) => types.apply(alloc, Head::Named(name), &[]),
        Shape::Unit => types.apply(alloc, Head::Record(Vec::new(alloc)), &[]),
    }
}

/// The type of two arguments.
fn two_in(alloc: Global, types: &mut Types, a: Shape, b: Shape) -> Result<usize, NoMemory>
    ensures is { IfOk result (λ r. slice_get types.new r ≡ Some (pair_type (shape_type a) (shape_type b))) }
    ensures earlier_stay { take (length types.old) types.new ≡ types.old }
{
    let first = shape_in(alloc, types, a)?;
    let second = shape_in(alloc, types, b)?;
    pair(alloc, types, first, second)
}

/// The type of three arguments.
fn three_in(
    alloc: Global,
    types: &mut Types,
    a: Shape,
    b: Shape,
    c: Shape,
) -> Result<usize, NoMemory>
    ensures is { IfOk result (λ r. slice_get types.new r ≡ Some (tuple_type (shape_type a ∷ shape_type b ∷ shape_type c ∷ []))) }
    ensures earlier_stay { take (length types.old) types.new ≡ types.old }
{
    let first = shape_in(alloc, types, a)?;
    let second = shape_in(alloc, types, b)?;
    let third = shape_in(alloc, types, c)?;
    triple(alloc, types, first, second, third)
}

/// The type of one argument, or of a tuple of them.
pub fn tuple_in(alloc: Global, types: &mut Types, arguments: Arguments) -> Result<usize, NoMemory>
    ensures is { IfOk result (λ r. slice_get types.new r ≡ Some (tuple_type (map shape_type (shapes_of arguments)))) }
    ensures earlier_stay { take (length types.old) types.new ≡ types.old }
{
    match arguments {
        Arguments::One(a) => shape_in(alloc, types, a),
        Arguments::Two(a, b) => two_in(alloc, types, a, b),
        Arguments::Three(a, b, c) => three_in(alloc, types, a, b, c),
    }
}

/// The type of a primitive as a value.
pub fn primitive_in(
    alloc: Global,
    types: &mut Types,
    primitive: BasisPrimitive,
) -> Result<usize, NoMemory>
    ensures is { IfOk result (λ r. slice_get types.new r ≡ Some (primitive_type primitive)) }
    ensures earlier_stay { take (length types.old) types.new ≡ types.old }
{
    let signature = primitive_type(primitive);
    let from = tuple_in(alloc, types, signature.arguments)?;
    let to = shape_in(alloc, types, signature.result)?;
    function(alloc, types, from, to)
}
