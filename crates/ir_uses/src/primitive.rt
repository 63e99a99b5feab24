// Primitives at a type.
ghost use Rattle.std.specs.Prelude.{◌≡◌, ◌↔◌, [], ◌∷◌, map, IsTrue, IfOk};
ghost use Rattle.ty_core.specs.Marks.{Allows};
ghost use Rattle.ty_table.specs.TypeAt.{type_at};
ghost use Rattle.ir_known.specs.of_ir_poly.Types.{admits_in, arguments_at, prim_type, put, result_at, row_type, numbered, tuple_type};
ghost use Rattle.ir_known.specs.Knows.{marks_of};
ghost use Rattle.prog_check.specs.Deciding.{is_prim};
ghost use Rattle.ir_uses.specs.Uses.{value_at};
ghost use Rattle.ir_uses.specs.Shapes.{shape_type, shapes_of};

use crate::allow::is_allowed;
use crate::parts::{are_pair, are_triple, function_parts, is_single, record_parts};
use crate::shape::{Arguments, Shape, primitive_type};
use ir_known::ask::{is_named, is_reference, is_unit, same_type};
use ir_known::stack::Stack;
use ir_known::walk::is_over;
use mlc_base::memory::NoMemory;
use mlc_names::label::Label;
use mlc_prims::basis::BasisPrimitive;
use std::alloc::Global;
use ty_core::mark::Mark;
use ty_table::types::Types;

/// Whether a type has this shape, at a type for the parameter.
fn is_shape(types: &Types, shape: Shape, u: usize, t: usize) -> bool
    ensures { IsTrue result ↔ (type_at types.now t ≡ put (type_at types.now u) (shape_type shape)) }
{
    match shape {
        Shape::Parameter => same_type(types, t, u),
        Shape::Reference => is_reference(types, t, u),
        Shape::Named(name) => is_named(types, t, name),
        Shape::Unit => is_unit(types, t),
    }
}

/// Whether types have these shapes.
fn are_shapes(types: &Types, shapes: Arguments, u: usize, ts: &[usize]) -> bool
    ensures { IsTrue result ↔ (map (type_at types.now) ts.now ≡ map (put (type_at types.now u)) (map shape_type (shapes_of shapes))) }
{
    match shapes {
        Arguments::One(a) => is_one(types, a, u, ts),
        Arguments::Two(a, b) => is_two(types, a, b, u, ts),
        Arguments::Three(a, b, c) => {
            if ts.len() != 3 {
                return false;
            }
            if !is_shape(types, a, u, ts[0]) {
                return false;
            }
            is_two(types, b, c, u, &ts[1..])
        }
    }
}

/// Whether a list of types is one of this shape.
fn is_one(types: &Types, a: Shape, u: usize, ts: &[usize]) -> bool
    ensures { IsTrue result ↔ (map (type_at types.now) ts.now ≡ put (type_at types.now u) (shape_type a) ∷ []) }
{
    if ts.len() != 1 {
        return false;
    }
    is_shape(types, a, u, ts[0])
}

/// Whether a list of types is two of these shapes.
fn is_two(types: &Types, a: Shape, b: Shape, u: usize, ts: &[usize]) -> bool
    ensures { IsTrue result ↔ (map (type_at types.now) ts.now ≡ put (type_at types.now u) (shape_type a) ∷ put (type_at types.now u) (shape_type b) ∷ []) }
{
    if ts.len() != 2 {
        return false;
    }
    if !is_shape(types, a, u, ts[0]) {
        return false;
    }
    is_shape(types, b, u, ts[1])
}

/// Whether these are the types of a primitive's arguments, at a type for its parameter.
pub fn takes(types: &Types, primitive: BasisPrimitive, u: usize, arguments: &[usize]) -> bool
    ensures { IsTrue result ↔ (map (type_at types.now) arguments.now ≡ arguments_at primitive (type_at types.now u)) }
{
    are_shapes(types, primitive_type(primitive).arguments, u, arguments)
}

/// Whether this is the type of a primitive's result, at a type for its parameter.
pub fn gives(types: &Types, primitive: BasisPrimitive, u: usize, t: usize) -> bool
    ensures { IsTrue result ↔ (type_at types.now t ≡ result_at primitive (type_at types.now u)) }
{
    is_shape(types, primitive_type(primitive).result, u, t)
}

/// Whether labels are the numbers of a tuple of so many shapes.
fn are_numbers(labels: &[Label], shapes: Arguments) -> bool
    ensures { IsTrue result ↔ (labels.now ≡ map (λ f. f.0) (numbered 1 (map shape_type (shapes_of shapes)))) }
{
    match shapes {
        Arguments::One(_) => is_single(labels),
        Arguments::Two(_, _) => are_pair(labels),
        Arguments::Three(_, _, _) => are_triple(labels),
    }
}

/// Whether a type is that of records with the labels 1, 2, .. and fields of these shapes.
fn is_numbered(types: &Types, shapes: Arguments, u: usize, t: usize) -> bool
    ensures { IsTrue result ↔ (type_at types.now t ≡ row_type (numbered 1 (map (put (type_at types.now u)) (map shape_type (shapes_of shapes))))) }
{
    match record_parts(types, t) {
        Some((labels, parts)) => {
            if !are_numbers(labels, shapes) {
                return false;
            }
            are_shapes(types, shapes, u, parts)
        }
        None => false,
    }
}

/// Whether a type is that of one argument, or of a tuple of them.
fn is_tuple(types: &Types, shapes: Arguments, u: usize, t: usize) -> bool
    ensures { IsTrue result ↔ (type_at types.now t ≡ tuple_type (map (put (type_at types.now u)) (map shape_type (shapes_of shapes)))) }
{
    match shapes {
        Arguments::One(a) => is_shape(types, a, u, t),
        Arguments::Two(_, _) => is_numbered(types, shapes, u, t),
        Arguments::Three(_, _, _) => is_numbered(types, shapes, u, t),
    }
}

/// Whether a type is that of a primitive as a value, at a type for its parameter.
pub fn is_value_type(types: &Types, primitive: BasisPrimitive, u: usize, t: usize) -> bool
    ensures { IsTrue result ↔ (type_at types.now t ≡ value_at primitive (type_at types.now u)) }
{
    match function_parts(types, t) {
        Some((from, to)) => {
            if !gives(types, primitive, u, to) {
                return false;
            }
            is_tuple(types, primitive_type(primitive).arguments, u, from)
        }
        None => false,
    }
}

/// Whether a primitive's parameter may stand for a type.
pub fn admits_type(
    alloc: Global,
    types: &Types,
    scope: &Stack<Mark>,
    primitive: BasisPrimitive,
    u: usize,
) -> Result<bool, NoMemory>
    ensures { IfOk result (λ yes. IsTrue yes ↔ Allows (prim_type primitive).mark (admits_in (marks_of scope.now)) (type_at types.now u)) }
{
    let yes = is_allowed(alloc, types, scope, primitive_type(primitive).mark, u)?;
    Ok(yes)
}

/// Whether a primitive is a value of this type, at a type that its parameter may stand for.
pub fn is_primitive_value(
    alloc: Global,
    types: &Types,
    scope: &Stack<Mark>,
    primitive: BasisPrimitive,
    u: usize,
    t: usize,
) -> Result<bool, NoMemory>
    ensures { IfOk result (λ yes. IsTrue yes ↔ (Allows (prim_type primitive).mark (admits_in (marks_of scope.now)) (type_at types.now u)
        × (type_at types.now t ≡ value_at primitive (type_at types.now u)))) }
{
    let allowed = admits_type(alloc, types, scope, primitive, u)?;
    if !allowed {
        return Ok(false);
    }
    Ok(is_value_type(types, primitive, u, t))
}

/// Whether a primitive is a value of this type, at one type over the parameters in scope.
pub fn is_primitive_use(
    alloc: Global,
    types: &Types,
    scope: &Stack<Mark>,
    primitive: BasisPrimitive,
    ts: &[usize],
    t: usize,
) -> Result<bool, NoMemory>
    ensures { IfOk result (λ yes. yes ≡ is_prim (marks_of scope.now) primitive (map (type_at types.now) ts.now) (type_at types.now t)) }
{
    if ts.len() != 1 {
        return Ok(false);
    }
    let u = ts[0];
    let over = is_over(alloc, types, scope, u)?;
    if !over {
        return Ok(false);
    }
    let yes = is_primitive_value(alloc, types, scope, primitive, u, t)?;
    Ok(yes)
}
