// Primitives at a type.
ghost use Rattle.std.specs.Prelude.{◌≡◌, ◌&&◌, map};
ghost use Rattle.ty_core.specs.Types.{typs_of};
ghost use Rattle.ty_core.specs.Marks.{has, overloaded};
ghost use Rattle.ir_uses.specs.Shapes.{shape_type, shapes_of};
ghost use Rattle.mono_fits.specs.Asked.{allows, class_has, stands, all_stand, tuple_stands, is_primitive, performs};
ghost use Rattle.mono_uses.specs.Nodes.{one_of, two_of, three_of};
ghost use Rattle.mono_uses.specs.Shaped.{are_numbers, is_unit, is_one, are_two, are_three, is_labelled, is_value};

use crate::ask::{is_named, is_reference, same_name};
use crate::label::{are_pair, are_triple};
use crate::node::{function_parts, record_parts, type_name};
use ir_uses::shape::{Arguments, Shape, Signature, primitive_type};
use mlc_names::label::Label;
use mlc_prims::basis::BasisPrimitive;
use mono_types::types::Types;
use ty_core::mark::{Class, Mark};
use ty_core::name::{Equality, TyName};

/// Whether a class has the type of this number.
fn has_number(class: Class, number: u32) -> bool
    ensures { result ≡ has class number }
{
    match number {
        0 => class.int,
        1 => class.word,
        2 => class.char,
        3 => class.string,
        _ => false,
    }
}

/// The overloaded type name of this number.
fn overloaded(number: u32) -> TyName
    ensures { result ≡ overloaded number }
{
    TyName {
        stamp: number,
        arity: 0,
        equality: Equality::Always,
    }
}

/// Whether the class has the type of this name.
fn class_has(class: Class, name: TyName) -> bool
    ensures { result ≡ class_has class name }
{
    has_number(class, name.stamp) && same_name(name, overloaded(name.stamp))
}

/// Whether a mark allows a type.
fn allows(types: &Types, mark: Mark, n: usize) -> bool
    ensures { result ≡ allows types.now mark n }
{
    match mark {
        Mark::Any => true,
        Mark::Equality => types.admits_eq(n),
        Mark::Class(class) => match type_name(types, n) {
            Some(name) => class_has(class, name),
            None => false,
        },
    }
}

/// Whether a type is that of unit.
pub fn is_unit(types: &Types, n: usize) -> bool
    ensures { result ≡ is_unit types.now n }
{
    match record_parts(types, n) {
        Some((labels, parts)) => labels.len() == 0 && parts.len() == 0,
        None => false,
    }
}

/// Whether a type has a shape, at the type u for the parameter.
fn is_shape(types: &Types, u: usize, n: usize, shape: Shape) -> bool
    ensures { result ≡ stands types.now u n (shape_type shape) }
{
    match shape {
        Shape::Parameter => n == u,
        Shape::Reference => is_reference(types, n, u),
        Shape::Named(name) => is_named(types, n, name),
        Shape::Unit => is_unit(types, n),
    }
}

fn one(ns: &[usize]) -> Option<usize>
    ensures { result ≡ one_of ns.now }
{
    if ns.len() == 1 { Some(ns[0]) } else { None }
}

fn two(ns: &[usize]) -> Option<(usize, usize)>
    ensures { result ≡ two_of ns.now }
{
    if ns.len() == 2 {
        Some((ns[0], ns[1]))
    } else {
        None
    }
}

fn three(ns: &[usize]) -> Option<(usize, usize, usize)>
    ensures { result ≡ three_of ns.now }
{
    if ns.len() == 3 {
        Some((ns[0], ns[1], ns[2]))
    } else {
        None
    }
}

fn is_one(types: &Types, u: usize, ns: &[usize], a: Shape) -> bool
    ensures { result ≡ is_one types.now u ns.now a }
{
    match one(ns) {
        Some(n) => is_shape(types, u, n, a),
        None => false,
    }
}

fn are_two(types: &Types, u: usize, ns: &[usize], a: Shape, b: Shape) -> bool
    ensures { result ≡ are_two types.now u ns.now a b }
{
    match two(ns) {
        Some((n, m)) => is_shape(types, u, n, a) && is_shape(types, u, m, b),
        None => false,
    }
}

fn are_three(types: &Types, u: usize, ns: &[usize], a: Shape, b: Shape, third: Shape) -> bool
    ensures { result ≡ are_three types.now u ns.now a b third }
{
    match three(ns) {
        Some((n, m, k)) => {
            is_shape(types, u, n, a) && is_shape(types, u, m, b) && is_shape(types, u, k, third)
        }
        None => false,
    }
}

/// Whether types have these shapes.
fn are_shapes(types: &Types, u: usize, ns: &[usize], shapes: Arguments) -> bool
    ensures { result ≡ all_stand types.now u ns.now (typs_of (map shape_type (shapes_of shapes))) }
{
    match shapes {
        Arguments::One(a) => is_one(types, u, ns, a),
        Arguments::Two(a, b) => are_two(types, u, ns, a, b),
        Arguments::Three(a, b, third) => are_three(types, u, ns, a, b, third),
    }
}

/// Whether labels are the numbers of a tuple of so many.
fn are_numbers(labels: &[Label], shapes: Arguments) -> bool
    ensures { result ≡ are_numbers shapes labels.now }
{
    match shapes {
        Arguments::One(_) => false,
        Arguments::Two(_, _) => are_pair(labels),
        Arguments::Three(_, _, _) => are_triple(labels),
    }
}

/// Whether a type is that of tuples of these shapes.
fn is_labelled(types: &Types, u: usize, n: usize, shapes: Arguments) -> bool
    ensures { result ≡ is_labelled types.now u n shapes }
{
    match record_parts(types, n) {
        Some((labels, parts)) => are_numbers(labels, shapes) && are_shapes(types, u, parts, shapes),
        None => false,
    }
}

/// Whether a type is that of one argument, or of a tuple of them.
fn is_tuple(types: &Types, u: usize, n: usize, shapes: Arguments) -> bool
    ensures { result ≡ tuple_stands types.now u n (map shape_type (shapes_of shapes)) }
{
    match shapes {
        Arguments::One(a) => is_shape(types, u, n, a),
        Arguments::Two(_, _) => is_labelled(types, u, n, shapes),
        Arguments::Three(_, _, _) => is_labelled(types, u, n, shapes),
    }
}

/// Whether a type is that of functions that take these arguments and give this result.
fn is_value(types: &Types, u: usize, n: usize, signature: Signature) -> bool
    ensures { result ≡ is_value types.now u n signature }
{
    match function_parts(types, n) {
        Some((from, to)) => {
            is_tuple(types, u, from, signature.arguments)
                && is_shape(types, u, to, signature.result)
        }
        None => false,
    }
}

/// Whether a primitive at the type u is a value of a type.
pub fn is_primitive(types: &Types, primitive: BasisPrimitive, u: usize, n: usize) -> bool
    ensures { result ≡ is_primitive types.now primitive u n }
{
    let signature = primitive_type(primitive);
    if !allows(types, signature.mark, u) {
        return false;
    }
    is_value(types, u, n, signature)
}

/// Whether types are those of arguments, and of the result.
fn do_fit(types: &Types, u: usize, ns: &[usize], r: usize, signature: Signature) -> bool
    ensures { result ≡ (all_stand types.now u ns.now (typs_of (map shape_type (shapes_of signature.arguments)))
        && stands types.now u r (shape_type signature.result)) }
{
    are_shapes(types, u, ns, signature.arguments) && is_shape(types, u, r, signature.result)
}

/// Whether a primitive at the type u takes arguments of these types, and gives one of another.
pub fn performs(types: &Types, primitive: BasisPrimitive, u: usize, ns: &[usize], r: usize) -> bool
    ensures { result ≡ performs types.now primitive u ns.now r }
{
    let signature = primitive_type(primitive);
    if !allows(types, signature.mark, u) {
        return false;
    }
    do_fit(types, u, ns, r, signature)
}
