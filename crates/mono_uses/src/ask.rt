// What is asked of types.
ghost use Rattle.std.specs.Prelude.{◌≡◌, ◌↔◌, List, ℕ, IsTrue};
ghost use Rattle.std.specs.Option.{option_and_then};
ghost use Rattle.ir_tables.specs.Tables.{literal_at};
ghost use Rattle.mono_fits.specs.of_prog_check.Same.{same_name as same_names, equality_number};
ghost use Rattle.mono_fits.specs.Asked.{is_named, is_exn, is_reference, result_from, is_function, has_literal, has_constructor, is_alone, is_alone_use, is_exception, is_maker, field_of, is_sized, same_argument};
ghost use Rattle.ir_poly.specs.TestsChecked.{is_size};

use crate::label::part_at;
use crate::node::{applied, function_parts, record_parts, type_name};
use ir_tables::tables::Constant;
use mlc_names::label::Label;
use mono_types::types::Types;
use ty_core::name::{Equality, TyName};

fn equality_number(equality: Equality) -> usize
    ensures { result ≡ equality_number equality }
{
    match equality {
        Equality::Always => 0,
        Equality::ByArguments => 1,
        Equality::Never => 2,
    }
}

/// Whether two type names are one.
pub fn same_name(name: TyName, other: TyName) -> bool
    ensures { result ≡ same_names name other }
{
    name.stamp == other.stamp
        && name.arity == other.arity
        && equality_number(name.equality) == equality_number(other.equality)
}

/// Whether two arguments' types are one, or there is none twice.
pub fn same_type(argument: Option<usize>, other: Option<usize>) -> bool
    ensures { result ≡ same_argument argument other }
{
    match argument {
        Some(m) => match other {
            Some(n) => m == n,
            None => false,
        },
        None => other.is_none(),
    }
}

/// Whether a type is a type name without arguments.
pub fn is_named(types: &Types, n: usize, name: TyName) -> bool
    ensures { result ≡ is_named types.now n name }
{
    match type_name(types, n) {
        Some(found) => same_name(found, name),
        None => false,
    }
}

/// Whether a type is that of exceptions.
pub fn is_exn(types: &Types, n: usize) -> bool
    ensures { result ≡ is_exn types.now n }
{
    is_named(types, n, TyName::EXN)
}

/// Whether a type is that of references to another.
pub fn is_reference(types: &Types, n: usize, held: usize) -> bool
    ensures { result ≡ is_reference types.now n held }
{
    match applied(types, n) {
        Some((name, argument)) => same_name(name, TyName::REF) && held == argument,
        None => false,
    }
}

/// What functions of a type give, if they take another.
pub fn result_from(types: &Types, n: usize, argument: usize) -> Option<usize>
    ensures { result ≡ result_from types.now n argument }
{
    match function_parts(types, n) {
        Some((from, to)) => { if from == argument { Some(to) } else { None } }
        None => None,
    }
}

/// Whether a type is that of functions between two.
pub fn is_function(types: &Types, n: usize, argument: usize, given: usize) -> bool
    ensures { result ≡ is_function types.now n argument given }
{
    match result_from(types, n, argument) {
        Some(found) => given == found,
        None => false,
    }
}

/// Whether a constant has a type.
pub fn has_literal(types: &Types, constant: Constant, n: usize) -> bool
    ensures { (strings : List (List ℕ)) → result ≡ has_literal types.now (literal_at strings constant) n }
{
    match constant {
        Constant::Int(_) => is_named(types, n, TyName::INT),
        Constant::Word(_) => is_named(types, n, TyName::WORD),
        Constant::Char(_) => is_named(types, n, TyName::CHAR),
        Constant::Text(_) => is_named(types, n, TyName::STRING),
    }
}

/// Whether a type has a constructor, with this argument.
pub fn has_constructor(types: &Types, n: usize, constructor: usize, argument: Option<usize>) -> bool
    ensures { result ≡ has_constructor types.now n constructor argument }
{
    match types.constructor(n, constructor) {
        Some(found) => same_type(argument, found),
        None => false,
    }
}

/// Whether a constructor of the type u with this argument is a value of the type n.
fn is_alone(types: &Types, argument: Option<usize>, u: usize, n: usize) -> bool
    ensures { result ≡ is_alone types.now argument u n }
{
    match argument {
        Some(a) => is_function(types, n, a, u),
        None => u == n,
    }
}

/// Whether a constructor of the type u is a value of the type n.
pub fn is_alone_use(types: &Types, constructor: usize, u: usize, n: usize) -> bool
    ensures { result ≡ is_alone_use types.now constructor u n }
{
    match types.constructor(u, constructor) {
        Some(argument) => is_alone(types, argument, u, n),
        None => false,
    }
}

/// Whether an exception with this argument is a value of a type.
pub fn is_exception(types: &Types, argument: Option<usize>, n: usize) -> bool
    ensures { result ≡ is_exception types.now argument n }
{
    match argument {
        Some(a) => match result_from(types, n, a) {
            Some(found) => is_exn(types, found),
            None => false,
        },
        None => is_exn(types, n),
    }
}

/// Whether `ref` of values of the type a is a value of a type.
pub fn is_maker(types: &Types, a: usize, n: usize) -> bool
    ensures { result ≡ is_maker types.now a n }
{
    match result_from(types, n, a) {
        Some(found) => is_reference(types, found, a),
        None => false,
    }
}

/// The type of a field, if a type is that of records that have it.
pub fn field_of(types: &Types, n: usize, label: Label) -> Option<usize>
    ensures { result ≡ field_of types.now n label }
{
    match record_parts(types, n) {
        Some((labels, parts)) => part_at(labels, parts, &label),
        None => None,
    }
}

/// Whether a number is the one that is asked for, if one is.
fn is_of_size(size: Option<usize>, len: usize) -> bool
    ensures { result ≡ is_size size len }
{
    match size {
        Some(wanted) => wanted == len,
        None => true,
    }
}

/// Whether a type is that of records, with so many fields where a number is asked for.
pub fn is_sized(types: &Types, size: Option<usize>, n: usize) -> bool
    ensures { result ≡ is_sized types.now size n }
{
    match record_parts(types, n) {
        Some((labels, _)) => is_of_size(size, labels.len()),
        None => false,
    }
}
