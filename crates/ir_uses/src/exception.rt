// Exceptions.
ghost use Rattle.std.specs.Prelude.{◌≡◌, ◌↔◌, List, Some, IsTrue, nat_lt};
ghost use Rattle.std.specs.Option.{option_map};
ghost use Rattle.ty_core.specs.Types.{Typ};
ghost use Rattle.ir_known.specs.of_ir_poly.Types.{function_type};
ghost use Rattle.ty_core.specs.declared.scheme.Quantified.{Quantified};
ghost use Rattle.ty_table.specs.TypeAt.{type_at};
ghost use Rattle.ir_known.specs.of_ir_poly.TestsChecked.{exception, exn_type, value_type};
ghost use Rattle.ir_known.specs.Knows.{known_of};
ghost use Rattle.prog_check.specs.Deciding.{known_argument, is_exception as is_value};

use ir_known::ask::{is_named, result_from, same_type};
use ir_known::known::Known;
use ty_core::name::TyName;
use ty_table::types::Types;

/// Whether the initial basis has an exception of this number.
pub fn is_initial(number: usize) -> bool
    ensures { result ≡ nat_lt number 7 }
{
    number < 7
}

/// Whether two arguments are the same: none, or of one type.
pub fn same_argument(types: &Types, argument: Option<usize>, other: Option<usize>) -> bool
    ensures { IsTrue result ↔ (option_map (type_at types.now) argument ≡ option_map (type_at types.now) other) }
{
    match argument {
        Some(t) => match other {
            Some(u) => same_type(types, t, u),
            None => false,
        },
        None => match other {
            Some(_) => false,
            None => true,
        },
    }
}

/// The type of an exception's argument, if it has one, where an exception is known.
pub fn exception_argument(known: Option<Known>) -> Option<Option<usize>>
    ensures { (ts : List Typ) (ps : List (List Quantified)) →
        known_argument (option_map (known_of ts ps) known) ≡ option_map (option_map (type_at ts)) result }
{
    match known {
        Some(found) => match found {
            Known::Exception(argument) => Some(argument),
            Known::OfType(_) => None,
            Known::General { .. } => None,
            Known::Own(_) => None,
        },
        None => None,
    }
}

/// Whether an exception with this argument is known.
pub fn is_exception(types: &Types, known: Option<Known>, argument: Option<usize>) -> bool
    ensures { (ps : List (List Quantified)) →
        IsTrue result ↔ (option_map (known_of types.now ps) known ≡ Some (exception (option_map (type_at types.now) argument))) }
{
    match exception_argument(known) {
        Some(found) => same_argument(types, found, argument),
        None => false,
    }
}

/// Whether a type is that of an exception as a value: a packet, or a function to packets.
pub fn is_exception_value(types: &Types, argument: Option<usize>, t: usize) -> bool
    ensures fits { IsTrue result ↔ (type_at types.now t ≡ value_type (option_map (type_at types.now) argument)) }
    ensures decided { result ≡ is_value (type_at types.now t) (Some (option_map (type_at types.now) argument)) }
{
    is_value_with(types, argument, t)
}

/// The same, by whether there is an argument.
fn is_value_with(types: &Types, argument: Option<usize>, t: usize) -> bool
    ensures { IsTrue result ↔ (type_at types.now t ≡ value_type (option_map (type_at types.now) argument)) }
{
    match argument {
        Some(a) => is_packets_from(types, a, t),
        None => is_named(types, t, TyName::EXN),
    }
}

/// Whether a type is that of functions from this one to packets.
fn is_packets_from(types: &Types, argument: usize, t: usize) -> bool
    ensures { IsTrue result ↔ (type_at types.now t ≡ function_type (type_at types.now argument) exn_type) }
{
    match result_from(types, t, argument) {
        Some(found) => is_named(types, found, TyName::EXN),
        None => false,
    }
}
