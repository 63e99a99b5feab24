// What is known of exceptions.
ghost use Rattle.std.specs.Prelude.{◌≡◌, []};
ghost use Rattle.std.specs.Option.{option_map};
ghost use Rattle.ty_table.specs.TypeAt.{type_at};
ghost use Rattle.ir_poly.specs.TestsChecked.{exn_type};
ghost use Rattle.prog_tree.specs.TreeOf.{exc_of};
ghost use Rattle.prog_check.specs.Same.{same_type};
ghost use Rattle.prog_check.specs.Deciding.{takes, exc_argument};
ghost use Rattle.prog_known.specs.Onto.{known_with};

use ir_known::ask::is_named;
use ir_tables::tables::Tables;
use prog_known::variables::Variables;
use prog_tree::tree::Exception;
use record_order::ir_uses::exception::{exception_argument, is_initial, same_argument};
use ty_core::name::TyName;
use ty_table::types::Types;

/// The argument of an exception of the initial basis, which has none.
fn initial_argument(number: usize) -> Option<Option<usize>>
    ensures { (t : Tables) → exc_argument [] (exc_of (Exception.Initial number)) ≡ option_map (option_map (type_at t.types)) result }
{
    if is_initial(number) { Some(None) } else { None }
}

/// The argument of an exception, if it is one: there may be none.
pub fn argument_of(variables: &Variables, exception: Exception) -> Option<Option<usize>>
    ensures { (t : Tables) → exc_argument (known_with t variables.now) (exc_of exception) ≡ option_map (option_map (type_at t.types)) result }
{
    match exception {
        Exception::Initial(number) => initial_argument(number),
        Exception::Held(variable) => exception_argument(variables.find(variable)),
    }
}

/// Whether a type is that of packets.
pub fn is_packet(types: &Types, ty: usize) -> bool
    ensures { result ≡ same_type (type_at types.now ty) exn_type }
{
    is_named(types, ty, TyName::EXN)
}

/// Whether an exception has this argument, or none.
pub fn takes(
    tables: &Tables,
    variables: &Variables,
    exception: Exception,
    argument: Option<usize>,
) -> bool
    ensures { result ≡ takes (option_map (type_at tables.now.types) argument) (exc_argument (known_with tables.now variables.now) (exc_of exception)) }
{
    match argument_of(variables, exception) {
        Some(found) => same_argument(&tables.types, found, argument),
        None => false,
    }
}
