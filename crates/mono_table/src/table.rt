// The table of types.
ghost use Rattle.std.specs.Prelude.{◌≡◌, ◌↔◌, ◌&&◌, not, map, reverse, length, slice_get, IsTrue};
ghost use Rattle.std.specs.Option.{option_map};
ghost use Rattle.ty_core.specs.TypesOf.{head_of};
ghost use Rattle.ir_mono.specs.Types.{node, node_at, constructor_at, admits, IsTable};
ghost use Rattle.mono_fits.specs.Asked.{given};
ghost use Rattle.mono_table.specs.Right.{every, numbers_in, constructors_of, is_none, is_declared, argument_flag, number_flag, arguments_admit, node_compares, compares, row_right, rows_right, basis_right, table_right};

use ir_known::ask::BOOL;
use ir_uses::constructor::{FALSE, TRUE};
use mono_types::constructors::Constructors;
use mono_types::types::{Types, View};
use mono_uses::ask::{has_constructor, is_named, same_name};
use mono_uses::primitive::is_unit;
use ty_core::name::TyName;
use ty_core::ty::Head;

/// The numbers of unit and of truth values.
const UNIT_NUMBER: usize = 0;

const BOOL_NUMBER: usize = 1;

/// Type names up to this one are of the basis, and have no constructors.
const LAST_OF_BASIS: u32 = 5;

/// Whether all of these types can be compared.
fn all_admit(types: &Types, parts: &[usize]) -> bool
    ensures { result ≡ every (admits types.now) parts.now }
{
    for i in 0..parts.len() {
        let admits = types.admits_eq(parts[i]);
        if !admits {
            return false;
        }
    }
    true
}

/// Whether a constructor's argument can be compared, if it has one.
fn argument_admits(types: &Types, n: usize, number: usize) -> bool
    ensures { result ≡ argument_flag types.now (constructor_at types.now n number) }
{
    match types.constructor(n, number) {
        Some(argument) => match argument {
            Some(a) => types.admits_eq(a),
            None => true,
        },
        None => true,
    }
}

/// Whether the argument of the constructor that was the i-th to come can be compared.
fn admits_at(types: &Types, n: usize, constructors: &Constructors, i: usize) -> bool
    ensures { result ≡ number_flag types.now n (option_map (λ e. e.0) (slice_get (reverse constructors.now) i)) }
{
    match constructors.number_at(i) {
        Some(number) => argument_admits(types, n, number),
        None => true,
    }
}

/// Whether the arguments of constructors can be compared.
fn arguments_admit(types: &Types, n: usize, constructors: &Constructors) -> bool
    ensures { result ≡ arguments_admit types.now n (numbers_in constructors.now) }
{
    for i in 0..constructors.len() {
        let admits = admits_at(types, n, constructors, i);
        if !admits {
            return false;
        }
    }
    true
}

/// Whether the arguments of a type's constructors can be compared.
fn constructors_admit(types: &Types, n: usize) -> bool
    ensures { result ≡ arguments_admit types.now n (numbers_in (constructors_of types.now n)) }
{
    match types.constructors(n) {
        Some(constructors) => arguments_admit(types, n, constructors),
        None => true,
    }
}

/// Whether a type has no constructors.
fn has_none(types: &Types, n: usize) -> bool
    ensures { result ≡ is_none (constructors_of types.now n) }
{
    match types.constructors(n) {
        Some(constructors) => constructors.len() == 0,
        None => true,
    }
}

fn node_compares(types: &Types, n: usize, head: &Head, parts: &[usize]) -> bool
    ensures { result ≡ node_compares types.now n (node (head_of head.now) parts.now) }
{
    match head {
        Head::Function => false,
        Head::Record(_) => all_admit(types, parts),
        Head::Named(name) => !same_name(*name, TyName::EXN) && constructors_admit(types, n),
    }
}

/// Whether two values of a type can be compared.
fn compares(types: &Types, n: usize) -> bool
    ensures { result ≡ compares types.now n }
{
    match types.view(n) {
        View::Nothing => false,
        View::Apply(head, parts) => node_compares(types, n, head, parts),
    }
}

fn is_datatype(head: &Head, parts: &[usize]) -> bool
    ensures { result ≡ is_declared (node (head_of head.now) parts.now) }
{
    match head {
        Head::Named(name) => LAST_OF_BASIS < name.stamp,
        Head::Function => false,
        Head::Record(_) => false,
    }
}

/// Whether a type may have constructors.
fn is_declared(types: &Types, n: usize) -> bool
    ensures { result ≡ given (node_at types.now n) is_declared }
{
    match types.view(n) {
        View::Nothing => false,
        View::Apply(head, parts) => is_datatype(head, parts),
    }
}

/// Whether a type may stand in a table.
fn is_row(types: &Types, n: usize) -> bool
    ensures { result ≡ row_right types.now n }
{
    if types.admits_eq(n) && !compares(types, n) {
        return false;
    }
    has_none(types, n) || is_declared(types, n)
}

/// Whether each type may stand in a table.
fn are_rows(types: &Types) -> bool
    ensures { result ≡ rows_right types.now (length types.now) }
{
    for n in 0..types.len() {
        let right = is_row(types, n);
        if !right {
            return false;
        }
    }
    true
}

/// Whether unit and truth values have their numbers.
fn has_basis(types: &Types) -> bool
    ensures { result ≡ basis_right types.now }
{
    is_unit(types, UNIT_NUMBER)
        && is_named(types, BOOL_NUMBER, BOOL)
        && has_constructor(types, BOOL_NUMBER, FALSE, None)
        && has_constructor(types, BOOL_NUMBER, TRUE, None)
}

/// Whether types are a table.
pub fn is_table(types: &Types) -> bool
    ensures { IsTrue result ↔ IsTable types.now }
{
    let _len = types.len();
    has_basis(types) && are_rows(types)
}
