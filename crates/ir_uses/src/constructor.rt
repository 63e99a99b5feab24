// Constructors.
ghost use Rattle.std.specs.Prelude.{◌≡◌, ◌≢◌, ◌↔◌, ◌&&◌, List, Some, None, map, nat_eq, IsTrue, IfOk};
ghost use Rattle.std.specs.Option.{option_map};
ghost use Rattle.ty_core.specs.Types.{Typ, con, name, typs_of};
ghost use Rattle.ty_table.specs.TypeAt.{type_at};
ghost use Rattle.ir_known.specs.of_ir_poly.Types.{argument_at, find, initial_constructors, list_type, nth_type, pair_type, function_type};
ghost use Rattle.ir_known.specs.of_ir_poly.TestsChecked.{HasConstructor, alone_type};
ghost use Rattle.ir_known.specs.Knows.{marks_of};
ghost use Rattle.prog_check.specs.Deciding.{argument_of, row_argument, takes, is_con};
ghost use Rattle.ir_uses.specs.Uses.{table_at};
ghost use Rattle.ir_uses.specs.Rows.{IsAlone, argument_type, kind_of, row_kind};

use crate::images::in_order;
use crate::parts::{are_pair, function_parts, named_parts, record_parts, same_types};
use crate::using::are_over;
use ir_known::ask::{BOOL, is_unit, same_type};
use ir_known::image::{Rest, is_image};
use ir_known::ir_tables::tables::Tables;
use ir_known::stack::Stack;
use mlc_base::memory::NoMemory;
use std::alloc::Global;
use ty_core::mark::Mark;
use ty_core::name::{Equality, TyName};
use ty_table::types::Types;

/// The type name of lists.
pub const LIST: TyName = TyName {
    stamp: 7,
    arity: 1,
    equality: Equality::ByArguments,
};

/// The numbers of the constructors that derived forms name: those of their words.
pub const TRUE: usize = 11;

pub const FALSE: usize = 12;

pub const NIL: usize = 13;

pub const CONS: usize = 14;

/// The argument of a constructor: none, one of a type over the parameters of the datatype, or that of a list's constructor.
#[derive(Clone, Copy)]
pub enum Argument {
    Nothing,
    Of(usize),
    Cell,
}

/// A constructor that is found: its datatype and its argument.
#[derive(Clone, Copy)]
pub struct Row {
    pub datatype: TyName,
    pub argument: Argument,
}

/// Whether these are a datatype's number and a constructor's.
fn is_at(datatype: TyName, number: usize, stamp: u32, constructor: usize) -> bool
    ensures { result ≡ (nat_eq stamp datatype.stamp && nat_eq constructor number) }
{
    stamp == datatype.stamp && constructor == number
}

/// A constructor that derived forms name.
fn find_initial(datatype: TyName, number: usize) -> Option<Row>
    ensures { (ts : List Typ) → option_map kind_of (find initial_constructors datatype number) ≡ option_map (row_kind ts) result }
{
    let alone = Argument::Nothing;
    if is_at(datatype, number, BOOL.stamp, FALSE) {
        return Some(Row {
            datatype: BOOL,
            argument: alone,
        });
    }
    if is_at(datatype, number, BOOL.stamp, TRUE) {
        return Some(Row {
            datatype: BOOL,
            argument: alone,
        });
    }
    if is_at(datatype, number, LIST.stamp, NIL) {
        return Some(Row {
            datatype: LIST,
            argument: alone,
        });
    }
    if is_at(datatype, number, LIST.stamp, CONS) {
        return Some(Row {
            datatype: LIST,
            argument: Argument::Cell,
        });
    }
    None
}

/// The argument of a constructor of the table.
fn argument_in(argument: Option<usize>) -> Argument
    ensures { (ts : List Typ) → argument_type ts result ≡ option_map (type_at ts) argument }
{
    match argument {
        Some(t) => Argument::Of(t),
        None => Argument::Nothing,
    }
}

/// A constructor of the program.
fn find_row(tables: &Tables, datatype: TyName, number: usize) -> Option<Row>
    ensures { option_map kind_of (find (table_at tables.now) datatype number) ≡ option_map (row_kind tables.now.types) result }
{
    match find_initial(datatype, number) {
        Some(row) => Some(row),
        None => match tables.constructors.find(datatype, number) {
            Some(found) => Some(Row {
                datatype: found.datatype,
                argument: argument_in(found.argument),
            }),
            None => None,
        },
    }
}

/// Whether two type names are one.
fn same_name(name: TyName, other: TyName) -> bool
    ensures { IsTrue result ↔ (name ≡ other) }
{
    name == other
}

/// The argument of a constructor of the program, if this datatype has the constructor.
fn find_argument(tables: &Tables, datatype: TyName, number: usize) -> Option<Argument>
    ensures { (ts : List Typ) → row_argument datatype ts (find (table_at tables.now) datatype number)
        ≡ option_map (λ a. argument_at ts (argument_type tables.now.types a)) result }
{
    match find_row(tables, datatype, number) {
        Some(row) => {
            if same_name(row.datatype, datatype) {
                Some(row.argument)
            } else {
                None
            }
        }
        None => None,
    }
}

/// Whether a type is the first of these types, or unit where there is none.
fn is_first(types: &Types, parts: &[usize], t: usize) -> bool
    ensures { IsTrue result ↔ (type_at types.now t ≡ nth_type (map (type_at types.now) parts.now) 0) }
{
    if parts.is_empty() {
        is_unit(types, t)
    } else {
        same_type(types, t, parts[0])
    }
}

/// Whether a type is that of lists of the first of these types.
fn is_list(types: &Types, parts: &[usize], t: usize) -> bool
    ensures { IsTrue result ↔ (type_at types.now t ≡ list_type (nth_type (map (type_at types.now) parts.now) 0)) }
{
    match named_parts(types, t) {
        Some((found, held)) => {
            if !same_name(found, LIST) {
                return false;
            }
            if held.len() != 1 {
                return false;
            }
            is_first(types, parts, held[0])
        }
        None => false,
    }
}

/// Whether a type is that of pairs of the first of these types and a list of it.
fn is_cell(types: &Types, parts: &[usize], t: usize) -> bool
    ensures { IsTrue result ↔ (type_at types.now t
        ≡ pair_type (nth_type (map (type_at types.now) parts.now) 0) (list_type (nth_type (map (type_at types.now) parts.now) 0))) }
{
    match record_parts(types, t) {
        Some((labels, held)) => {
            if !are_pair(labels) {
                return false;
            }
            if held.len() != 2 {
                return false;
            }
            if !is_first(types, parts, held[0]) {
                return false;
            }
            is_list(types, parts, held[1])
        }
        None => false,
    }
}

/// Whether a type is that of a constructor's argument, in the datatype at these types.
fn is_argument(
    alloc: Global,
    types: &Types,
    argument: Argument,
    parts: &[usize],
    t: usize,
) -> Result<bool, NoMemory>
    ensures { IfOk result (λ yes. IsTrue yes ↔
        (argument_at (map (type_at types.now) parts.now) (argument_type types.now argument) ≡ Some (type_at types.now t))) }
{
    match argument {
        Argument::Nothing => Ok(false),
        Argument::Of(body) => {
            let images = in_order(alloc, parts)?;
            let yes = is_image(alloc, types, &images, Rest::Unit, body, t)?;
            Ok(yes)
        }
        Argument::Cell => Ok(is_cell(types, parts, t)),
    }
}

/// Whether a constructor has no argument.
fn is_nothing(argument: Argument) -> bool
    ensures { (ts us : List Typ) → IsTrue result ↔ (argument_at us (argument_type ts argument) ≡ None) }
{
    match argument {
        Argument::Nothing => true,
        Argument::Of(_) => false,
        Argument::Cell => false,
    }
}

/// Whether a constructor's argument has this type, in the datatype at these types, or neither is there.
fn is_such_argument(
    alloc: Global,
    types: &Types,
    found: Argument,
    parts: &[usize],
    argument: Option<usize>,
) -> Result<bool, NoMemory>
    ensures { IfOk result (λ yes. IsTrue yes ↔
        (argument_at (map (type_at types.now) parts.now) (argument_type types.now found) ≡ option_map (type_at types.now) argument)) }
{
    match argument {
        Some(t) => is_argument(alloc, types, found, parts, t),
        None => Ok(is_nothing(found)),
    }
}

/// Whether a type has this constructor, with an argument of this type or none.
fn has_argument(
    alloc: Global,
    tables: &Tables,
    constructor: usize,
    t: usize,
    argument: Option<usize>,
) -> Result<bool, NoMemory>
    ensures { IfOk result (λ yes. IsTrue yes ↔
        (argument_of (table_at tables.now) constructor (type_at tables.now.types t) ≡ Some (option_map (type_at tables.now.types) argument))) }
{
    match named_parts(&tables.types, t) {
        Some((datatype, parts)) => match find_argument(tables, datatype, constructor) {
            Some(found) => {
                let yes = is_such_argument(alloc, &tables.types, found, parts, argument)?;
                Ok(yes)
            }
            None => Ok(false),
        },
        None => Ok(false),
    }
}

/// Whether a type has this constructor, with an argument of this type or none.
pub fn has_constructor(
    alloc: Global,
    tables: &Tables,
    constructor: usize,
    t: usize,
    argument: Option<usize>,
) -> Result<bool, NoMemory>
    ensures fits { IfOk result (λ yes. IsTrue yes ↔
        HasConstructor (table_at tables.now) constructor (type_at tables.now.types t) (option_map (type_at tables.now.types) argument)) }
    ensures decided { IfOk result (λ yes.
        yes ≡ takes (option_map (type_at tables.now.types) argument) (argument_of (table_at tables.now) constructor (type_at tables.now.types t))) }
{
    let yes = has_argument(alloc, tables, constructor, t, argument)?;
    Ok(yes)
}

/// Whether a type is a datatype at these types.
fn is_datatype(types: &Types, datatype: TyName, ts: &[usize], t: usize) -> bool
    ensures { IsTrue result ↔ (type_at types.now t ≡ con (name datatype) (typs_of (map (type_at types.now) ts.now))) }
{
    match named_parts(types, t) {
        Some((found, parts)) => {
            if !same_name(found, datatype) {
                return false;
            }
            same_types(types, parts, ts)
        }
        None => false,
    }
}

/// Whether a type is that of functions to a datatype at these types, from a constructor's argument.
fn is_constructing(
    alloc: Global,
    types: &Types,
    datatype: TyName,
    ts: &[usize],
    argument: Argument,
    t: usize,
) -> Result<bool, NoMemory>
    requires { argument ≢ Argument.Nothing }
    ensures { IfOk result (λ yes. IsTrue yes ↔ (type_at types.now t
        ≡ alone_type (argument_at (map (type_at types.now) ts.now) (argument_type types.now argument))
        (con (name datatype) (typs_of (map (type_at types.now) ts.now))))) }
{
    match function_parts(types, t) {
        Some((from, to)) => {
            if !is_datatype(types, datatype, ts, to) {
                return Ok(false);
            }
            let yes = is_argument(alloc, types, argument, ts, from)?;
            Ok(yes)
        }
        None => Ok(false),
    }
}

/// Whether a type is that of a constructor as a value.
fn is_value(
    alloc: Global,
    types: &Types,
    datatype: TyName,
    ts: &[usize],
    argument: Argument,
    t: usize,
) -> Result<bool, NoMemory>
    ensures { IfOk result (λ yes. IsTrue yes ↔ (type_at types.now t
        ≡ alone_type (argument_at (map (type_at types.now) ts.now) (argument_type types.now argument))
        (con (name datatype) (typs_of (map (type_at types.now) ts.now))))) }
{
    match argument {
        Argument::Nothing => Ok(is_datatype(types, datatype, ts, t)),
        Argument::Of(_) => is_constructing(alloc, types, datatype, ts, argument, t),
        Argument::Cell => is_constructing(alloc, types, datatype, ts, argument, t),
    }
}

/// Whether a constructor of this type is a value of that one.
pub fn is_alone(
    alloc: Global,
    tables: &Tables,
    constructor: usize,
    u: usize,
    t: usize,
) -> Result<bool, NoMemory>
    ensures { IfOk result (λ yes. IsTrue yes ↔ IsAlone (table_at tables.now) constructor (type_at tables.now.types u) (type_at tables.now.types t)) }
{
    match named_parts(&tables.types, u) {
        Some((datatype, parts)) => match find_argument(tables, datatype, constructor) {
            Some(found) => {
                let yes = is_value(alloc, &tables.types, datatype, parts, found, t)?;
                Ok(yes)
            }
            None => Ok(false),
        },
        None => Ok(false),
    }
}

/// Whether a constructor of a datatype at types over the parameters in scope is a value of this type.
pub fn is_constructor_use(
    alloc: Global,
    tables: &Tables,
    scope: &Stack<Mark>,
    constructor: usize,
    datatype: TyName,
    ts: &[usize],
    t: usize,
) -> Result<bool, NoMemory>
    ensures { IfOk result (λ yes. yes ≡ is_con (marks_of scope.now) datatype (map (type_at tables.now.types) ts.now) (type_at tables.now.types t)
        (find (table_at tables.now) datatype constructor)) }
{
    match find_argument(tables, datatype, constructor) {
        Some(found) => {
            let over = are_over(alloc, &tables.types, scope, ts)?;
            if !over {
                return Ok(false);
            }
            let yes = is_value(alloc, &tables.types, datatype, ts, found, t)?;
            Ok(yes)
        }
        None => Ok(false),
    }
}
