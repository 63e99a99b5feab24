// What each program starts with: the first types, and the constructors of the initial basis.
ghost use Rattle.std.specs.Prelude.{◌≡◌, ◌≤◌, ◌<◌, ◌++◌, ◌∷◌, ℕ, [], List, length, take, IfOk};
ghost use Rattle.std.specs.Option.{option_map};
ghost use Rattle.ty_core.specs.Types.{Typ, var};
ghost use Rattle.ty_core.specs.TypesOf.{head_of};
ghost use Rattle.ty_table.specs.TypeAt.{type_at};
ghost use Rattle.ir_poly.specs.Types.{initial_constructors, pair_type, list_type};
ghost use Rattle.ir_tables.specs.Rows.{constructor_at, constructors_at};
ghost use Rattle.ir_mono.specs.Types.{node};
ghost use Rattle.monomorphise.specs.Table.{place, first_types};
ghost use Rattle.mono_pass.specs.Extending.{Extends};

use ir_known::ask::BOOL;
use ir_tables::constructors::{Constructor, Constructors};
use ir_uses::constructor::{CONS, FALSE, LIST, NIL, TRUE};
use mlc_base::make::two;
use mlc_base::memory::NoMemory;
use mlc_names::label::Label;
use mono_place::node::place_node;
use mono_types::types::Types;
use std::alloc::Global;
use ty_core::name::TyName;
use ty_core::ty::Head;
use ty_table::types::Types as Sources;

/// The number of the type of exceptions.
pub const EXN_NUMBER: usize = 2;

/// A type without parts.
fn put(alloc: Global, types: &mut Types, head: &Head) -> Result<(), NoMemory>
    ensures { IfOk result (λ _. (place types.old (node (head_of head.now) [])).0 ≡ types.new) }
{
    let _ = place_node(alloc, types, head, Vec::new(alloc))?;
    Ok(())
}

/// Unit, truth values and exceptions.
pub fn first_types(alloc: Global) -> Result<Types, NoMemory>
    ensures { IfOk result (λ types. types ≡ first_types) }
{
    let mut types = Types::new(alloc);
    put(alloc, &mut types, &Head::Record(Vec::new(alloc)))?;
    put(alloc, &mut types, &Head::Named(BOOL))?;
    put(alloc, &mut types, &Head::Named(TyName::EXN))?;
    types.enter(1, TRUE, None)?;
    types.enter(1, FALSE, None)?;
    Ok(types)
}

/// The first variable, and the argument of a list's constructor over it.
#[derive(Clone, Copy)]
struct Cell {
    variable: usize,
    argument: usize,
}

/// The list of the first variable, which has a number.
fn put_list(alloc: Global, types: &mut Sources, variable: usize) -> Result<usize, NoMemory>
    requires { variable < length types.old }
    ensures is { IfOk result (λ n. type_at types.new n ≡ list_type (type_at types.old variable)) }
    ensures within { IfOk result (λ n. n < length types.new) }
    ensures earlier_stay { take (length types.old) types.new ≡ types.old }
{
    types.apply(alloc, Head::Named(LIST), &[variable])
}

/// A pair of two types.
fn put_pair(
    alloc: Global,
    types: &mut Sources,
    first: usize,
    second: usize,
) -> Result<usize, NoMemory>
    requires first { first < length types.old }
    requires second { second < length types.old }
    ensures is { IfOk result (λ n. type_at types.new n ≡ pair_type (type_at types.old first) (type_at types.old second)) }
    ensures earlier_stay { take (length types.old) types.new ≡ types.old }
{
    let labels = two(alloc, Label::Number(1), Label::Number(2))?;
    types.apply(alloc, Head::Record(labels), &[first, second])
}

/// The argument of a list's constructor.
fn put_cell(alloc: Global, types: &mut Sources) -> Result<Cell, NoMemory>
    ensures variable { IfOk result (λ cell. type_at types.new cell.variable ≡ var 0) }
    ensures argument { IfOk result (λ cell. type_at types.new cell.argument ≡ pair_type (var 0) (list_type (var 0))) }
    ensures earlier_stay { IfOk result (λ _. take (length types.old) types.new ≡ types.old) }
{
    let variable = types.variable(alloc, 0)?;
    let list = put_list(alloc, types, variable)?;
    let argument = put_pair(alloc, types, variable, list)?;
    Ok(Cell { variable, argument })
}

/// The constructors that derived forms name.
fn initial(alloc: Global, cell: usize) -> Result<Constructors, NoMemory>
    ensures { IfOk result (λ all. (types : List Typ) → type_at types cell ≡ pair_type (var 0) (list_type (var 0))
        → constructors_at types all ≡ initial_constructors) }
{
    let mut all = Constructors::new(alloc);
    all.push(Constructor {
        datatype: BOOL,
        number: FALSE,
        argument: None,
    })?;
    all.push(Constructor {
        datatype: BOOL,
        number: TRUE,
        argument: None,
    })?;
    all.push(Constructor {
        datatype: LIST,
        number: NIL,
        argument: None,
    })?;
    all.push(Constructor {
        datatype: LIST,
        number: CONS,
        argument: Some(cell),
    })?;
    Ok(all)
}

/// The same constructor in a table that has more types: a number past the smaller one read as the first variable.
fn moved(constructor: Constructor, known: usize, variable: usize) -> Constructor
    ensures { (old new : List Typ) → Extends old new known variable → constructor_at new result ≡ constructor_at old constructor }
{
    let argument = match constructor.argument {
        Some(ty) => Some(if ty < known { ty } else { variable }),
        None => None,
    };
    Constructor {
        datatype: constructor.datatype,
        number: constructor.number,
        argument,
    }
}

/// The constructors of a program, behind others.
fn add_rows(
    all: &mut Constructors,
    program: &Constructors,
    known: usize,
    variable: usize,
) -> Result<(), NoMemory>
    ensures { IfOk result (λ _. (old new : List Typ) → Extends old new known variable
        → constructors_at new all.new ≡ constructors_at new all.old ++ constructors_at old program.now) }
{
    let rows = program.rows();
    for i in 0..rows.len() {
        all.push(moved(rows[i], known, variable))?;
    }
    Ok(())
}

/// The constructors of the initial basis and those of a program.
pub fn with_initial(
    alloc: Global,
    types: &mut Sources,
    program: &Constructors,
) -> Result<Constructors, NoMemory>
    ensures { IfOk result (λ all. constructors_at types.new all ≡ initial_constructors ++ constructors_at types.old program.now) }
{
    let known = types.len();
    let cell = put_cell(alloc, types)?;
    let mut all = initial(alloc, cell.argument)?;
    add_rows(&mut all, program, known, cell.variable)?;
    Ok(all)
}
