// What equality at a type needs at once.
ghost use Rattle.std.specs.Prelude.{◌≡◌, ◌↔◌, List, ℕ, nat_eq, length, take, slice_get, Some, None, IsTrue, IfOk};
ghost use Rattle.std.specs.Option.{option_map};
ghost use Rattle.std.specs.Map.{lookup};
ghost use Rattle.indexmap.specs.IndexMap.{get};
ghost use Rattle.ty_core.specs.Types.{Typ};
ghost use Rattle.ty_table.specs.TypeAt.{type_at, AllBelow};
ghost use Rattle.ir_poly.specs.Types.{find};
ghost use Rattle.ir_tables.specs.Rows.{constructor_at, constructors_at};
ghost use Rattle.mono_close.specs.Closing.{AreHeld, AreRight, standing};
ghost use Rattle.mono_needed.specs.Gathering.{IsChained, own_argument, IsPushed, OpensArguments, Opens};

use crate::chains::Chains;
use indexmap::IndexMap;
use ir_tables::constructors::{Constructor, Constructors};
use mlc_base::memory::NoMemory;
use mono_close::close::close_type;
use scoped_map::scoped::Scoped;
use std::alloc::Global;
use ty_core::name::TyName;
use ty_core::ty::Head;
use ty_table::types::{Types, View};

/// So many entries are few.
const FEW: usize = 32;

/// Whether two type names are one.
fn same_name(name: TyName, other: TyName) -> bool
    ensures { IsTrue result ↔ (name ≡ other) }
{
    name == other
}

/// The argument of a constructor, if it is one of the datatype.
fn own_argument(row: Constructor, name: TyName) -> Option<usize>
    ensures { (types : List Typ) → option_map (type_at types) result ≡ own_argument name (Some (constructor_at types row)) }
{
    if same_name(row.datatype, name) {
        row.argument
    } else {
        None
    }
}

/// The argument of a datatype's constructor, if it has one.
fn argument_of(constructors: &Constructors, name: TyName, number: usize) -> Option<usize>
    ensures { (types : List Typ) → option_map (type_at types) result ≡ own_argument name (find (constructors_at types constructors.now) name number) }
{
    match constructors.find(name, number) {
        Some(row) => own_argument(row, name),
        None => None,
    }
}

/// Pushes the number of an argument's type, where variables stand for the types of `slots`.
fn push_argument(
    alloc: Global,
    sources: &Types,
    slots: &Scoped<usize>,
    known: &mut IndexMap<usize, usize>,
    closed: &mut Types,
    argument: Option<usize>,
    found: &mut Vec<usize>,
) -> Result<(), NoMemory>
    requires held { AreHeld (length closed.old) slots.now }
    requires right { AreRight sources.now (standing closed.old slots.now) (get nat_eq known.old) closed.old }
    ensures pushed { IfOk result (λ _. IsPushed closed.new (standing closed.old slots.now) found.old.items found.new.items
        (option_map (type_at sources.now) argument)) }
    ensures right { IfOk result (λ _. AreRight sources.now (standing closed.old slots.now) (get nat_eq known.new) closed.new) }
    ensures earlier_stay { take (length closed.old) closed.new ≡ closed.old }
{
    match argument {
        Some(a) => {
            let n = close_type(alloc, sources, slots, known, closed, a)?;
            found.push(n)?;
            Ok(())
        }
        None => Ok(()),
    }
}

/// Empties a map. Its room stays only where there is little: clearing takes as long as there is room.
fn empty(alloc: Global, known: &mut IndexMap<usize, usize>)
    ensures { (k : ℕ) → get nat_eq known.new k ≡ None }
{
    if known.len() > FEW {
        *known = IndexMap::new(alloc);
    } else {
        known.clear();
    }
}

/// Pushes the numbers of the types that a datatype's constructors take, where its parameters stand for the types of `slots`. The room of `known` is used again.
fn push_arguments(
    alloc: Global,
    sources: &Types,
    constructors: &Constructors,
    chains: &Chains,
    closed: &mut Types,
    name: TyName,
    slots: &Scoped<usize>,
    known: &mut IndexMap<usize, usize>,
    found: &mut Vec<usize>,
) -> Result<(), NoMemory>
    requires chained { IsChained constructors.now (get nat_eq chains.now.last) chains.now.before.items }
    requires held { AreHeld (length closed.old) slots.now }
    ensures opens { IfOk result (λ _. OpensArguments (constructors_at sources.now constructors.now) name (standing closed.old slots.now) closed.new
        found.old.items found.new.items) }
    ensures earlier_stay { take (length closed.old) closed.new ≡ closed.old }
{
    empty(alloc, known);
    let rows = constructors.rows();
    let mut next = chains.last(name.stamp);
    while let Some(i) = next {
        let argument = argument_of(constructors, name, rows[i].number);
        push_argument(alloc, sources, slots, known, closed, argument, found)?;
        next = chains.earlier(i);
    }
    Ok(())
}

/// Binds a datatype's parameters, alone, to the types that they stand for.
fn bind_parts(slots: &mut Scoped<usize>, parts: &[usize]) -> Result<(), NoMemory>
    ensures slots { IfOk result (λ _. (v : ℕ) → lookup (nat_eq v) slots.new ≡ slice_get parts.now v) }
    ensures held { IfOk result (λ _. (n : ℕ) → AllBelow n parts.now → AreHeld n slots.new) }
{
    slots.truncate(0);
    for i in 0..parts.len() {
        slots.bind(i, parts[i])?;
    }
    Ok(())
}

/// Pushes the numbers of the types that equality at a type needs at once. What `slots` and `known` hold is of no use; their room is.
pub fn push_parts(
    alloc: Global,
    sources: &Types,
    constructors: &Constructors,
    chains: &Chains,
    slots: &mut Scoped<usize>,
    known: &mut IndexMap<usize, usize>,
    closed: &mut Types,
    t: usize,
    found: &mut Vec<usize>,
) -> Result<(), NoMemory>
    requires { IsChained constructors.now (get nat_eq chains.now.last) chains.now.before.items }
    ensures opens { IfOk result (λ _. Opens (constructors_at sources.now constructors.now) (type_at closed.old t) closed.new
        found.old.items found.new.items) }
    ensures earlier_stay { take (length closed.old) closed.new ≡ closed.old }
{
    match closed.view(t) {
        View::Var(_) => Ok(()),
        View::Apply(head, parts) => match head {
            Head::Function => Ok(()),
            Head::Record(_) => {
                found.extend_from_slice(parts)?;
                Ok(())
            }
            Head::Named(name) => {
                let name = *name;
                bind_parts(slots, parts)?;
                push_arguments(
                    alloc,
                    sources,
                    constructors,
                    chains,
                    closed,
                    name,
                    slots,
                    known,
                    found,
                )?;
                Ok(())
            }
        },
    }
}
