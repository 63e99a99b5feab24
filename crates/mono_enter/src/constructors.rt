// Closed types and constructors, which are entered in a table.
ghost use Rattle.std.specs.Prelude.{◌≡◌, nat_eq, ℕ, List, Option, Some, None, slice_get, slice_set, IfOk};
ghost use Rattle.std.specs.Option.{option_map};
ghost use Rattle.indexmap.specs.IndexMap.{get};
ghost use Rattle.ty_core.specs.Types.{Typ};
ghost use Rattle.ty_table.specs.TypeAt.{type_at};
ghost use Rattle.ir_tables.specs.Rows.{constructors_at};
ghost use Rattle.ir_mono.specs.Types.{Row, unit_number, constructor_at};
ghost use Rattle.ir_mono.specs.Growing.{with_constructor};
ghost use Rattle.monomorphise.specs.Table.{place_type, with_argument, with_new, enter, a_constructor};
ghost use Rattle.mono_enter.specs.Entering.{Knows, Keeps, with_found_row};

use indexmap::IndexMap;
use ir_tables::constructors::Constructors;
use mlc_base::memory::NoMemory;
use mono_place::walk::place_type;
use mono_types::types::{Types, View};
use std::alloc::Global;
use ty_core::ty::Head;
use ty_table::types::Types as Sources;

/// A constructor of a datatype at these types, with the type of its argument, if it has one.
#[derive(Drop)]
pub struct Found {
    pub argument: Option<usize>,
    pub parts: Vec<usize>,
}

/// A closed type.
pub fn enter_type(
    alloc: Global,
    closed: &Sources,
    known: &mut IndexMap<usize, usize>,
    types: &mut Types,
    ty: usize,
) -> Result<usize, NoMemory>
    requires { Knows closed.now (get nat_eq known.old) types.old }
    ensures is { IfOk result (λ n. place_type (λ v. unit_number) types.old (type_at closed.now ty) ≡ (types.new, n)) }
    ensures right { IfOk result (λ _. Knows closed.now (get nat_eq known.new) types.new) }
{
    place_type(alloc, closed, &[], known, types, ty)
}

/// The type of a constructor's argument, if it has one, where its datatype is at these types.
fn argument_number(
    alloc: Global,
    sources: &Sources,
    parts: &[usize],
    types: &mut Types,
    argument: Option<usize>,
) -> Result<Option<usize>, NoMemory>
    ensures is { IfOk result (λ a. (n c : ℕ) (r : Row) → with_argument types.old n r c parts.now (option_map (type_at sources.now) argument)
        ≡ slice_set types.new n (with_constructor r c a)) }
    ensures keeps { IfOk result (λ _. Keeps types.old types.new) }
{
    match argument {
        Some(ty) => {
            let mut known = IndexMap::new(alloc);
            let n = place_type(alloc, sources, parts, &mut known, types, ty)?;
            Ok(Some(n))
        }
        None => Ok(None),
    }
}

/// The constructor of a type, if its datatype has one of this number.
fn found_at(
    alloc: Global,
    constructors: &Constructors,
    types: &Types,
    n: usize,
    constructor: usize,
) -> Result<Option<Found>, NoMemory>
    ensures { IfOk result (λ found. (ts : List Typ) (r : Row) → slice_get types.now n ≡ Some r
        → with_new (constructors_at ts constructors.now) types.now n r constructor r.type ≡ with_found_row ts types.now n r constructor found) }
{
    match types.view(n) {
        View::Nothing => Ok(None),
        View::Apply(head, parts) => match head {
            Head::Function => Ok(None),
            Head::Record(_) => Ok(None),
            Head::Named(datatype) => match constructors.find(*datatype, constructor) {
                Some(row) => {
                    if row.datatype != *datatype {
                        return Ok(None);
                    }
                    let parts = Vec::from_slice(alloc, parts)?;
                    Ok(Some(Found {
                        argument: row.argument,
                        parts,
                    }))
                }
                None => Ok(None),
            },
        },
    }
}

/// A constructor that is found, of a type that is there.
fn add_found(
    alloc: Global,
    sources: &Sources,
    types: &mut Types,
    n: usize,
    constructor: usize,
    found: &Found,
) -> Result<(), NoMemory>
    ensures added { IfOk result (λ _. (r : Row) → slice_get types.old n ≡ Some r → constructor_at types.old n constructor ≡ None
        → with_argument types.old n r constructor found.now.parts.items (option_map (type_at sources.now) found.now.argument) ≡ types.new) }
    ensures known { IfOk result (λ _. (closed : List Typ) (known : ℕ → Option ℕ) → Knows closed known types.old → Knows closed known types.new) }
{
    let argument = argument_number(alloc, sources, &found.parts, types, found.argument)?;
    if n >= types.len() {
        return Err(NoMemory);
    }
    types.enter(n, constructor, argument)
}

/// A constructor of a closed type, unless it is there.
pub fn enter_constructor(
    alloc: Global,
    closed: &Sources,
    sources: &Sources,
    constructors: &Constructors,
    known: &mut IndexMap<usize, usize>,
    types: &mut Types,
    ty: usize,
    constructor: usize,
) -> Result<(), NoMemory>
    requires { Knows closed.now (get nat_eq known.old) types.old }
    ensures entered { IfOk result (λ _. enter (constructors_at sources.now constructors.now) types.old (a_constructor (type_at closed.now ty) constructor) ≡ types.new) }
    ensures right { IfOk result (λ _. Knows closed.now (get nat_eq known.new) types.new) }
{
    let n = enter_type(alloc, closed, known, types, ty)?;
    if n >= types.len() {
        return Err(NoMemory);
    }
    match types.constructor(n, constructor) {
        Some(_) => Ok(()),
        None => match found_at(alloc, constructors, types, n, constructor)? {
            Some(found) => add_found(alloc, sources, types, n, constructor, &found),
            None => Ok(()),
        },
    }
}
