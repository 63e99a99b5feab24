// What words want, entered one after the other.
ghost use Rattle.std.specs.Prelude.{◌≡◌, nat_eq, ℕ, Bool, List, Option, [], ◌∷◌, ◌++◌, IfOk};
ghost use Rattle.indexmap.specs.IndexMap.{get};
ghost use Rattle.ir_tables.specs.Rows.{constructors_at};
ghost use Rattle.ty_core.specs.Types.{Typ};
ghost use Rattle.ty_table.specs.TypeAt.{type_at};
ghost use Rattle.mono_state.specs.Seen.{copy_reading, sign_of, sign_of_act};
ghost use Rattle.plain_tree.specs.TreeOf.{case_of};
ghost use Rattle.monomorphise.specs.Table.{enter_all, a_type, case_wanted};
ghost use Rattle.ir_plain.specs.Tree as clean;
ghost use Rattle.monomorphise.specs.Monomorphise.{Named};
ghost use Rattle.mono_enter.specs.Entering.{Knows};
ghost use Rattle.mono_enter.specs.Scanning.{around, wants, arm_wanted, body_wanted};
ghost use Rattle.mono_enter.specs.Walked.{held, around_in, arm_if, type_if};

use crate::constructors::{enter_constructor, enter_type};
use indexmap::IndexMap;
use ir_tables::constructors::Constructors;
use mlc_base::memory::NoMemory;
use mono_state::word::{Act, Word};
use mono_types::types::Types;
use plain_tree::tree::Case;
use std::alloc::Global;
use ty_table::types::Types as Sources;

/// Lists around that are not at their ends, with the type of a switch's arms, the innermost last; the types of functions whose bodies are still to come, the next
/// one last; and whether the parameters that follow are those of a function that has begun.
#[derive(Drop)]
pub struct Stand {
    pub lists: Vec<Option<usize>>,
    pub functions: Vec<usize>,
    pub begun: bool,
}

/// Types and constructors of a program, and the table that is made.
#[derive(Drop)]
pub struct Tables<'a> {
    pub closed: &'a Sources,
    pub sources: &'a Sources,
    pub constructors: &'a Constructors,
}

/// A type that is wanted.
fn want_type(
    alloc: Global,
    tables: &Tables,
    known: &mut IndexMap<usize, usize>,
    types: &mut Types,
    ty: usize,
) -> Result<(), NoMemory>
    requires { Knows tables.now.closed.now (get nat_eq known.old) types.old }
    ensures entered { IfOk result (λ _. enter_all (constructors_at tables.now.sources.now tables.now.constructors.now) types.old
        (a_type (type_at tables.now.closed.now ty) ∷ []) ≡ types.new) }
    ensures right { IfOk result (λ _. Knows tables.now.closed.now (get nat_eq known.new) types.new) }
{
    let _ = enter_type(alloc, tables.closed, known, types, ty)?;
    Ok(())
}

/// What an operation wants.
fn want_act(
    alloc: Global,
    tables: &Tables,
    known: &mut IndexMap<usize, usize>,
    types: &mut Types,
    act: &Act,
) -> Result<(), NoMemory>
    requires { Knows tables.now.closed.now (get nat_eq known.old) types.old }
    ensures entered { IfOk result (λ _. (strings : List (List ℕ)) (lists : List (List ℕ)) (copies : List (ℕ × ℕ)) (l : List (Option Typ)) (p : List Typ) (b : Bool)
        → enter_all (constructors_at tables.now.sources.now tables.now.constructors.now) types.old
        (wants (sign_of_act strings (held tables.now.closed.now lists copies) act.now) (around l p b)) ≡ types.new) }
    ensures right { IfOk result (λ _. Knows tables.now.closed.now (get nat_eq known.new) types.new) }
{
    match act {
        Act::Constructor { constructor, ty } => {
            want_type(alloc, tables, known, types, *ty)?;
            enter_constructor(
                alloc,
                tables.closed,
                tables.sources,
                tables.constructors,
                known,
                types,
                *ty,
                *constructor,
            )
        }
        Act::Construct {
            place: _,
            constructor,
            ty,
            argument: _,
        } => {
            want_type(alloc, tables, known, types, *ty)?;
            enter_constructor(
                alloc,
                tables.closed,
                tables.sources,
                tables.constructors,
                known,
                types,
                *ty,
                *constructor,
            )
        }
        Act::Reference(ty) => want_type(alloc, tables, known, types, *ty),
        Act::Refer {
            place: _,
            ty,
            argument: _,
        } => want_type(alloc, tables, known, types, *ty),
        Act::Content { ty, reference: _ } => want_type(alloc, tables, known, types, *ty),
        Act::Pack {
            place: _,
            ty,
            exception: _,
            argument: _,
        } => want_type(alloc, tables, known, types, *ty),
        Act::Record(ty) => want_type(alloc, tables, known, types, *ty),
        Act::Select {
            ty,
            label: _,
            record: _,
        } => want_type(alloc, tables, known, types, *ty),
        Act::Primitive(_, ty) => want_type(alloc, tables, known, types, *ty),
        Act::Perform {
            place: _,
            primitive: _,
            ty,
        } => want_type(alloc, tables, known, types, *ty),
        Act::Use(_) => Ok(()),
        Act::Constant(_) => Ok(()),
        Act::Apply {
            place: _,
            function: _,
            argument: _,
        } => Ok(()),
        Act::Raise(_) => Ok(()),
        Act::RaiseInitial(_) => Ok(()),
    }
}

/// What an arm wants of the type of its switch.
fn want_case(
    alloc: Global,
    tables: &Tables,
    known: &mut IndexMap<usize, usize>,
    types: &mut Types,
    switch: usize,
    case: Case,
) -> Result<(), NoMemory>
    requires { Knows tables.now.closed.now (get nat_eq known.old) types.old }
    ensures entered { IfOk result (λ _. (strings : List (List ℕ)) (lists : List (List ℕ)) (copies : List (ℕ × ℕ))
        → enter_all (constructors_at tables.now.sources.now tables.now.constructors.now) types.old
        (case_wanted (type_at tables.now.closed.now switch) (case_of (copy_reading strings (held tables.now.closed.now lists copies)) case)) ≡ types.new) }
    ensures right { IfOk result (λ _. Knows tables.now.closed.now (get nat_eq known.new) types.new) }
{
    match case {
        Case::Constructor(constructor) => enter_constructor(
            alloc,
            tables.closed,
            tables.sources,
            tables.constructors,
            known,
            types,
            switch,
            constructor,
        ),
        Case::ConstructorOf {
            constructor,
            argument,
        } => {
            enter_constructor(
                alloc,
                tables.closed,
                tables.sources,
                tables.constructors,
                known,
                types,
                switch,
                constructor,
            )?;
            want_type(alloc, tables, known, types, argument.ty)
        }
        Case::ExceptionOf {
            exception: _,
            argument,
        } => want_type(alloc, tables, known, types, argument.ty),
        Case::Constant(_) => Ok(()),
        Case::Exception(_) => Ok(()),
        Case::Record(_) => Ok(()),
    }
}

/// The type of the switch whose arms are gone along, if they are.
fn switch_of(stand: &Stand) -> Option<usize>
    ensures { (closed : List Typ) (c : clean.Case Named) → arm_wanted (around_in closed stand.now).lists c ≡ arm_if closed result c }
{
    let len = stand.lists.len();
    if len == 0 {
        return None;
    }
    stand.lists[len - 1]
}

/// The type of the function whose body begins, if one does.
fn body_of(stand: &Stand) -> Option<usize>
    ensures { (closed : List Typ) → body_wanted stand.now.begun (around_in closed stand.now).functions ≡ type_if closed result }
{
    let len = stand.functions.len();
    if stand.begun {
        return None;
    }
    if len == 0 {
        return None;
    }
    Some(stand.functions[len - 1])
}

/// What a parameter wants, before which a body may begin.
fn want_parameter(
    alloc: Global,
    tables: &Tables,
    known: &mut IndexMap<usize, usize>,
    types: &mut Types,
    body: Option<usize>,
    ty: usize,
) -> Result<(), NoMemory>
    requires { Knows tables.now.closed.now (get nat_eq known.old) types.old }
    ensures entered { IfOk result (λ _. enter_all (constructors_at tables.now.sources.now tables.now.constructors.now) types.old
        (type_if tables.now.closed.now body ++ a_type (type_at tables.now.closed.now ty) ∷ []) ≡ types.new) }
    ensures right { IfOk result (λ _. Knows tables.now.closed.now (get nat_eq known.new) types.new) }
{
    match body {
        Some(function) => {
            want_type(alloc, tables, known, types, function)?;
            want_type(alloc, tables, known, types, ty)
        }
        None => want_type(alloc, tables, known, types, ty),
    }
}

/// What a word wants.
pub fn want_word(
    alloc: Global,
    tables: &Tables,
    known: &mut IndexMap<usize, usize>,
    types: &mut Types,
    stand: &Stand,
    word: &Word,
) -> Result<(), NoMemory>
    requires { Knows tables.now.closed.now (get nat_eq known.old) types.old }
    ensures entered { IfOk result (λ _. (strings : List (List ℕ)) (lists : List (List ℕ)) (copies : List (ℕ × ℕ))
        → enter_all (constructors_at tables.now.sources.now tables.now.constructors.now) types.old
        (wants (sign_of strings (held tables.now.closed.now lists copies) word.now) (around_in tables.now.closed.now stand.now)) ≡ types.new) }
    ensures right { IfOk result (λ _. Knows tables.now.closed.now (get nat_eq known.new) types.new) }
{
    match word {
        Word::Switch { atom: _, ty } => want_type(alloc, tables, known, types, *ty),
        Word::Arm(case) => match switch_of(stand) {
            Some(switch) => want_case(alloc, tables, known, types, switch, *case),
            None => Ok(()),
        },
        Word::Exception {
            variable: _,
            identifier: _,
            argument,
        } => match argument {
            Some(ty) => want_type(alloc, tables, known, types, *ty),
            None => Ok(()),
        },
        Word::Let { variable: _, ty } => want_type(alloc, tables, known, types, *ty),
        Word::Act(act) => want_act(alloc, tables, known, types, act),
        Word::Parameter(parameter) => want_parameter(
            alloc,
            tables,
            known,
            types,
            body_of(stand),
            parameter.ty,
        ),
        Word::Last(parameter) => want_parameter(
            alloc,
            tables,
            known,
            types,
            body_of(stand),
            parameter.ty,
        ),
        _ => Ok(()),
    }
}
