// Lists, which are built from the last part to the first, and what has them.
ghost use Rattle.std.specs.Prelude.{◌≡◌, ℕ, List, reverse, IfOk};
ghost use Rattle.ir_plain.specs.Tree as tree;
ghost use Rattle.ir_mono.specs.Types as table;
ghost use Rattle.ir_mono.specs.Mono.{mono};
ghost use Rattle.plain_tree.specs.TreeOf.{row_of, atoms_of};
ghost use Rattle.mono_bound.specs.Reads.{reading};
ghost use Rattle.mono_read.specs.Building.{Heads, Stack, with_row, with_atoms, with_heads};
ghost use Rattle.mono_read.specs.Reads.{Texts, heads_in, stack_in, Puts};
ghost use Rattle.mono_state.specs.declared.word.Word.TheVariants as word;
ghost use Rattle.mono_state.specs.declared.word.Act.TheVariants as act;

use crate::stack::{Item, push, push_operation, take};
use mlc_base::memory::NoMemory;
use mlc_base::place::Place;
use mlc_names::label::Label;
use mlc_prims::basis::BasisPrimitive;
use plain_tree::tree::{Field, Operation, Parameter};
use std::alloc::Global;

/// The fields on top, from the last to the first.
fn take_fields(alloc: Global, stack: &mut Vec<Item>) -> Result<Vec<Field>, NoMemory>
    ensures { IfOk result (λ fields. (types : List table.Row) (strings : Texts) (f : tree.Row (mono types) → Stack types → Stack types)
        → with_row (stack_in types strings stack.old.items) f
        ≡ f (row_of (reading types strings) (reverse fields.items)) (stack_in types strings stack.new.items)) }
{
    match take(stack)? {
        Item::Fields(fields) => Ok(fields),
        Item::End => Ok(Vec::new(alloc)),
        _ => Err(NoMemory),
    }
}

/// The atoms on top, from the last to the first.
fn take_atoms(alloc: Global, stack: &mut Vec<Item>) -> Result<Vec<usize>, NoMemory>
    ensures { IfOk result (λ atoms. (types : List table.Row) (strings : Texts) (f : tree.Atoms (mono types) → Stack types → Stack types)
        → with_atoms (stack_in types strings stack.old.items) f
        ≡ f (atoms_of (reading types strings) (reverse atoms.items)) (stack_in types strings stack.new.items)) }
{
    match take(stack)? {
        Item::Atoms(atoms) => Ok(atoms),
        Item::End => Ok(Vec::new(alloc)),
        _ => Err(NoMemory),
    }
}

/// The heads on top, from the last to the first.
pub fn take_heads(alloc: Global, stack: &mut Vec<Item>) -> Result<Vec<Parameter>, NoMemory>
    ensures { IfOk result (λ heads. (types : List table.Row) (strings : Texts) (f : Heads → Stack types → Stack types)
        → with_heads (stack_in types strings stack.old.items) f ≡ f (heads_in (reverse heads.items)) (stack_in types strings stack.new.items)) }
{
    match take(stack)? {
        Item::Heads(heads) => Ok(heads),
        Item::End => Ok(Vec::new(alloc)),
        _ => Err(NoMemory),
    }
}

/// A field.
pub fn put_field(alloc: Global, stack: &mut Vec<Item>, field: Field) -> Result<(), NoMemory>
    ensures { IfOk result (λ _. Puts (word.Field field) stack.old.items stack.new.items) }
{
    // Rattle learns from this local where the types are declared that fields hold.
    let _field = Field {
        label: Label::Number(0),
        atom: 0,
    };
    let mut fields = take_fields(alloc, stack)?;
    fields.push(field)?;
    push(stack, Item::Fields(fields))
}

/// An atom of a list.
pub fn put_argument(alloc: Global, stack: &mut Vec<Item>, atom: usize) -> Result<(), NoMemory>
    ensures { IfOk result (λ _. Puts (word.Argument atom) stack.old.items stack.new.items) }
{
    let mut atoms = take_atoms(alloc, stack)?;
    atoms.push(atom)?;
    push(stack, Item::Atoms(atoms))
}

/// The variable and the type of a function.
pub fn put_head(
    alloc: Global,
    stack: &mut Vec<Item>,
    variable: usize,
    ty: usize,
) -> Result<(), NoMemory>
    ensures { IfOk result (λ _. Puts (word.Function variable ty) stack.old.items stack.new.items) }
{
    let mut heads = take_heads(alloc, stack)?;
    heads.push(Parameter { variable, ty })?;
    push(stack, Item::Heads(heads))
}

/// A record, whose fields are on top.
pub fn put_record(alloc: Global, stack: &mut Vec<Item>, ty: usize) -> Result<(), NoMemory>
    ensures { IfOk result (λ _. Puts (word.Act (act.Record ty)) stack.old.items stack.new.items) }
{
    let mut fields = take_fields(alloc, stack)?;
    fields.reverse();
    push_operation(alloc, stack, Operation::Record { ty, fields })
}

/// A primitive that is performed, whose atoms are on top.
pub fn put_perform(
    alloc: Global,
    stack: &mut Vec<Item>,
    place: Option<Place>,
    primitive: BasisPrimitive,
    ty: usize,
) -> Result<(), NoMemory>
    ensures { IfOk result (λ _. Puts (word.Act (act.Perform place primitive ty)) stack.old.items stack.new.items) }
{
    let mut arguments = take_atoms(alloc, stack)?;
    arguments.reverse();
    push_operation(
        alloc,
        stack,
        Operation::Perform {
            place,
            primitive,
            ty,
            arguments,
        },
    )
}
