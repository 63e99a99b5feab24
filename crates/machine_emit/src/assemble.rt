// A walk over a whole program.

ghost use Rattle.std.specs.Prelude.{◌≡◌, ◌≢◌, ℕ, ◌+◌, List, true, [], ◌∷◌, ◌++◌, length, map, IfErr, IfOk, OnOk, get_or};
ghost use Rattle.ir_code.specs.declared.instr.Instr.TheVariants.{Call as CallRow, End};
ghost use Rattle.first_tables.specs.TablesOf.{tables_of};
ghost use Rattle.ssa_tree.specs.TreeOf.{fun_of};
ghost use Rattle.machine_code.specs.Image.{code_of, fun_place, funs_code, funs_size, set_place};
ghost use Rattle.machine_rows.specs.Table.{rows};
ghost use Rattle.image_size.specs.of_image_law.Assembled.{code_by, funs_from, sets_from};
ghost use Rattle.ssa_form.specs.Programs.{program_of};
ghost use Rattle.emit_code.specs.PlacesOf.{places_of};
ghost use Rattle.emit_known.specs.of_emit_equality.Ways.{all_shapes, ArePlaces, most};
ghost use Rattle.machine_routines.specs.EqualCode.{equal_code};
ghost use Rattle.emit_walk.specs.of_emit_parts.declared.fault.WalkFault.TheVariants.{Unsettled};
ghost use Rattle.walk_labels.specs.Marks.{Foretold};
ghost use Rattle.emit_walk.specs.Walk.{env_of};
ghost use Rattle.emit_known.specs.Known.{KnowsConstants};
ghost use Rattle.machine_emit.specs.Begin.{AreKnown, IsEmpty};
ghost use Rattle.machine_emit.specs.Labels.{all_labels, funs_labels};

use emit_code::fault::EmitFault;
use emit_code::places::Places;
use emit_code::put::{here, put};
use emit_known::emit_equality::equality::push_equality;
use emit_sets::sets::push_sets;
use emit_walk::body::{Pass, emit_fun};
use emit_walk::emit_parts::fault::WalkFault;
use first_tables::tables::Tables;
use ir_code::instr::Instr;
use machine_rows::law::rows_are_right;
use scoped_map::scoped::Scoped;
use ssa_form::form::Ssa;
use ssa_tree::tree::Fun;
use std::alloc::Global;

/// What one walk over a program finds: its code, and where functions, routines of sets and labels stand.
#[derive(Drop)]
pub struct Assembled {
    pub code: Vec<Instr>,
    pub funs: Vec<u32>,
    pub funs_end: u32,
    pub sets: Vec<u32>,
    pub sets_end: u32,
    pub labels: Vec<u32>,
}

/// The place of the program itself, the first function.
fn first_fun(at: &Places) -> u32
    ensures { result ≡ get_or at.now.funs.items 0 at.now.funs_end }
{
    match at.funs.get(0) {
        Some(place) => *place,
        None => at.funs_end,
    }
}

/// Before the functions: the call of the program itself, and the routine of equality.
fn push_start(code: &mut Vec<Instr>, tables: &Tables, at: &Places) -> Result<(), EmitFault>
    requires { code.old.items ≡ [] }
    ensures { ArePlaces (all_shapes tables.now.types.items) at.now.types.items at.now.types_end → OnOk result (code.new.items
        ≡ (CallRow (get_or at.now.funs.items 0 at.now.funs_end) 0 ∷ End ∷ []) ++ equal_code (all_shapes tables.now.types.items) 2 most) }
{
    put(
        code,
        Instr::Call {
            target: first_fun(at),
            frame: 0,
        },
    )?;
    put(code, Instr::End)?;
    push_equality(code, &tables.types, &at.types, at.types_end)
}

/// The functions, one behind the other; where each stands, and the place behind the last. Of any walk all but `code` is told.
fn push_funs(
    alloc: Global,
    tables: &Tables,
    funs: &[Fun],
    at: &Places,
    sure: bool,
    pass: &mut Pass,
) -> Result<(Vec<u32>, u32), WalkFault>
    requires empty { IsEmpty (env_of pass.old) }
    requires none { pass.old.found.items ≡ [] }
    ensures code { OnOk result (sure ≡ true → pass.new.code.items ≡ pass.old.code.items
        ++ funs_code (places_of tables.now at.now) (length pass.old.code.items) (map fun_of funs.now)) }
    ensures places { IfOk result (λ found. (i : ℕ) → get_or found.0.items i found.1
        ≡ fun_place rows (tables_of tables.now).types (length pass.old.code.items) (map fun_of funs.now) i) }
    ensures long { OnOk result (length pass.new.code.items ≡ length pass.old.code.items + funs_size rows (tables_of tables.now).types (map fun_of funs.now)) }
    ensures labels { OnOk result (pass.new.found.items ≡ funs_labels rows (tables_of tables.now).types (length pass.old.code.items) (map fun_of funs.now)) }
    ensures told { IfErr result (λ fault. Foretold sure at.now.labels.items 0
        (funs_labels rows (tables_of tables.now).types (length pass.old.code.items) (map fun_of funs.now)) → fault ≢ Unsettled) }
{
    rows_are_right();
    let mut found = Vec::new(alloc);
    for i in 0..funs.len() {
        found.push(here(&pass.code)?)?;
        emit_fun(alloc, tables, at, sure, pass, &funs[i])?;
    }
    let end = here(&pass.code)?;
    Ok((found, end))
}

/// A walk that has found nothing yet.
fn empty_pass(alloc: Global) -> Pass
    ensures code { result.code.items ≡ [] }
    ensures found { result.found.items ≡ [] }
    ensures empty { IsEmpty (env_of result) }
{
    Pass {
        code: Vec::new(alloc),
        found: Vec::new(alloc),
        slots: Scoped::new(alloc),
        spots: Vec::new(alloc),
        depth: 0,
    }
}

/// The code, by places that are known so far. A sure walk has the code of the places; what any walk finds is where things stand in it, whatever the places of
/// functions, routines and labels.
fn assemble(alloc: Global, program: &Ssa, at: &Places, sure: bool) -> Result<Assembled, WalkFault>
    ensures code { sure ≡ true → ArePlaces (tables_of program.now.tables).types at.now.types.items at.now.types_end →
        IfOk result (λ made. made.code.items ≡ code_by (places_of program.now.tables at.now) (program_of program.now)) }
    ensures funs { ArePlaces (tables_of program.now.tables).types at.now.types.items at.now.types_end →
        IfOk result (λ made. (i : ℕ) → get_or made.funs.items i made.funs_end
        ≡ fun_place rows (tables_of program.now.tables).types (funs_from (program_of program.now)) (program_of program.now).funs i) }
    ensures sets { ArePlaces (tables_of program.now.tables).types at.now.types.items at.now.types_end →
        IfOk result (λ made. (i : ℕ) → get_or made.sets.items i made.sets_end
        ≡ set_place (program_of program.now).funs (places_of program.now.tables at.now).fun_at
        (sets_from (places_of program.now.tables at.now) (program_of program.now)) (program_of program.now).tables.sets i) }
    ensures labels { ArePlaces (tables_of program.now.tables).types at.now.types.items at.now.types_end →
        IfOk result (λ made. made.labels.items ≡ all_labels (program_of program.now)) }
    ensures told { ArePlaces (tables_of program.now.tables).types at.now.types.items at.now.types_end →
        IfErr result (λ fault. Foretold sure at.now.labels.items 0 (all_labels (program_of program.now)) → fault ≢ Unsettled) }
{
    rows_are_right();
    let mut pass = empty_pass(alloc);
    push_start(&mut pass.code, &program.tables, at)?;
    let (funs, funs_end) = push_funs(alloc, &program.tables, &program.funs, at, sure, &mut pass)?;
    let (sets, sets_end) = push_sets(
        alloc,
        &mut pass.code,
        &at.funs,
        at.funs_end,
        &program.funs,
        &program.tables.sets,
    )?;
    Ok(Assembled {
        code: pass.code,
        funs,
        funs_end,
        sets,
        sets_end,
        labels: pass.found,
    })
}

/// The code of a program, by where its constants and the comparisons of its types stand. A first walk finds the places of functions, routines and labels, and a
/// second one has the code: it meets all of them there.
fn walk_twice(alloc: Global, program: &Ssa, known: Places) -> Result<Vec<Instr>, WalkFault>
    ensures code { (texts : List (List ℕ)) → KnowsConstants texts (program_of program.now) known →
        IfOk result (λ code. code.items ≡ code_of rows texts (program_of program.now)) }
    ensures settled { AreKnown (program_of program.now) known → IfErr result (λ fault. fault ≢ Unsettled) }
{
    let mut at = known;
    let found = assemble(alloc, program, &at, false)?;
    at.funs = found.funs;
    at.funs_end = found.funs_end;
    at.sets = found.sets;
    at.sets_end = found.sets_end;
    at.labels = found.labels;
    let made = assemble(alloc, program, &at, true)?;
    Ok(made.code)
}

/// The code of a program whose constants and comparisons of types stand where an image has them.
pub fn settled_code(alloc: Global, program: &Ssa, known: Places) -> Result<Vec<Instr>, EmitFault>
    requires { AreKnown (program_of program.now) known }
    ensures { (texts : List (List ℕ)) → KnowsConstants texts (program_of program.now) known →
        IfOk result (λ code. code.items ≡ code_of rows texts (program_of program.now)) }
{
    match walk_twice(alloc, program, known) {
        Ok(code) => Ok(code),
        Err(WalkFault::NoWord) => Err(EmitFault::NoWord),
        Err(WalkFault::Memory) => Err(EmitFault::Memory),
        Err(WalkFault::Unsettled) => unreachable!(),
    }
}
