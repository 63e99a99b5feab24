// The record of a pattern's variables. Variables are given the latest first.
ghost use Rattle.std.specs.Prelude.{◌≡◌, [], suc, map, length, IfOk};
ghost use Rattle.mlc_names.specs.declared.label.Label.TheVariants.{Number};
ghost use Rattle.ty_core.specs.Types.{Typ, var};
ghost use Rattle.ty_table.specs.TypeAt.{type_at, AllBelow};
ghost use Rattle.ir_plain.specs.Tree.{Op, let_in, ret, raise_initial, make_record, use_of, select, block};
ghost use Rattle.ir_poly.specs.Tests.{Tests, poly, inst};
ghost use Rattle.ir_values.specs.Primitives.{bind_name};
ghost use Rattle.match_compile.specs.Compile as clean;
ghost use Rattle.match_compile.specs.Compile.{atom, all_scoped, scoped, spots_row, part, past_split, split_spots, no_spots};
ghost use Rattle.plain_tree.specs.TreeOf.{operation_of};
ghost use Rattle.pattern_tests.specs.of_match_types.Views.{View, reading, Sees, Keeps, Stands, value_type};
ghost use Rattle.pattern_tests.specs.of_match_steps.Steps.{Puts};
ghost use Rattle.exp_blocks.specs.of_exp_steps.Making.{Reads};
ghost use Rattle.exp_blocks.specs.Giving.{Gives};
ghost use Rattle.general_bindings.specs.General.{listed, over_scope, placing, general, spots_of, types_of, whole, labels_from, fields_from, splitting};

use exp_blocks::blocks::ended;
use mlc_base::make::boxed;
use mlc_base::memory::NoMemory;
use mlc_names::label::Label;
use pattern_tests::match_types::types::{fresh, scoped_type};
use pattern_tests::match_types::work::Work;
use pattern_tests::spots::Spot;
use plain_tree::tree::{Binding, Exp, Field, Operation, Step};
use std::alloc::Global;
use ty_core::scheme::Quantified;
use ty_core::ty::Head;

/// The label of a number.
fn label(number: usize) -> Result<Label, NoMemory>
    ensures { IfOk result (λ l. l ≡ Number number) }
{
    match u32::try_from(number) {
        Ok(number) => Ok(Label::Number(number)),
        Err(_) => Err(NoMemory),
    }
}

/// The labels of a record of these variables.
fn labels(alloc: Global, spots: &[Spot]) -> Result<Vec<Label>, NoMemory>
    ensures { IfOk result (λ made. made.items ≡ labels_from 1 spots.now) }
{
    let mut made = Vec::new(alloc);
    for i in 0..spots.len() {
        let next = label(i + 1)?;
        made.push(next)?;
    }
    Ok(made)
}

/// The fields of a record of these variables.
fn fields(alloc: Global, spots: &[Spot]) -> Result<Vec<Field>, NoMemory>
    ensures { IfOk result (λ made. made.items ≡ fields_from 1 spots.now) }
{
    let mut made = Vec::new(alloc);
    for i in 0..spots.len() {
        let next = label(i + 1)?;
        made.push(Field {
            label: next,
            atom: spots[i].number,
        })?;
    }
    Ok(made)
}

/// The types of variables over the parameters in scope.
fn spot_types(alloc: Global, work: &mut Work, spots: &[Spot]) -> Result<Vec<usize>, NoMemory>
    ensures is { IfOk result (λ made. (v : View) → Sees work.new v → map (type_at v.types) made.items ≡ all_scoped v.scope (types_of v spots.now)) }
    ensures held { IfOk result (λ made. AllBelow (length work.new.tables.types) made.items) }
    ensures next { IfOk result (λ _. work.new.next ≡ work.old.next) }
    ensures keeps { IfOk result (λ _. Keeps work.old work.new) }
{
    let mut made = Vec::new(alloc);
    for i in 0..spots.len() {
        let k = scoped_type(alloc, work, spots[i].ty)?;
        made.push(k)?;
    }
    Ok(made)
}

/// The type of the record of all variables.
pub fn record_type(alloc: Global, work: &mut Work, spots: &[Spot]) -> Result<usize, NoMemory>
    ensures is { IfOk result (λ k. Stands work.new k (over_scope (whole spots.now))) }
    ensures next { IfOk result (λ _. work.new.next ≡ work.old.next) }
    ensures keeps { IfOk result (λ _. Keeps work.old work.new) }
{
    let named = labels(alloc, spots)?;
    let types = spot_types(alloc, work, spots)?;
    let k = work.tables.types.apply(alloc, Head::Record(named), &types)?;
    Ok(k)
}

/// A new variable of a type of the table with the value of an operation.
fn push_placed(
    work: &mut Work,
    ty: usize,
    operation: Operation,
    steps: &mut Vec<Step>,
) -> Result<usize, NoMemory>
    ensures is { IfOk result (λ n. n ≡ work.old.next) }
    ensures next { IfOk result (λ _. work.new.next ≡ suc work.old.next) }
    ensures keeps { IfOk result (λ _. Keeps work.old work.new) }
    ensures puts { IfOk result (λ _. (t : View → Typ) (g : View → Op poly) → Stands work.old ty t → Reads work.old (λ v. operation_of (reading v) operation) g
        → Puts work.new steps.old.items steps.new.items (placing t work.old.next g)) }
{
    let variable = fresh(work)?;
    let binding = Binding {
        variable,
        parameters: work.tables.parameters.len(),
        ty,
    };
    steps.push(Step::Let(binding, operation))?;
    Ok(variable)
}

/// The record of all variables, whose type is given.
pub fn push_together(
    alloc: Global,
    work: &mut Work,
    ty: usize,
    spots: &[Spot],
    steps: &mut Vec<Step>,
) -> Result<usize, NoMemory>
    ensures is { IfOk result (λ n. n ≡ work.old.next) }
    ensures next { IfOk result (λ _. work.new.next ≡ suc work.old.next) }
    ensures keeps { IfOk result (λ _. Keeps work.old work.new) }
    ensures puts { IfOk result (λ _. Stands work.old ty (over_scope (whole spots.now)) → Puts work.new steps.old.items steps.new.items
        (placing (over_scope (whole spots.now)) work.old.next (λ v. make_record (over_scope (whole spots.now) v) (spots_row (spots_of v spots.now) 1)))) }
{
    let fields = fields(alloc, spots)?;
    let n = push_placed(work, ty, Operation::Record { ty, fields }, steps)?;
    Ok(n)
}

/// What is raised, in place of a value of this type, where the pattern fails.
pub fn raise_bind(alloc: Global, work: &mut Work, ty: usize) -> Result<Exp, NoMemory>
    ensures next { IfOk result (λ _. work.new.next ≡ suc work.old.next) }
    ensures keeps { IfOk result (λ _. Keeps work.old work.new) }
    ensures gives { IfOk result (λ made. (t : View → Typ) → Stands work.old ty t
        → Gives work.new made (λ v. let_in work.old.next [] (t v) (raise_initial bind_name) (ret (atom work.old.next)))) }
{
    let mut steps = Vec::new(alloc);
    let value = push_placed(work, ty, Operation::RaiseInitial(1), &mut steps)?;
    let made = ended(alloc, steps, value)?;
    Ok(made)
}

/// The variables of parameters.
fn variables(alloc: Global, all: &[Quantified]) -> Result<Vec<usize>, NoMemory>
    ensures { IfOk result (λ made. made.items ≡ map (λ q. q.variable) all.now) }
{
    let mut made = Vec::new(alloc);
    for i in 0..all.len() {
        made.push(all[i].variable)?;
    }
    Ok(made)
}

/// Variables as types. No memory holds the last number of all.
fn variable_types(
    alloc: Global,
    work: &mut Work,
    variables: &[usize],
) -> Result<Vec<usize>, NoMemory>
    ensures is { IfOk result (λ made. (v : View) → Sees work.new v → map (type_at v.types) made.items ≡ map var variables.now) }
    ensures next { IfOk result (λ _. work.new.next ≡ work.old.next) }
    ensures keeps { IfOk result (λ _. Keeps work.old work.new) }
{
    let mut made = Vec::new(alloc);
    for i in 0..variables.len() {
        let variable = variables[i];
        if variable == usize::MAX {
            return Err(NoMemory);
        }
        let k = work.tables.types.variable(alloc, variable)?;
        made.push(k)?;
    }
    Ok(made)
}

/// A list of parameters as types.
fn own_types(alloc: Global, work: &mut Work, parameters: usize) -> Result<Vec<usize>, NoMemory>
    ensures is { IfOk result (λ made. (v : View) → Sees work.new v → map (type_at v.types) made.items ≡ clean.own_types (listed parameters v)) }
    ensures next { IfOk result (λ _. work.new.next ≡ work.old.next) }
    ensures keeps { IfOk result (λ _. Keeps work.old work.new) }
{
    let named = variables(alloc, work.tables.parameters(parameters))?;
    let types = variable_types(alloc, work, &named)?;
    Ok(types)
}

/// The value of a block, generalised over a list of parameters, in a new variable.
pub fn push_general(
    alloc: Global,
    work: &mut Work,
    parameters: usize,
    ty: usize,
    body: Exp,
    steps: &mut Vec<Step>,
) -> Result<usize, NoMemory>
    ensures is { IfOk result (λ n. n ≡ work.old.next) }
    ensures next { IfOk result (λ _. work.new.next ≡ suc work.old.next) }
    ensures keeps { IfOk result (λ _. Keeps work.old work.new) }
    ensures puts { IfOk result (λ _. (t : View → Typ) (g : View → Tests) → Stands work.old ty t → Gives work.old body g
        → Puts work.new steps.old.items steps.new.items (general parameters work.old.next t g)) }
{
    let body = boxed(alloc, body)?;
    let variable = fresh(work)?;
    let binding = Binding {
        variable,
        parameters,
        ty,
    };
    steps.push(Step::Block(binding, body))?;
    Ok(variable)
}

/// A field of a generalised record of type `ty`, as a body by itself, and the field's type.
fn field_body(
    alloc: Global,
    work: &mut Work,
    parameters: usize,
    record_at: usize,
    ty: usize,
    number: usize,
    spot: Spot,
) -> Result<(Exp, usize), NoMemory>
    ensures next { IfOk result (λ _. work.new.next ≡ suc (suc work.old.next)) }
    ensures keeps { IfOk result (λ _. Keeps work.old work.new) }
    ensures ty { IfOk result (λ made. Stands work.new made.1 (over_scope (λ v. value_type v spot.ty))) }
    ensures gives { IfOk result (λ made. (u : View → Typ) → Stands work.old ty (over_scope u)
        → Gives work.new made.0 (λ v. part v.scope (listed parameters v) (u v) record_at number (value_type v spot.ty) work.old.next)) }
{
    let at = own_types(alloc, work, parameters)?;
    let mut inner = Vec::new(alloc);
    let whole = push_placed(work, ty, Operation::Use(record_at, at), &mut inner)?;
    let field = scoped_type(alloc, work, spot.ty)?;
    let label = label(number)?;
    let operation = Operation::Select {
        ty,
        label,
        record: whole,
    };
    let value = push_placed(work, field, operation, &mut inner)?;
    let body = ended(alloc, inner, value)?;
    Ok((body, field))
}

/// A field of a generalised record, generalised itself.
fn push_part(
    alloc: Global,
    work: &mut Work,
    parameters: usize,
    record_at: usize,
    ty: usize,
    number: usize,
    spot: Spot,
    steps: &mut Vec<Step>,
) -> Result<Spot, NoMemory>
    ensures variable { IfOk result (λ made. made.variable ≡ spot.variable) }
    ensures number { IfOk result (λ made. made.number ≡ suc (suc work.old.next)) }
    ensures ty { IfOk result (λ made. made.ty ≡ spot.ty) }
    ensures next { IfOk result (λ _. work.new.next ≡ suc (suc (suc work.old.next))) }
    ensures keeps { IfOk result (λ _. Keeps work.old work.new) }
    ensures puts { IfOk result (λ _. (u : View → Typ) → Stands work.old ty (over_scope u) → Puts work.new steps.old.items steps.new.items
        (general parameters (suc (suc work.old.next)) (over_scope (λ v. value_type v spot.ty))
        (λ v. part v.scope (listed parameters v) (u v) record_at number (value_type v spot.ty) work.old.next))) }
{
    let (body, field) = field_body(alloc, work, parameters, record_at, ty, number, spot)?;
    let variable = push_general(alloc, work, parameters, field, body, steps)?;
    Ok(Spot {
        variable: spot.variable,
        number: variable,
        ty: spot.ty,
    })
}

/// Each variable is a field of the record. Gives where they are then.
pub fn push_split(
    alloc: Global,
    work: &mut Work,
    parameters: usize,
    record_at: usize,
    ty: usize,
    spots: &[Spot],
    steps: &mut Vec<Step>,
) -> Result<Vec<Spot>, NoMemory>
    ensures next { IfOk result (λ _. (v : View) → work.new.next ≡ past_split (spots_of v spots.now) work.old.next) }
    ensures keeps { IfOk result (λ _. Keeps work.old work.new) }
    ensures found { IfOk result (λ made. (v : View) → spots_of v made.items ≡ split_spots (spots_of v spots.now) work.old.next no_spots) }
    ensures puts { IfOk result (λ _. (u : View → Typ) → Stands work.old ty (over_scope u) → Puts work.new steps.old.items steps.new.items
        (λ v rest. splitting v.scope (listed parameters v) (u v) record_at (spots_of v spots.now) 1 work.old.next rest)) }
{
    let mut made = Vec::new(alloc);
    for i in 0..spots.len() {
        let spot = push_part(
            alloc,
            work,
            parameters,
            record_at,
            ty,
            i + 1,
            spots[i],
            steps,
        )?;
        made.push(spot)?;
    }
    Ok(made)
}
