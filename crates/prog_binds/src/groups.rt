// The variables of bindings and of functions that are declared together.
ghost use Rattle.std.specs.Prelude.{◌≡◌, map, IfOk};
ghost use Rattle.ty_table.specs.TypeAt.{type_at};
ghost use Rattle.ir_poly.specs.ProgChecked.{each_onto, funs_onto, binds_onto};
ghost use Rattle.ir_tables.specs.Tables.{parameters_of, parameters_at};
ghost use Rattle.prog_tree.specs.Readings.{reading};
ghost use Rattle.prog_tree.specs.TreeOf.{funs_by, fun_of, binds_by, bind_of};
ghost use Rattle.prog_known.specs.Onto.{Onto, known_by};
ghost use Rattle.prog_binds.specs.Chains.{member_step, bind_step, manner_if};

use crate::one::bind_one;
use crate::pats::bind_pat;
use ir_tables::tables::Tables;
use mlc_base::memory::NoMemory;
use prog_known::manner::Manner;
use prog_known::variables::Variables;
use prog_tree::tree::{Binding, Function, Rule};

/// Puts variables of one type in scope, the last of them first.
fn bind_each(
    tables: &Tables,
    variables: &mut Variables,
    manner: Manner,
    names: &[usize],
    ty: usize,
) -> Result<(), NoMemory>
    ensures { IfOk result (λ _. Onto tables.now variables.old variables.new (each_onto names.now (known_by tables.now manner (type_at tables.now.types ty)))) }
{
    for i in 0..names.len() {
        let at = names.len() - 1 - i;
        let name = names[at];
        bind_one(tables, variables, manner, name, ty)?;
    }
    Ok(())
}

fn bind_member(
    tables: &Tables,
    variables: &mut Variables,
    manner: Manner,
    member: &(Vec<usize>, usize, Function),
) -> Result<(), NoMemory>
    ensures { IfOk result (λ _. Onto tables.now variables.old variables.new (member_step tables.now manner member.now)) }
{
    bind_each(tables, variables, manner, &member.0, member.1)?;
    Ok(())
}

/// Puts functions in scope, the last of them first.
pub fn bind_members(
    tables: &Tables,
    variables: &mut Variables,
    manner: Manner,
    members: &[(Vec<usize>, usize, Function)],
) -> Result<(), NoMemory>
    ensures { IfOk result (λ _. Onto tables.now variables.old variables.new
        (funs_onto (known_by tables.now manner) (funs_by (type_at tables.now.types) (map (fun_of (reading tables.now)) members.now)))) }
{
    for i in 0..members.len() {
        let at = members.len() - 1 - i;
        let member = &members[at];
        bind_member(tables, variables, manner, member)?;
    }
    Ok(())
}

/// A binding is generalised, or its variables have one type.
fn manner_of(general: bool, parameters: usize) -> Manner
    ensures { result ≡ manner_if general parameters }
{
    if general {
        Manner::Over(parameters)
    } else {
        Manner::Plain
    }
}

fn bind_binding(
    tables: &Tables,
    variables: &mut Variables,
    parameters: usize,
    bind: &(Binding, Rule),
) -> Result<(), NoMemory>
    ensures { IfOk result (λ _. Onto tables.now variables.old variables.new (bind_step tables.now parameters bind.now)) }
{
    let binding = bind.0;
    let manner = manner_of(binding.general, parameters);
    bind_pat(tables, variables, manner, &bind.1.pat, binding.ty)?;
    Ok(())
}

/// Puts the variables of bindings in scope, over a list of parameters where they are generalised.
pub fn bind_bindings(
    tables: &Tables,
    variables: &mut Variables,
    parameters: usize,
    binds: &[(Binding, Rule)],
) -> Result<(), NoMemory>
    ensures { IfOk result (λ _. Onto tables.now variables.old variables.new
        (binds_onto (parameters_at (parameters_of tables.now) parameters)
        (binds_by (type_at tables.now.types) (map (bind_of (reading tables.now)) binds.now)))) }
{
    for i in 0..binds.len() {
        let bind = &binds[i];
        bind_binding(tables, variables, parameters, bind)?;
    }
    Ok(())
}
