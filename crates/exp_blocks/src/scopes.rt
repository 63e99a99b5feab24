// Parameters that come into scope, and names that are bound.
ghost use Rattle.std.specs.Prelude.{◌≡◌, IfOk};
ghost use Rattle.exp_blocks.specs.Giving.{Ends};
ghost use Rattle.exp_blocks.specs.Binding.{InScope, Bound, AllBound, Fits};
ghost use Rattle.match_names.specs.Bindings.{names_of};
ghost use Rattle.match_compile.specs.Compile.{each_named};

use exp_steps::match_steps::steps::new_parameter;
use exp_steps::match_types::work::{ValueType, Work};
use ir_known::stack::Stack;
use match_names::names::Names;
use mlc_base::memory::NoMemory;
use plain_tree::tree::Parameter;
use prog_tree::tree::{Parameter as Named, Pat};
use std::alloc::Global;
use ty_core::mark::Mark;
use ty_core::scheme::Quantified;

/// Brings a list of parameters into scope.
pub fn push_scope(scope: &mut Stack<Mark>, all: &[Quantified]) -> Result<(), NoMemory>
    ensures { IfOk result (λ _. InScope scope.old scope.new all.now) }
{
    for i in 0..all.len() {
        let _ = scope.push(all[i].variable, all[i].mark)?;
    }
    Ok(())
}

/// A parameter of the source gets a new number.
pub fn bind_parameter(alloc: Global, work: &mut Work, named: Named) -> Result<Parameter, NoMemory>
    ensures { IfOk result (λ made. Bound work.old work.new named made) }
{
    let parameter = new_parameter(alloc, work, ValueType::Source(named.ty))?;
    work.names.bind(named.variable, parameter.variable)?;
    Ok(parameter)
}

/// Parameters of the source, in order.
pub fn bind_parameters(
    alloc: Global,
    work: &mut Work,
    named: &[Named],
) -> Result<Vec<Parameter>, NoMemory>
    ensures { IfOk result (λ made. AllBound work.old work.new named.now made.items) }
{
    let mut made = Vec::new(alloc);
    for i in 0..named.len() {
        let parameter = bind_parameter(alloc, work, named[i])?;
        made.push(parameter)?;
    }
    Ok(made)
}

/// Variables that stand for one number, the first in front.
pub fn bind_each(names: &mut Names, variables: &[usize], number: usize) -> Result<(), NoMemory>
    ensures ends { IfOk result (λ _. Ends names.old names.new) }
    ensures names { IfOk result (λ _. names_of names.new ≡ each_named variables.now number (names_of names.old)) }
{
    let mut left = variables.len();
    while left > 0 {
        left -= 1;
        names.bind(variables[left], number)?;
    }
    Ok(())
}

/// The variables of a pattern that any value fits are the value.
pub fn bind_all(names: &mut Names, pat: &Pat, value: usize) -> Result<(), NoMemory>
    ensures { IfOk result (λ _. Fits names.old names.new pat.now value) }
{
    match pat {
        Pat::Variable(x) => {
            names.bind(*x, value)?;
            Ok(())
        }
        Pat::As(x, inner) => {
            names.bind(*x, value)?;
            bind_all(names, inner, value)?;
            Ok(())
        }
        Pat::Chain(_, first, parts) => {
            if parts.is_empty() {
                bind_all(names, first, value)?;
            }
            Ok(())
        }
        Pat::Any => Ok(()),
        Pat::Constant(_) => Ok(()),
        Pat::Constructor(_) => Ok(()),
        Pat::Exception(_) => Ok(()),
        Pat::Before(_, _, _) => Ok(()),
        Pat::Record(_, _) => Ok(()),
    }
}
