// Functions: their parameters, and what they are with a body.
ghost use Rattle.std.specs.Prelude.{◌≡◌, ◌∷◌, ◌++◌, [], suc, map, IfOk};
ghost use Rattle.ir_plain.specs.Tree.{ret};
ghost use Rattle.ty_table.specs.TypeAt.{type_at};
ghost use Rattle.match_compile.specs.Compile.{atom};
ghost use Rattle.plain_tree.specs.TreeOf.{tree_of, fun_of, function_of};
ghost use Rattle.general_bindings.specs.of_match_types.Views.{View, reading};
ghost use Rattle.general_bindings.specs.of_match_steps.Steps.{stand};
ghost use Rattle.general_bindings.specs.of_exp_blocks.Giving.{lambda_of};
ghost use Rattle.match_pass.specs.Heads.{Headed, Unnamed};

use crate::groups::after;
use general_bindings::exp_blocks::blocks::{Lambda, ended, member};
use general_bindings::exp_blocks::scopes::{bind_parameter, bind_parameters};
use general_bindings::match_steps::steps::new_parameter;
use general_bindings::match_types::work::{ValueType, Work};
use mlc_base::memory::NoMemory;
use plain_tree::tree::{Exp, Function, Parameter, Step};
use prog_tree::tree::Parameter as Named;
use std::alloc::Global;

/// The parameters of a function whose body isn't made yet.
#[derive(Drop)]
pub struct Head {
    pub parameters: Vec<Parameter>,
    pub last: Parameter,
}

/// Parameters of the source, and the last one.
pub fn named_head(
    alloc: Global,
    work: &mut Work,
    parameters: &[Named],
    last: Named,
) -> Result<Head, NoMemory>
    ensures { IfOk result (λ head. Headed work.old work.new parameters.now last head.parameters.items head.last) }
{
    let before = bind_parameters(alloc, work, parameters)?;
    let bound = bind_parameter(alloc, work, last)?;
    Ok(Head {
        parameters: before,
        last: bound,
    })
}

/// Parameters of the source, and one that has no name.
pub fn unnamed_head(
    alloc: Global,
    work: &mut Work,
    parameters: &[Named],
    t: usize,
) -> Result<Head, NoMemory>
    ensures { IfOk result (λ head. Unnamed work.old work.new parameters.now t head.parameters.items head.last) }
{
    let before = bind_parameters(alloc, work, parameters)?;
    let bound = new_parameter(alloc, work, ValueType::Source(t))?;
    Ok(Head {
        parameters: before,
        last: bound,
    })
}

/// A function whose body is steps that end with a value.
pub fn with_steps(
    alloc: Global,
    head: Head,
    inner: Vec<Step>,
    value: usize,
) -> Result<Lambda, NoMemory>
    ensures { IfOk result (λ made. (v : View) → lambda_of v made
        ≡ fun_of (reading v) head.parameters.items head.last (stand v inner.items (ret (atom value)))) }
{
    let body = ended(alloc, inner, value)?;
    Ok(Lambda {
        parameters: head.parameters,
        last: head.last,
        body,
    })
}

/// A function with this body.
pub fn with_body(head: Head, body: Exp) -> Lambda
    ensures { (v : View) → lambda_of v result ≡ fun_of (reading v) head.parameters.items head.last (tree_of (reading v) body) }
{
    Lambda {
        parameters: head.parameters,
        last: head.last,
        body,
    }
}

/// A function behind others of a group. Gives the next variable.
pub fn add_member(
    variable: usize,
    ty: usize,
    lambda: Lambda,
    made: &mut Vec<Function>,
) -> Result<usize, NoMemory>
    ensures next { IfOk result (λ n. n ≡ suc variable) }
    ensures more { IfOk result (λ _. (v : View) → map (function_of (reading v)) made.new.items ≡ map (function_of (reading v)) made.old.items
        ++ record { variable = variable; type = type_at v.types ty; function = lambda_of v lambda } ∷ []) }
{
    let next = after(variable)?;
    made.push(member(variable, ty, lambda))?;
    Ok(next)
}
