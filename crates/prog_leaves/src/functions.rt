// Types of functions.
ghost use Rattle.std.specs.Prelude.{◌≡◌, MatchOption};
ghost use Rattle.ty_core.specs.Types.{Typ};
ghost use Rattle.ty_table.specs.TypeAt.{type_at};
ghost use Rattle.prog_leaves.specs.Right.{is_function_type};
ghost use Rattle.prog_leaves.specs.Functions.{functions, curried_is};

use ir_known::ask::{is_function, result_from};
use ir_tables::tables::Tables;
use prog_shapes::types::type_of;
use prog_tree::tree::{Function, Parameter};
use ty_table::types::Types;

/// What a function of this type gives after these parameters, if it takes them.
fn after(types: &Types, parameters: &[Parameter], ty: usize) -> Option<usize>
    ensures { MatchOption result ((u : Typ) → type_at types.now ty ≡ functions types.now parameters.now u → ⊥)
        (λ r. type_at types.now ty ≡ functions types.now parameters.now (type_at types.now r)) }
{
    let mut now = ty;
    for i in 0..parameters.len() {
        let parameter = parameters[i];
        match result_from(types, now, parameter.ty) {
            Some(next) => now = next,
            None => return None,
        }
    }
    Some(now)
}

/// Whether functions of these parameters, and then of one from a type to another, have this type.
fn is_curried(
    types: &Types,
    parameters: &[Parameter],
    argument: usize,
    given: usize,
    ty: usize,
) -> bool
    ensures { result ≡ curried_is types.now parameters.now argument given ty }
{
    match after(types, parameters, ty) {
        Some(rest) => is_function(types, rest, argument, given),
        None => false,
    }
}

/// Whether a function has this type.
pub fn is_function_type(tables: &Tables, function: &Function, ty: usize) -> bool
    ensures { result ≡ is_function_type tables.now function.now ty }
{
    match function {
        Function::Named(parameters, last, body) => {
            is_curried(&tables.types, parameters, last.ty, type_of(body), ty)
        }
        Function::ByRules(parameters, _, argument, given, _) => {
            is_curried(&tables.types, parameters, *argument, *given, ty)
        }
    }
}
