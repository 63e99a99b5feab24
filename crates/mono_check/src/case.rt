// What an arm asks of a value.
ghost use Rattle.std.specs.Prelude.{◌≡◌, true, IfOk};
ghost use Rattle.plain_tree.specs.TreeOf.{case_of};
ghost use Rattle.mono_operations.specs.Reads.{reading};
ghost use Rattle.mono_check.specs.Walk.{case_right, opened};

use crate::opening::bring;
use ir_known::known::Known;
use ir_known::scope::Scope;
use mlc_base::memory::NoMemory;
use mono_operations::atom::is_exception_of;
use mono_operations::mono_uses::ask::{has_constructor, has_literal, is_exn, is_sized};
use mono_operations::tables::Tables;
use plain_tree::tree::Case;

/// Whether an arm's test fits values of a type; binds what it binds.
pub fn bind_case(
    tables: &Tables,
    scope: &mut Scope,
    case: Case,
    ty: usize,
) -> Result<bool, NoMemory>
    ensures right { IfOk result (λ yes. yes ≡ case_right tables.now scope.old (case_of (reading tables.now) case) ty) }
    ensures opened { IfOk result (λ yes. yes ≡ true → scope.new ≡ opened case scope.old) }
{
    let types = &tables.types;
    match case {
        Case::Constant(constant) => Ok(has_literal(types, constant, ty)),
        Case::Constructor(constructor) => Ok(has_constructor(types, ty, constructor, None)),
        Case::ConstructorOf {
            constructor,
            argument,
        } => {
            if !has_constructor(types, ty, constructor, Some(argument.ty)) {
                return Ok(false);
            }
            let new = bring(scope, argument.variable, Known::OfType(argument.ty))?;
            Ok(new)
        }
        Case::Exception(exception) => Ok(
            is_exn(types, ty) && is_exception_of(scope, exception, None),
        ),
        Case::ExceptionOf {
            exception,
            argument,
        } => {
            if !is_exn(types, ty) {
                return Ok(false);
            }
            if !is_exception_of(scope, exception, Some(argument.ty)) {
                return Ok(false);
            }
            let new = bring(scope, argument.variable, Known::OfType(argument.ty))?;
            Ok(new)
        }
        Case::Record(size) => Ok(is_sized(types, size, ty)),
    }
}
