// Types that a mark allows.
ghost use Rattle.std.specs.Prelude.{◌≡◌, ◌↔◌, [], IsTrue, IfOk};
ghost use Rattle.ty_core.specs.Marks.{Allows, IsOf};
ghost use Rattle.ty_table.specs.TypeAt.{type_at};
ghost use Rattle.ir_known.specs.of_ir_poly.Types.{admits_in};
ghost use Rattle.ir_known.specs.Knows.{marks_of};
ghost use Rattle.prog_check.specs.Deciding.{allows};

use crate::parts::named_parts;
use ir_known::stack::Stack;
use ir_known::walk::is_equality;
use mlc_base::memory::NoMemory;
use std::alloc::Global;
use ty_core::mark::{Class, Mark, is_of};
use ty_table::types::Types;

/// Whether a type is one of a class.
fn is_in_class(types: &Types, class: Class, t: usize) -> bool
    ensures { IsTrue result ↔ IsOf class (type_at types.now t) }
{
    match named_parts(types, t) {
        Some((name, parts)) => {
            if parts.is_empty() {
                is_of(class, name)
            } else {
                false
            }
        }
        None => false,
    }
}

/// Whether a mark allows a type, where those parameters admit equality that are marked so.
fn may_stand(
    alloc: Global,
    types: &Types,
    scope: &Stack<Mark>,
    mark: Mark,
    t: usize,
) -> Result<bool, NoMemory>
    ensures { IfOk result (λ yes. IsTrue yes ↔ Allows mark (admits_in (marks_of scope.now)) (type_at types.now t)) }
{
    match mark {
        Mark::Any => Ok(true),
        Mark::Equality => is_equality(alloc, types, scope, t),
        Mark::Class(class) => Ok(is_in_class(types, class, t)),
    }
}

/// Whether a mark allows a type, where those parameters admit equality that are marked so.
pub fn is_allowed(
    alloc: Global,
    types: &Types,
    scope: &Stack<Mark>,
    mark: Mark,
    t: usize,
) -> Result<bool, NoMemory>
    ensures fits { IfOk result (λ yes. IsTrue yes ↔ Allows mark (admits_in (marks_of scope.now)) (type_at types.now t)) }
    ensures decided { IfOk result (λ yes. yes ≡ allows mark (admits_in (marks_of scope.now)) (type_at types.now t)) }
{
    let yes = may_stand(alloc, types, scope, mark, t)?;
    Ok(yes)
}
