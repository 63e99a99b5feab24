// The type of a program's body: that of the atom that it ends with.
ghost use Rattle.std.specs.Prelude.{◌≡◌, ℕ, Some, None, IfOk};
ghost use Rattle.ty_table.specs.TypeAt.{type_at};
ghost use Rattle.ir_poly.specs.TestsChecked.{exn_type};
ghost use Rattle.ir_known.specs.Knows.{marks_of};
ghost use Rattle.record_order.specs.Order.{AreOrders};
ghost use Rattle.tests_check.specs.Walk.{HasType, HasNone};

use crate::atom::atom_type;
use crate::walk::{attempts_fit, steps_bring};
use ir_known::scope::Scope;
use ir_known::stack::Stack;
use ir_tables::tables::Tables;
use mlc_base::memory::NoMemory;
use plain_tree::tree::Exp;
use record_order::facts::Facts;
use std::alloc::Global;
use ty_core::mark::Mark;

/// The one type that an expression fits at where no miss goes on, if there is one.
pub fn exp_type(
    e: &Exp,
    alloc: Global,
    tables: &Tables,
    facts: &Facts,
    marks: &mut Stack<Mark>,
    scope: &mut Scope,
) -> Result<Option<usize>, NoMemory>
    requires exn { type_at tables.now.types facts.now.exn ≡ exn_type }
    requires orders { AreOrders tables.now.types facts.now.orders }
    ensures some { IfOk result (λ found. (k : ℕ) → found ≡ Some k → HasType tables.now (marks_of marks.old) scope.old e.now k) }
    ensures none { IfOk result (λ found. found ≡ None → HasNone tables.now (marks_of marks.old) scope.old e.now) }
    ensures marks { IfOk result (λ found. (k : ℕ) → found ≡ Some k → marks_of marks.new ≡ marks_of marks.old) }
    ensures scope { IfOk result (λ found. (k : ℕ) → found ≡ Some k → scope.new ≡ scope.old) }
{
    match e {
        Exp::Steps(steps, rest) => {
            let place = scope.mark();
            let brings = steps_bring(steps, alloc, tables, facts, marks, scope, false, 0)?;
            if !brings {
                return Ok(None);
            }
            let found = exp_type(rest, alloc, tables, facts, marks, scope)?;
            scope.restore(place);
            Ok(found)
        }
        Exp::Ret(atom) => Ok(atom_type(tables, scope, *atom)),
        Exp::Switch {
            atom: _,
            ty: _,
            arms: _,
        } => Ok(None),
        Exp::First(attempts, last) => {
            let found = exp_type(last, alloc, tables, facts, marks, scope)?;
            let ty = match found {
                Some(given) => given,
                None => return Ok(None),
            };
            let yes = attempts_fit(attempts, alloc, tables, facts, marks, scope, ty)?;
            if !yes {
                return Ok(None);
            }
            Ok(Some(ty))
        }
        Exp::Miss => Ok(None),
    }
}
