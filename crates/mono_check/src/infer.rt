// The type of a program's body: that of the atom that it ends with.
ghost use Rattle.std.specs.Prelude.{◌≡◌, ℕ, nat_eq, Some, false, IfOk};
ghost use Rattle.plain_tree.specs.TreeOf.{tree_of};
ghost use Rattle.mono_fits.specs.Asked.{given};
ghost use Rattle.mono_operations.specs.Reads.{reading};
ghost use Rattle.mono_check.specs.Walk.{fits};

use crate::walk::{attempts_fit, steps_bring};
use ir_known::scope::Scope;
use mlc_base::memory::NoMemory;
use mono_operations::atom::atom_type;
use mono_operations::tables::Tables;
use plain_tree::tree::Exp;
use std::alloc::Global;

/// The one type that an expression fits at where no miss goes on, if there is one.
pub fn exp_type(
    e: &Exp,
    alloc: Global,
    tables: &Tables,
    scope: &mut Scope,
) -> Result<Option<usize>, NoMemory>
    ensures is { IfOk result (λ found. (u : ℕ) → fits tables.now false scope.old (tree_of (reading tables.now) e.now) u ≡ given found (nat_eq u)) }
    ensures kept { IfOk result (λ found. (u : ℕ) → found ≡ Some u → scope.new ≡ scope.old) }
{
    match e {
        Exp::Steps(steps, rest) => {
            let place = scope.mark();
            let brings = steps_bring(steps, alloc, tables, scope, false, 0)?;
            if !brings {
                return Ok(None);
            }
            let found = exp_type(rest, alloc, tables, scope)?;
            scope.restore(place);
            Ok(found)
        }
        Exp::Ret(atom) => Ok(atom_type(scope, *atom)),
        Exp::Switch {
            atom: _,
            ty: _,
            arms: _,
        } => Ok(None),
        Exp::First(attempts, last) => {
            let found = exp_type(last, alloc, tables, scope)?;
            let ty = match found {
                Some(given) => given,
                None => return Ok(None),
            };
            let yes = attempts_fit(attempts, alloc, tables, scope, ty)?;
            if !yes {
                return Ok(None);
            }
            Ok(Some(ty))
        }
        Exp::Miss => Ok(None),
    }
}
