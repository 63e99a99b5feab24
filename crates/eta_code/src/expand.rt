// The expansion of a program.
ghost use Rattle.std.specs.Prelude.{◌≡◌, [], ℕ, List, IfOk};
ghost use Rattle.mono_bound.specs.Reads.{mono_of};
ghost use Rattle.eta_expand.specs.Expand as clean;

use crate::walk::walk;
use mlc_base::memory::NoMemory;
use mono_types::types::Types;
use plain_tree::tree::Exp;
use scoped_map::scoped::Scoped;
use std::alloc::Global;

/// A program's body with functions in place of constructors, exceptions, `ref` and primitives that stand as values. New variables are those from `first` on.
/// Err only for want of memory, or of numbers of variables and labels.
pub fn expand(alloc: Global, types: &Types, first: usize, body: &Exp) -> Result<Exp, NoMemory>
    ensures { IfOk result (λ made. (strings : List (List ℕ))
        → mono_of types.now strings made ≡ clean.expand types.now [] first (mono_of types.now strings body.now)) }
{
    let mut names = Scoped::new(alloc);
    let mut next = first;
    walk(alloc, types, &mut names, &mut next, body)
}
