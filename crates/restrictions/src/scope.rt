// The type variables that a declaration of values brings into scope.
ghost use Rattle.std.specs.Prelude.{◌≡◌, ◌-◌, drop, length, map, IfOk};
ghost use Rattle.core_rules.specs.Restrictions.{unless};
ghost use Rattle.core_rules.specs.Scoping.{scoped_at, tyvar_names};
ghost use Rattle.sml_tree.specs.BareTree.{no_binds};
ghost use Rattle.sml_tree.specs.Derived.{function_binds};
ghost use Rattle.sml_tree.specs.TreeOf.{bind_of, binds_of, function_of};
ghost use Rattle.restrictions.specs.Found.{Adds, names_in, noted_onto};
ghost use Rattle.restrictions.specs.Nodes.{are_new};
ghost use Rattle.restrictions.specs.Scopes.{entered_in};

use crate::keys::tyvar_keys;
use crate::once::{are_apart, are_once, note_all};
use crate::walk::{Walk, find_unless};
use mlc_base::memory::NoMemory;
use mlc_base::place::Place;
use scoped_map::scoped::Scoped;
use scoped_tyvars::scoped::{scoped_in_fun, scoped_in_val};
use sml_tree::ident::Tyvar;
use sml_tree::tree::{Bind, Function, TyvarSeq};
use std::alloc::Global;

/// A scope that was entered: whether the sequence of its declaration is new there, and how much was in scope before.
#[derive(Clone, Copy)]
pub struct Entered {
    pub new: bool,
    pub mark: usize,
}

/// Whether no variable of a sequence is there twice, or in scope.
fn are_new(alloc: Global, around: &Scoped<usize>, tyvars: &[Tyvar]) -> Result<bool, NoMemory>
    ensures { IfOk result (λ new. new ≡ are_new (names_in around.now) tyvars.now) }
{
    let keys = tyvar_keys(alloc, tyvars)?;
    let once = are_once(alloc, &keys)?;
    let apart = are_apart(around, &keys);
    Ok(once && apart)
}

fn enter(alloc: Global, tyvars: &[Tyvar], around: &mut Scoped<usize>) -> Result<(), NoMemory>
    ensures { IfOk result (λ _. around.new ≡ noted_onto (tyvar_names tyvars.now) around.old) }
{
    let keys = tyvar_keys(alloc, tyvars)?;
    note_all(&keys, around)
}

/// Enters the scope of a `val` declaration.
pub fn enter_val(
    alloc: Global,
    tyvars: &TyvarSeq,
    binds: &[Bind],
    recs: &[Bind],
    around: &mut Scoped<usize>,
) -> Result<Entered, NoMemory>
    ensures entered { IfOk result (λ e. e ≡ entered_in around.old tyvars.now.tyvars.items) }
    ensures around { IfOk result (λ _. around.new
        ≡ noted_onto (tyvar_names (scoped_at (names_in around.old) tyvars.now.tyvars.items (binds_of (map bind_of binds.now)) (binds_of (map bind_of recs.now)))) around.old) }
{
    let new = are_new(alloc, around, &tyvars.tyvars)?;
    let mark = around.len();
    let scoped = scoped_in_val(alloc, around, &tyvars.tyvars, binds, recs)?;
    enter(alloc, &scoped, around)?;
    Ok(Entered { new, mark })
}

/// Enters the scope of a `fun` declaration.
pub fn enter_fun(
    alloc: Global,
    tyvars: &TyvarSeq,
    functions: &[Function],
    around: &mut Scoped<usize>,
) -> Result<Entered, NoMemory>
    ensures entered { IfOk result (λ e. e ≡ entered_in around.old tyvars.now.tyvars.items) }
    ensures around { IfOk result (λ _. around.new
        ≡ noted_onto (tyvar_names (scoped_at (names_in around.old) tyvars.now.tyvars.items no_binds (function_binds (map function_of functions.now)))) around.old) }
{
    let new = are_new(alloc, around, &tyvars.tyvars)?;
    let mark = around.len();
    let scoped = scoped_in_fun(alloc, around, &tyvars.tyvars, functions)?;
    enter(alloc, &scoped, around)?;
    Ok(Entered { new, mark })
}

/// Leaves the scope again. Here its sequence is found broken, unless it was new.
pub fn leave(entered: Entered, place: Place, walk: &mut Walk) -> Result<(), NoMemory>
    ensures around { IfOk result (λ _. walk.new.around ≡ drop (length walk.old.around - entered.mark) walk.old.around) }
    ensures found { IfOk result (λ _. Adds walk.old.found.items walk.new.found.items (unless entered.new place)) }
{
    walk.around.truncate(entered.mark);
    find_unless(entered.new, place, &mut walk.found)
}
