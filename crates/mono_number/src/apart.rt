// Whether copies have names of their own.
ghost use Rattle.std.specs.Prelude.{◌≡◌, ◌<◌, ℕ, List, Some, true, length, slice_get};
ghost use Rattle.monomorphise.specs.Monomorphise.{is_same};
ghost use Rattle.ty_table.specs.TypeAt.{AllBelow};
ghost use Rattle.mono_names.specs.Named.{AreHeld};
ghost use Rattle.mono_read.specs.of_mono_state.Seen.{name_in, held_of};
ghost use Rattle.mono_number.specs.Moves.{AreWithin};

use mono_names::copies::Copies;
use mono_names::law::names_are_once;
use mono_names::lists::Lists;
use mono_read::mono_state::copier::Copier;

/// Whether all of these are below a limit.
fn all_below(numbers: &[usize], limit: usize) -> bool
    ensures { result ≡ true → AllBelow limit numbers.now }
{
    for i in 0..numbers.len() {
        if numbers[i] >= limit {
            return false;
        }
    }
    true
}

/// Whether the lists name types below a limit.
fn lists_within(lists: &Lists, limit: usize) -> bool
    ensures { result ≡ true → AreHeld limit lists.now }
{
    for k in 0..lists.len() {
        match lists.get(k) {
            Some(list) => {
                if !all_below(list, limit) {
                    return false;
                }
            }
            None => return false,
        }
    }
    true
}

/// Whether the copies are at lists below a limit.
fn copies_within(copies: &Copies, limit: usize) -> bool
    ensures { result ≡ true → AreWithin limit copies.now }
{
    for n in 0..copies.len() {
        match copies.get(n) {
            Some((_, list)) => {
                if list >= limit {
                    return false;
                }
            }
            None => return false,
        }
    }
    true
}

/// Whether each copy has a name of its own. It has, where copies are at lists that are there, and lists name types that are.
pub fn names_are_apart(copier: &Copier) -> bool
    ensures { result ≡ true → (n m : ℕ) → n < length copier.now.copies → m < length copier.now.copies
        → is_same (name_in (held_of copier.now) n) (name_in (held_of copier.now) m) ≡ true → n ≡ m }
{
    names_are_once();
    let _copies_once = copier.copies.len();
    let types = copier.closed.len();
    let lists = copier.lists.len();
    if !lists_within(&copier.lists, types) {
        return false;
    }
    copies_within(&copier.copies, lists)
}
