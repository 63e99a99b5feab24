// The walk along words.
ghost use Rattle.std.specs.Prelude.{◌≡◌, ◌+◌, ◌<◌, ◌∷◌, nat_eq, ℕ, List, Option, [], map, drop, length, slice_get, Some, IfOk, IfSome};
ghost use Rattle.indexmap.specs.IndexMap.{get};
ghost use Rattle.ty_core.specs.Types.{Typ};
ghost use Rattle.ir_mono.specs.Types as table;
ghost use Rattle.monomorphise.specs.Number.{none_given};
ghost use Rattle.mono_read.specs.of_mono_state.Seen.{Held, sign_of};
ghost use Rattle.mono_read.specs.of_mono_state.declared.word.Word.TheVariants as word;
ghost use Rattle.mono_read.specs.Reads as made;
ghost use Rattle.mono_number.specs.Walking.{at, along};
ghost use Rattle.mono_number.specs.Moves.{Texts, AreNumbers, IsOpen, Moves, takes, closes, heads_one, begins, AreHeads, BindsHead, BindsHeads};

use crate::walk::{
    Around, Walk, bind_number, enter, enter_bodies, finish, finish_let, follow, leave, make,
    type_number,
};
use crate::words::{after, word_number};
use indexmap::IndexMap;
use mlc_base::memory::NoMemory;
use mlc_names::label::Label;
use mono_read::mono_state::word::{Act, Word};
use plain_tree::tree::{Field, Parameter};
use scoped_map::scoped::Scoped;
use std::alloc::Global;

/// A word that becomes a word.
fn put_plain(
    walk: &mut Walk,
    limit: usize,
    known: &IndexMap<usize, usize>,
    word: &Word,
) -> Result<(), NoMemory>
    requires { IsOpen limit walk.old }
    ensures { IfOk result (λ _. (ws : List Word) → Moves limit (get nat_eq known.now) (takes word.now ws) walk.old walk.new) }
{
    // Rattle learns from these locals where the types are declared that words hold.
    let label = Label::Number(0);
    let _field = Field { label, atom: 0 };
    let _act = Act::RaiseInitial(0);
    let made = word_number(walk, limit, known, word)?;
    make(walk, limit, &made)?;
    follow(walk, limit, known, after(word))
}

/// The bodies of so many functions begin, behind their heads.
fn begin_bodies(walk: &mut Walk, limit: usize, functions: usize) -> Result<(), NoMemory>
    requires { IsOpen limit walk.old }
    ensures { IfOk result (λ _. (known : ℕ → Option ℕ) → Moves limit known (begins functions) walk.old walk.new) }
{
    match walk.next.checked_add(functions) {
        Some(next) => {
            walk.next = next;
            enter_bodies(walk, limit, functions)
        }
        None => Err(NoMemory),
    }
}

/// A list ends.
fn close(walk: &mut Walk, limit: usize, known: &IndexMap<usize, usize>) -> Result<(), NoMemory>
    requires { IsOpen limit walk.old }
    ensures { IfOk result (λ _. Moves limit (get nat_eq known.now) closes walk.old walk.new) }
{
    let bound = walk.names.len();
    match leave(walk, limit) {
        Some(part) => match part.around {
            Around::Arms => finish(walk, limit, known),
            Around::Let(copy, ty) => finish_let(walk, limit, known, copy, ty),
            Around::Heads(functions, _) => {
                if part.mark < bound {
                    return Err(NoMemory);
                }
                begin_bodies(walk, limit, functions)
            }
            _ => Err(NoMemory),
        },
        None => Err(NoMemory),
    }
}

fn put_end(walk: &mut Walk, limit: usize, known: &IndexMap<usize, usize>) -> Result<(), NoMemory>
    requires { IsOpen limit walk.old }
    ensures { IfOk result (λ _. (ws : List Word) → Moves limit (get nat_eq known.now) (takes word.End ws) walk.old walk.new) }
{
    make(walk, limit, &Word::End)?;
    close(walk, limit, known)
}

/// One of so many functions that are still to come.
fn add_head(
    walk: &mut Walk,
    limit: usize,
    known: &IndexMap<usize, usize>,
    ty: usize,
    functions: usize,
    left: usize,
) -> Result<(), NoMemory>
    requires { IsOpen limit walk.old }
    ensures { IfOk result (λ _. Moves limit (get nat_eq known.now) (heads_one ty functions left) walk.old walk.new) }
{
    if left == 0 {
        return Err(NoMemory);
    }
    let ty = type_number(known, ty)?;
    match walk.next.checked_add(left - 1) {
        Some(variable) => {
            make(walk, limit, &Word::Function { variable, ty })?;
            enter(walk, limit, Around::Heads(functions, left - 1))
        }
        None => Err(NoMemory),
    }
}

/// The variable and the type of a function of a group.
fn put_head(
    walk: &mut Walk,
    limit: usize,
    known: &IndexMap<usize, usize>,
    variable: usize,
    ty: usize,
) -> Result<(), NoMemory>
    requires { IsOpen limit walk.old }
    ensures { IfOk result (λ _. (ws : List Word) → Moves limit (get nat_eq known.now) (takes (word.Function variable ty) ws) walk.old walk.new) }
{
    let bound = walk.names.len();
    match leave(walk, limit) {
        Some(part) => match part.around {
            Around::Heads(functions, left) => {
                if part.mark < bound {
                    return Err(NoMemory);
                }
                add_head(walk, limit, known, ty, functions, left)
            }
            _ => Err(NoMemory),
        },
        None => Err(NoMemory),
    }
}

/// How many functions come first, from a word on.
fn count_heads(words: &[Word], from: usize) -> usize
    ensures { AreHeads (drop from words.now) result }
{
    let mut count: usize = 0;
    for i in from..words.len() {
        match words[i] {
            Word::Function { variable: _, ty: _ } => count += 1,
            _ => return count,
        }
    }
    count
}

/// The function that a word says, if it says one.
fn head_at(words: &[Word], at: usize) -> Option<Parameter>
    ensures { IfSome result (λ head. drop at words.now ≡ word.Function head.variable head.ty ∷ drop (at + 1) words.now) }
{
    if at >= words.len() {
        return None;
    }
    match words[at] {
        Word::Function { variable, ty } => Some(Parameter { variable, ty }),
        _ => None,
    }
}

/// A function gets its number: that of the last one of its group is the next one, and the first has the greatest.
fn bind_head(
    walk: &mut Walk,
    limit: usize,
    words: &[Word],
    at: usize,
    behind: usize,
) -> Result<(), NoMemory>
    requires { IsOpen limit walk.old }
    ensures { IfOk result (λ _. BindsHead limit words.now at behind walk.old walk.new) }
{
    match head_at(words, at) {
        Some(head) => match walk.next.checked_add(behind) {
            Some(number) => bind_number(walk, limit, head.variable, number),
            None => Err(NoMemory),
        },
        None => Err(NoMemory),
    }
}

/// The functions of a group get their numbers, from the last to the first.
fn bind_heads(
    walk: &mut Walk,
    limit: usize,
    words: &[Word],
    from: usize,
    count: usize,
) -> Result<(), NoMemory>
    requires is_open { IsOpen limit walk.old }
    requires heads { AreHeads (drop from words.now) count }
    ensures { IfOk result (λ _. BindsHeads limit (drop from words.now) count walk.old walk.new) }
{
    let mut left = count;
    while left > 0 {
        left -= 1;
        match from.checked_add(left) {
            Some(at) => bind_head(walk, limit, words, at, count - 1 - left)?,
            None => return Err(NoMemory),
        }
    }
    Ok(())
}

/// A group, whose words follow.
fn put_group(walk: &mut Walk, limit: usize, words: &[Word], from: usize) -> Result<(), NoMemory>
    requires { IsOpen limit walk.old }
    ensures { IfOk result (λ _. (known : ℕ → Option ℕ) → Moves limit known (takes word.Group (drop from words.now)) walk.old walk.new) }
{
    make(walk, limit, &Word::Group)?;
    let count = count_heads(words, from);
    bind_heads(walk, limit, words, from, count)?;
    enter(walk, limit, Around::Heads(count, count))
}

/// A word, before those that follow.
fn put_word(
    walk: &mut Walk,
    limit: usize,
    known: &IndexMap<usize, usize>,
    words: &[Word],
    at: usize,
) -> Result<(), NoMemory>
    requires is_open { IsOpen limit walk.old }
    requires within { at < length words.now }
    ensures { IfOk result (λ _. (w : Word) → slice_get words.now at ≡ Some w → Moves limit (get nat_eq known.now) (takes w (drop (at + 1) words.now)) walk.old walk.new) }
{
    let word = &words[at];
    match word {
        Word::Let { variable, ty } => enter(walk, limit, Around::Let(*variable, *ty)),
        Word::Function { variable, ty } => put_head(walk, limit, known, *variable, *ty),
        Word::Group => put_group(walk, limit, words, at + 1),
        Word::End => put_end(walk, limit, known),
        _ => put_plain(walk, limit, known, word),
    }
}

/// The words of copies, in the order of the text, with numbers for the copies and for their types. Err for want of memory or of numbers, or where a copy or a
/// type has none.
pub fn number_words(
    alloc: Global,
    words: &[Word],
    limit: usize,
    known: &IndexMap<usize, usize>,
) -> Result<Vec<Word>, NoMemory>
    ensures { IfOk result (λ numbered. (types : List table.Row) (index : Typ → ℕ) (strings : Texts) (H : Held) → AreNumbers limit (get nat_eq known.now) H index
        → made.signs_of types strings numbered.items ≡ along types index (map (sign_of strings H) words.now) (at none_given 0 [])) }
{
    let mut walk = Walk {
        names: Scoped::new(alloc),
        next: 0,
        frames: Vec::new(alloc),
        made: Vec::new(alloc),
    };
    for i in 0..words.len() {
        put_word(&mut walk, limit, known, words, i)?;
    }
    let Walk {
        names: _,
        next: _,
        frames: _,
        made,
    } = walk;
    Ok(made)
}
