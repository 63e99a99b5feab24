// The walk along words, which moves on behind each.
ghost use Rattle.std.specs.Prelude.{◌≡◌, ◌<◌, ◌≤◌, ◌+◌, nat_eq, ℕ, List, [], map, drop, length, slice_get, Some, false, IfOk};
ghost use Rattle.indexmap.specs.IndexMap.{get};
ghost use Rattle.ir_tables.specs.Rows.{constructors_at};
ghost use Rattle.mono_state.specs.Seen.{sign_of};
ghost use Rattle.monomorphise.specs.Table.{enter_all};
ghost use Rattle.mono_enter.specs.Entering.{Knows, HaveNumbers};
ghost use Rattle.mono_enter.specs.Scanning.{around, scan};
ghost use Rattle.mono_enter.specs.Walked.{Texts, held, turn_of, turn_of_act, HaveNoHeads, HeadsPushed, Turns, MovesOn};

use crate::walk::{Stand, Tables, want_word};
use indexmap::IndexMap;
use mlc_base::memory::NoMemory;
use mono_state::word::{Act, Word};
use mono_types::types::Types;
use std::alloc::Global;

/// How a walk moves on behind a word.
#[derive(Clone, Copy)]
pub enum Turn {
    /// Into a list, with the type of its arms.
    Into(Option<usize>),
    /// Into a group, whose functions follow.
    Group,
    /// Out of a list.
    Out,
    /// To the parameters of a function by itself.
    Function,
    /// Into a function, where other parameters may follow.
    Body(bool),
    On,
}

fn turn_of_act(act: &Act) -> Turn
    ensures { result ≡ turn_of_act act.now }
{
    match act {
        Act::Record(_) => Turn::Into(None),
        Act::Perform {
            place: _,
            primitive: _,
            ty: _,
        } => Turn::Into(None),
        _ => Turn::On,
    }
}

/// How a walk moves on behind a word.
fn turn_of(word: &Word) -> Turn
    ensures { result ≡ turn_of word.now }
{
    match word {
        Word::Switch { atom: _, ty } => Turn::Into(Some(*ty)),
        Word::Group => Turn::Group,
        Word::Act(act) => turn_of_act(act),
        Word::Fn => Turn::Function,
        Word::Parameter(_) => Turn::Body(true),
        Word::Last(_) => Turn::Body(false),
        Word::End => Turn::Out,
        _ => Turn::On,
    }
}

/// Where the functions end that come first from a word on.
fn heads_end(words: &[Word], from: usize) -> usize
    requires { from ≤ length words.now }
    ensures behind { from ≤ result }
    ensures within { result ≤ length words.now }
    ensures none { HaveNoHeads (drop result words.now) }
{
    for i in from..words.len() {
        match words[i] {
            Word::Function { variable: _, ty: _ } => {}
            _ => return i,
        }
    }
    words.len()
}

/// The types of the functions that come first from a word on, that of the first one last.
fn push_heads(stand: &mut Stand, words: &[Word], from: usize) -> Result<(), NoMemory>
    requires { from ≤ length words.now }
    ensures { IfOk result (λ _. HeadsPushed (drop from words.now) stand.old stand.new) }
{
    let mut at = heads_end(words, from);
    while at > from {
        at -= 1;
        match words[at] {
            Word::Function { variable: _, ty } => stand.functions.push(ty)?,
            _ => return Err(NoMemory),
        }
    }
    Ok(())
}

/// Into a list.
fn go_in(stand: &mut Stand, switch: Option<usize>) -> Result<(), NoMemory>
    ensures { IfOk result (λ _. (ws : List Word) → Turns (Turn.Into switch) ws stand.old stand.new) }
{
    stand.lists.push(switch)?;
    stand.begun = false;
    Ok(())
}

/// Into a group, whose functions are the words from one on.
fn go_in_group(stand: &mut Stand, words: &[Word], from: usize) -> Result<(), NoMemory>
    requires { from ≤ length words.now }
    ensures { IfOk result (λ _. Turns Turn.Group (drop from words.now) stand.old stand.new) }
{
    push_heads(stand, words, from)?;
    stand.lists.push(None)?;
    stand.begun = false;
    Ok(())
}

/// Out of a list.
fn go_out(stand: &mut Stand)
    ensures { (ws : List Word) → Turns Turn.Out ws stand.old stand.new }
{
    stand.lists.pop();
    stand.begun = false;
}

/// Behind a parameter, with which a function's body begins unless it has.
fn go_on_in(stand: &mut Stand, others: bool)
    ensures { (ws : List Word) → Turns (Turn.Body others) ws stand.old stand.new }
{
    if !stand.begun {
        stand.functions.pop();
    }
    stand.begun = others;
}

/// Behind a word, whose turn this is.
fn take_turn(stand: &mut Stand, words: &[Word], from: usize, turn: Turn) -> Result<(), NoMemory>
    requires { from ≤ length words.now }
    ensures { IfOk result (λ _. Turns turn (drop from words.now) stand.old stand.new) }
{
    match turn {
        Turn::Into(switch) => go_in(stand, switch)?,
        Turn::Group => go_in_group(stand, words, from)?,
        Turn::Out => go_out(stand),
        Turn::Function => stand.begun = true,
        Turn::Body(others) => go_on_in(stand, others),
        Turn::On => stand.begun = false,
    }
    Ok(())
}

/// Behind a word.
fn move_on(stand: &mut Stand, words: &[Word], at: usize) -> Result<(), NoMemory>
    requires { at < length words.now }
    ensures { IfOk result (λ _. (w : Word) → slice_get words.now at ≡ Some w → MovesOn w (drop (at + 1) words.now) stand.old stand.new) }
{
    take_turn(stand, words, at + 1, turn_of(&words[at]))
}

/// What all words of copies want, in the order of the text.
pub fn enter_words(
    alloc: Global,
    tables: &Tables,
    known: &mut IndexMap<usize, usize>,
    types: &mut Types,
    words: &[Word],
) -> Result<(), NoMemory>
    requires { Knows tables.now.closed.now (get nat_eq known.old) types.old }
    ensures entered { IfOk result (λ _. (strings : Texts) (lists : List (List ℕ)) (copies : List (ℕ × ℕ))
        → enter_all (constructors_at tables.now.sources.now tables.now.constructors.now) types.old
        (scan (map (sign_of strings (held tables.now.closed.now lists copies)) words.now) (around [] [] false)) ≡ types.new) }
    ensures right { IfOk result (λ _. Knows tables.now.closed.now (get nat_eq known.new) types.new) }
    ensures numbers { IfOk result (λ _. HaveNumbers tables.now.closed.now (get nat_eq known.new) types.new) }
{
    let mut stand = Stand {
        lists: Vec::new(alloc),
        functions: Vec::new(alloc),
        begun: false,
    };
    for at in 0..words.len() {
        want_word(alloc, tables, known, types, &stand, &words[at])?;
        move_on(&mut stand, words, at)?;
    }
    Ok(())
}
