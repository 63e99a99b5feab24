// Where a walk along words stands, and its steps.
ghost use Rattle.std.specs.Prelude.{◌≡◌, nat_eq, ℕ, Option, [], IfOk, IfSome, IfNone};
ghost use Rattle.indexmap.specs.IndexMap.{get};
ghost use Rattle.ty_core.specs.Types.{Typ};
ghost use Rattle.ty_table.specs.TypeAt.{type_at};
ghost use Rattle.monomorphise.specs.Number.{number_of};
ghost use Rattle.mono_read.specs.of_mono_state.Seen.{Held, name_in};
ghost use Rattle.mono_number.specs.Moves.{AreNumbers, given_in, IsOpen, Moves, makes, binds, enters, enters_bodies, lets, ends, follows, Leaves, BindsTo};

use indexmap::IndexMap;
use mlc_base::memory::NoMemory;
use mlc_names::label::Label;
use mono_read::mono_state::word::{Act, Word};
use plain_tree::tree::Field;
use scoped_map::scoped::Scoped;

/// What is around a part. A copy stands with its type.
#[derive(Clone, Copy)]
pub enum Around {
    /// What comes where an attempt misses.
    Attempt,
    Arms,
    /// The binding of an operation's value.
    Let(usize, usize),
    /// The handler.
    Handled,
    /// So many functions of a group, of which so many are still to come.
    Heads(usize, usize),
    /// The bodies of so many further functions.
    Bodies(usize),
}

/// What comes after a word that is made.
#[derive(Clone, Copy)]
pub enum After {
    Nothing,
    /// A part ends.
    Ends,
    Enters(Around),
    /// A copy gets the next number.
    Binds(usize),
}

/// What is around, and how many copies have numbers there.
#[derive(Clone, Copy)]
pub struct Part {
    pub around: Around,
    pub mark: usize,
}

/// Copies with their numbers, the next number, what is around, the innermost last, and the words so far.
#[derive(Drop)]
pub struct Walk {
    pub names: Scoped<usize>,
    pub next: usize,
    pub frames: Vec<Part>,
    pub made: Vec<Word>,
}

/// The number of a copy.
pub fn number_at(walk: &Walk, limit: usize, copy: usize) -> Result<usize, NoMemory>
    requires { IsOpen limit walk.now }
    ensures { IfOk result (λ k. (known : ℕ → Option ℕ) (H : Held) (index : Typ → ℕ) → AreNumbers limit known H index
        → number_of (name_in H copy) (given_in H walk.now.names) ≡ k) }
{
    if copy >= limit {
        return Err(NoMemory);
    }
    match walk.names.find(copy) {
        Some(k) => Ok(k),
        None => Ok(0),
    }
}

/// The number of a type.
pub fn type_number(known: &IndexMap<usize, usize>, ty: usize) -> Result<usize, NoMemory>
    ensures { IfOk result (λ n. (limit : ℕ) (H : Held) (index : Typ → ℕ) → AreNumbers limit (get nat_eq known.now) H index
        → index (type_at H.types ty) ≡ n) }
{
    match known.get(&ty) {
        Some(n) => Ok(*n),
        None => Err(NoMemory),
    }
}

/// A word is made.
pub fn make(walk: &mut Walk, limit: usize, word: &Word) -> Result<(), NoMemory>
    requires { IsOpen limit walk.old }
    ensures { IfOk result (λ _. (known : ℕ → Option ℕ) → Moves limit known (makes word.now) walk.old walk.new) }
{
    // Rattle learns from these locals where the types are declared that words hold.
    let label = Label::Number(0);
    let _field = Field { label, atom: 0 };
    let _act = Act::RaiseInitial(0);
    walk.made.push(*word)?;
    Ok(())
}

/// A copy gets the next number.
pub fn bind(walk: &mut Walk, limit: usize, copy: usize) -> Result<(), NoMemory>
    requires { IsOpen limit walk.old }
    ensures { IfOk result (λ _. (known : ℕ → Option ℕ) → Moves limit known (binds copy) walk.old walk.new) }
{
    if copy >= limit {
        return Err(NoMemory);
    }
    if walk.next >= usize::MAX {
        return Err(NoMemory);
    }
    let next = walk.next;
    walk.names.bind(copy, next)?;
    walk.next = next + 1;
    Ok(())
}

/// A copy gets a number.
pub fn bind_number(
    walk: &mut Walk,
    limit: usize,
    copy: usize,
    number: usize,
) -> Result<(), NoMemory>
    requires { IsOpen limit walk.old }
    ensures { IfOk result (λ _. BindsTo limit copy number walk.old walk.new) }
{
    if copy >= limit {
        return Err(NoMemory);
    }
    walk.names.bind(copy, number)
}

/// A part begins.
pub fn enter(walk: &mut Walk, limit: usize, around: Around) -> Result<(), NoMemory>
    requires { IsOpen limit walk.old }
    ensures { IfOk result (λ _. (known : ℕ → Option ℕ) → Moves limit known (enters around) walk.old walk.new) }
{
    let mark = walk.names.len();
    walk.frames.push(Part { around, mark })?;
    Ok(())
}

/// Leaves the innermost part, with what has numbers inside it.
pub fn leave(walk: &mut Walk, limit: usize) -> Option<Part>
    requires { IsOpen limit walk.old }
    ensures left { IfSome result (λ part. Leaves limit part walk.old walk.new) }
    ensures before { IfNone result (walk.old.frames.items ≡ []) }
    ensures after { IfNone result (walk.new.frames.items ≡ []) }
    ensures names { IfNone result (walk.new.names ≡ walk.old.names) }
    ensures next { IfNone result (walk.new.next ≡ walk.old.next) }
    ensures made { IfNone result (walk.new.made ≡ walk.old.made) }
{
    match walk.frames.pop() {
        Some(part) => {
            walk.names.truncate(part.mark);
            Some(part)
        }
        None => None,
    }
}

/// The bodies of so many functions begin, if there are any.
pub fn enter_bodies(walk: &mut Walk, limit: usize, functions: usize) -> Result<(), NoMemory>
    requires { IsOpen limit walk.old }
    ensures { IfOk result (λ _. (known : ℕ → Option ℕ) → Moves limit known (enters_bodies functions) walk.old walk.new) }
{
    if functions == 0 {
        return Ok(());
    }
    enter(walk, limit, Around::Bodies(functions - 1))
}

/// The binding of an operation's value.
pub fn finish_let(
    walk: &mut Walk,
    limit: usize,
    known: &IndexMap<usize, usize>,
    copy: usize,
    ty: usize,
) -> Result<(), NoMemory>
    requires { IsOpen limit walk.old }
    ensures { IfOk result (λ _. Moves limit (get nat_eq known.now) (lets copy ty) walk.old walk.new) }
{
    let ty = type_number(known, ty)?;
    let word = Word::Let {
        variable: walk.next,
        ty,
    };
    make(walk, limit, &word)?;
    bind(walk, limit, copy)
}

/// A part ends.
pub fn finish(walk: &mut Walk, limit: usize, known: &IndexMap<usize, usize>) -> Result<(), NoMemory>
    requires { IsOpen limit walk.old }
    ensures { IfOk result (λ _. Moves limit (get nat_eq known.now) ends walk.old walk.new) }
{
    match leave(walk, limit) {
        Some(part) => match part.around {
            Around::Attempt => Ok(()),
            Around::Arms => enter(walk, limit, Around::Arms),
            Around::Let(copy, ty) => finish_let(walk, limit, known, copy, ty),
            Around::Handled => Ok(()),
            Around::Heads(_, _) => Err(NoMemory),
            Around::Bodies(left) => enter_bodies(walk, limit, left),
        },
        None => {
            walk.names.truncate(0);
            Ok(())
        }
    }
}

/// What comes after a word that is made.
pub fn follow(
    walk: &mut Walk,
    limit: usize,
    known: &IndexMap<usize, usize>,
    after: After,
) -> Result<(), NoMemory>
    requires { IsOpen limit walk.old }
    ensures { IfOk result (λ _. Moves limit (get nat_eq known.now) (follows after) walk.old walk.new) }
{
    match after {
        After::Nothing => Ok(()),
        After::Ends => finish(walk, limit, known),
        After::Enters(around) => enter(walk, limit, around),
        After::Binds(copy) => bind(walk, limit, copy),
    }
}
