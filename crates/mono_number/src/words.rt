// Words that become words, one for one.
ghost use Rattle.std.specs.Prelude.{◌≡◌, nat_eq, ℕ, List, Option, IfOk};
ghost use Rattle.std.specs.Option.{option_map};
ghost use Rattle.indexmap.specs.IndexMap.{get};
ghost use Rattle.ty_core.specs.Types.{Typ};
ghost use Rattle.ir_mono.specs.Types as table;
ghost use Rattle.monomorphise.specs.Number.{number_name, number_case, number_argument, number_op};
ghost use Rattle.plain_tree.specs.TreeOf.{case_of, exception_of};
ghost use Rattle.ty_table.specs.TypeAt.{type_at};
ghost use Rattle.mono_bound.specs.Reads.{reading};
ghost use Rattle.mono_read.specs.of_mono_state.Seen.{Held, copy_reading};
ghost use Rattle.mono_number.specs.Moves.{Texts, AreNumbers, given_in, IsOpen, IsNumbered, case_after, after_of, act_after};
ghost use Rattle.mono_read.specs.of_mono_state.declared.word.Word.TheVariants as word;

use crate::walk::{After, Around, Walk, number_at, type_number};
use indexmap::IndexMap;
use mlc_base::memory::NoMemory;
use mono_read::mono_state::word::{Act, Word};
use plain_tree::tree::{Case, Exception, Field, Parameter};

/// The exception that a name brings in.
fn exception_number(walk: &Walk, limit: usize, exception: Exception) -> Result<Exception, NoMemory>
    requires { IsOpen limit walk.now }
    ensures { IfOk result (λ made. (known : ℕ → Option ℕ) (types : List table.Row) (index : Typ → ℕ) (strings : Texts) (H : Held) → AreNumbers limit known H index
        → number_name types index (given_in H walk.now.names) (exception_of (copy_reading strings H) exception) ≡ exception_of (reading types strings) made) }
{
    match exception {
        Exception::Initial(number) => Ok(Exception::Initial(number)),
        Exception::Held(copy) => {
            let variable = number_at(walk, limit, copy)?;
            Ok(Exception::Held(variable))
        }
    }
}

/// What an arm wants. Its variable is the next one.
fn case_number(
    walk: &Walk,
    limit: usize,
    known: &IndexMap<usize, usize>,
    case: Case,
) -> Result<Case, NoMemory>
    requires { IsOpen limit walk.now }
    ensures { IfOk result (λ made. (types : List table.Row) (index : Typ → ℕ) (strings : Texts) (H : Held) → AreNumbers limit (get nat_eq known.now) H index
        → number_case types index (given_in H walk.now.names) walk.now.next (case_of (copy_reading strings H) case) ≡ case_of (reading types strings) made) }
{
    let variable = walk.next;
    match case {
        Case::Constant(constant) => Ok(Case::Constant(constant)),
        Case::Constructor(constructor) => Ok(Case::Constructor(constructor)),
        Case::ConstructorOf {
            constructor,
            argument,
        } => {
            let ty = type_number(known, argument.ty)?;
            Ok(Case::ConstructorOf {
                constructor,
                argument: Parameter { variable, ty },
            })
        }
        Case::Exception(copy) => {
            let exception = number_at(walk, limit, copy)?;
            Ok(Case::Exception(exception))
        }
        Case::ExceptionOf {
            exception,
            argument,
        } => {
            let exception = number_at(walk, limit, exception)?;
            let ty = type_number(known, argument.ty)?;
            Ok(Case::ExceptionOf {
                exception,
                argument: Parameter { variable, ty },
            })
        }
        Case::Record(size) => Ok(Case::Record(size)),
    }
}

/// The type of an exception's argument, if it has one.
fn argument_number(
    known: &IndexMap<usize, usize>,
    argument: Option<usize>,
) -> Result<Option<usize>, NoMemory>
    ensures { IfOk result (λ made. (limit : ℕ) (types : List table.Row) (index : Typ → ℕ) (H : Held) → AreNumbers limit (get nat_eq known.now) H index
        → number_argument types index (option_map (type_at H.types) argument) ≡ made) }
{
    match argument {
        Some(ty) => {
            let ty = type_number(known, ty)?;
            Ok(Some(ty))
        }
        None => Ok(None),
    }
}

/// An operation.
fn act_number(
    walk: &Walk,
    limit: usize,
    known: &IndexMap<usize, usize>,
    act: &Act,
) -> Result<Act, NoMemory>
    requires { IsOpen limit walk.now }
    ensures { IfOk result (λ made. IsNumbered limit (get nat_eq known.now) walk.now.names walk.now.next (word.Act act.now) (word.Act made)) }
{
    match act {
        Act::Use(copy) => {
            let variable = number_at(walk, limit, *copy)?;
            Ok(Act::Use(variable))
        }
        Act::Constant(constant) => Ok(Act::Constant(*constant)),
        Act::Constructor { constructor, ty } => {
            let ty = type_number(known, *ty)?;
            Ok(Act::Constructor {
                constructor: *constructor,
                ty,
            })
        }
        Act::Construct {
            place,
            constructor,
            ty,
            argument,
        } => {
            let ty = type_number(known, *ty)?;
            let argument = number_at(walk, limit, *argument)?;
            Ok(Act::Construct {
                place: *place,
                constructor: *constructor,
                ty,
                argument,
            })
        }
        Act::Reference(ty) => {
            let ty = type_number(known, *ty)?;
            Ok(Act::Reference(ty))
        }
        Act::Refer {
            place,
            ty,
            argument,
        } => {
            let ty = type_number(known, *ty)?;
            let argument = number_at(walk, limit, *argument)?;
            Ok(Act::Refer {
                place: *place,
                ty,
                argument,
            })
        }
        Act::Content { ty, reference } => {
            let ty = type_number(known, *ty)?;
            let reference = number_at(walk, limit, *reference)?;
            Ok(Act::Content { ty, reference })
        }
        Act::Pack {
            place,
            ty,
            exception,
            argument,
        } => {
            let ty = type_number(known, *ty)?;
            let exception = number_at(walk, limit, *exception)?;
            let argument = number_at(walk, limit, *argument)?;
            Ok(Act::Pack {
                place: *place,
                ty,
                exception,
                argument,
            })
        }
        Act::Record(ty) => {
            let ty = type_number(known, *ty)?;
            Ok(Act::Record(ty))
        }
        Act::Select { ty, label, record } => {
            let ty = type_number(known, *ty)?;
            let record = number_at(walk, limit, *record)?;
            Ok(Act::Select {
                ty,
                label: *label,
                record,
            })
        }
        Act::Primitive(primitive, ty) => {
            let ty = type_number(known, *ty)?;
            Ok(Act::Primitive(*primitive, ty))
        }
        Act::Perform {
            place,
            primitive,
            ty,
        } => {
            let ty = type_number(known, *ty)?;
            Ok(Act::Perform {
                place: *place,
                primitive: *primitive,
                ty,
            })
        }
        Act::Apply {
            place,
            function,
            argument,
        } => {
            let function = number_at(walk, limit, *function)?;
            let argument = number_at(walk, limit, *argument)?;
            Ok(Act::Apply {
                place: *place,
                function,
                argument,
            })
        }
        Act::Raise(packet) => {
            let packet = number_at(walk, limit, *packet)?;
            Ok(Act::Raise(packet))
        }
        Act::RaiseInitial(number) => Ok(Act::RaiseInitial(*number)),
    }
}

/// A word that becomes a word, with the numbers that its copies and types have. Its own variable is the next one.
pub fn word_number(
    walk: &Walk,
    limit: usize,
    known: &IndexMap<usize, usize>,
    word: &Word,
) -> Result<Word, NoMemory>
    requires { IsOpen limit walk.now }
    ensures { IfOk result (λ made. IsNumbered limit (get nat_eq known.now) walk.now.names walk.now.next word.now made) }
{
    let next = walk.next;
    match word {
        Word::Ret(copy) => {
            let variable = number_at(walk, limit, *copy)?;
            Ok(Word::Ret(variable))
        }
        Word::Miss => Ok(Word::Miss),
        Word::First => Ok(Word::First),
        Word::Counted(nodes) => Ok(Word::Counted(*nodes)),
        Word::Switch { atom, ty } => {
            let atom = number_at(walk, limit, *atom)?;
            let ty = type_number(known, *ty)?;
            Ok(Word::Switch { atom, ty })
        }
        Word::Arm(case) => {
            let case = case_number(walk, limit, known, *case)?;
            Ok(Word::Arm(case))
        }
        Word::Exception {
            variable: _,
            identifier,
            argument,
        } => {
            let argument = argument_number(known, *argument)?;
            Ok(Word::Exception {
                variable: next,
                identifier: *identifier,
                argument,
            })
        }
        Word::Name(_, exception) => {
            let exception = exception_number(walk, limit, *exception)?;
            Ok(Word::Name(next, exception))
        }
        Word::Act(act) => {
            let act = act_number(walk, limit, known, act)?;
            Ok(Word::Act(act))
        }
        Word::Fn => Ok(Word::Fn),
        Word::Parameter(parameter) => {
            let ty = type_number(known, parameter.ty)?;
            Ok(Word::Parameter(Parameter { variable: next, ty }))
        }
        Word::Last(parameter) => {
            let ty = type_number(known, parameter.ty)?;
            Ok(Word::Last(Parameter { variable: next, ty }))
        }
        Word::Block => Ok(Word::Block),
        Word::Handle => Ok(Word::Handle),
        Word::Packet(_) => Ok(Word::Packet(next)),
        Word::Field(field) => {
            let atom = number_at(walk, limit, field.atom)?;
            let label = field.label;
            Ok(Word::Field(Field { label, atom }))
        }
        Word::Argument(copy) => {
            let variable = number_at(walk, limit, *copy)?;
            Ok(Word::Argument(variable))
        }
        _ => Err(NoMemory),
    }
}

fn after_case(case: Case) -> After
    ensures { result ≡ case_after case }
{
    match case {
        Case::ConstructorOf {
            constructor: _,
            argument,
        } => After::Binds(argument.variable),
        Case::ExceptionOf {
            exception: _,
            argument,
        } => After::Binds(argument.variable),
        Case::Constant(_) => After::Nothing,
        Case::Constructor(_) => After::Nothing,
        Case::Exception(_) => After::Nothing,
        Case::Record(_) => After::Nothing,
    }
}

fn after_act(act: &Act) -> After
    ensures { result ≡ act_after act.now }
{
    match act {
        Act::Record(_) => After::Nothing,
        Act::Perform {
            place: _,
            primitive: _,
            ty: _,
        } => After::Nothing,
        _ => After::Ends,
    }
}

/// What comes after a word.
pub fn after(word: &Word) -> After
    ensures { result ≡ after_of word.now }
{
    match word {
        Word::Ret(_) => After::Ends,
        Word::Miss => After::Ends,
        Word::First => After::Enters(Around::Attempt),
        Word::Switch { atom: _, ty: _ } => After::Enters(Around::Arms),
        Word::Arm(case) => after_case(*case),
        Word::Exception {
            variable,
            identifier: _,
            argument: _,
        } => After::Binds(*variable),
        Word::Name(variable, _) => After::Binds(*variable),
        Word::Act(act) => after_act(act),
        Word::Parameter(parameter) => After::Binds(parameter.variable),
        Word::Last(parameter) => After::Binds(parameter.variable),
        Word::Handle => After::Enters(Around::Handled),
        Word::Packet(variable) => After::Binds(*variable),
        _ => After::Nothing,
    }
}
