// A program that is read back from its words.
ghost use Rattle.std.specs.Prelude.{◌≡◌, [], ℕ, List, IfOk};
ghost use Rattle.ir_mono.specs.Types as table;
ghost use Rattle.ir_mono.specs.Mono.{Mono};
ghost use Rattle.mono_bound.specs.Reads.{mono_of};
ghost use Rattle.mono_read.specs.Words.{spell};
ghost use Rattle.mono_read.specs.Reads.{Texts, signs_of, Puts};

use crate::lists::{put_argument, put_field, put_head};
use crate::parts::{
    put_act, put_arm, put_block, put_first, put_fn, put_group, put_handle, put_last, put_packet,
    put_parameter, put_switch,
};
use crate::stack::{Item, push, push_step, take_exp};
use mlc_base::memory::NoMemory;
use mono_state::word::Word;
use plain_tree::tree::{Binding, Exp, Step};
use std::alloc::Global;

/// A word in front of those so far.
fn put_word(alloc: Global, stack: &mut Vec<Item>, word: &Word) -> Result<(), NoMemory>
    ensures { IfOk result (λ _. Puts word.now stack.old.items stack.new.items) }
{
    match word {
        Word::Ret(atom) => push(stack, Item::Exp(Vec::new(alloc), Exp::Ret(*atom))),
        Word::Miss => push(stack, Item::Exp(Vec::new(alloc), Exp::Miss)),
        Word::First => put_first(alloc, stack),
        Word::Counted(nodes) => push_step(alloc, stack, Step::Counted(*nodes)),
        Word::Switch { atom, ty } => put_switch(alloc, stack, *atom, *ty),
        Word::Arm(case) => put_arm(alloc, stack, *case),
        Word::Exception {
            variable,
            identifier,
            argument,
        } => push_step(
            alloc,
            stack,
            Step::Exception {
                variable: *variable,
                identifier: *identifier,
                argument: *argument,
            },
        ),
        Word::Name(variable, exception) => {
            push_step(alloc, stack, Step::Name(*variable, *exception))
        }
        Word::Group => put_group(alloc, stack),
        Word::Function { variable, ty } => put_head(alloc, stack, *variable, *ty),
        Word::Let { variable, ty } => push(
            stack,
            Item::Binding(Binding {
                variable: *variable,
                parameters: 0,
                ty: *ty,
            }),
        ),
        Word::Act(act) => put_act(alloc, stack, act),
        Word::Fn => put_fn(alloc, stack),
        Word::Parameter(new) => put_parameter(stack, *new),
        Word::Last(last) => put_last(alloc, stack, *last),
        Word::Block => put_block(alloc, stack),
        Word::Handle => put_handle(alloc, stack),
        Word::Packet(packet) => put_packet(alloc, stack, *packet),
        Word::Field(field) => put_field(alloc, stack, *field),
        Word::Argument(atom) => put_argument(alloc, stack, *atom),
        Word::End => push(stack, Item::End),
    }
}

/// The tree that is spelled by words, in which a binding stands behind its operation. Err for want of memory, or where the words spell none.
pub fn read(alloc: Global, words: &[Word]) -> Result<Exp, NoMemory>
    ensures { IfOk result (λ made. (types : List table.Row) (strings : Texts) (e : Mono types)
        → signs_of types strings words.now ≡ spell e [] → mono_of types strings made ≡ e) }
{
    let mut stack = Vec::new(alloc);
    let mut left = words.len();
    while left > 0 {
        left -= 1;
        let word = &words[left];
        put_word(alloc, &mut stack, word)?;
    }
    take_exp(alloc, &mut stack)
}
