// The words of programs.

use first_tables::operation::{Callee, Constant, Operands, Piece, Test};
use first_tables::tables::Member;
use mlc_prims::basis::BasisPrimitive;

/// An operation.
#[derive(Clone, Copy)]
pub enum Action {
    Same,
    Is(Constant),
    Field(usize),
    Refer,
    Content,
    Assign,
    /// A new exception, with the standard word of this number.
    Exception(u8),
    Initial(usize),
    Pack,
    Argument,
    Compute(Operands, BasisPrimitive),
    Equal(usize),
    Print,
}

/// A word of a program. `Begin` begins a body, steps go into the body that was begun last, and what ends a body leaves it for the step or the end that takes it.
#[derive(Clone, Copy)]
pub enum Op {
    Begin,
    Do(Action, &'static [usize], usize),
    Make(usize, &'static [Piece], usize),
    Call(Callee, &'static [usize], usize),
    Attempt(Operands, BasisPrimitive, &'static [usize], usize),
    Turn,
    Label(&'static [usize]),
    Again(&'static [usize]),
    When(Test, &'static [usize]),
    Unless(Test, &'static [usize]),
    /// The rest is the arm of the tag; the others, of these tags, and the last stand before, the last last.
    Case(usize, usize, &'static [usize]),
    Ret(usize),
    Raise(usize),
    Goto(usize, &'static [usize]),
    Jump(usize, &'static [usize]),
    Tail(Callee, &'static [usize]),
    /// The handler stands before, and the body before it.
    Guard(usize, usize),
    Switch(usize, &'static [usize]),
    Fun(&'static [usize]),
}

/// What a program has beside its functions: strings, types by the types of the parts at each tag, and sets of closures.
#[derive(Clone, Copy)]
pub struct Given {
    pub strings: &'static [&'static str],
    pub types: &'static [Kind],
    pub sets: &'static [&'static [Member]],
}

#[derive(Clone, Copy)]
pub enum Kind {
    Numbers,
    Texts,
    References,
    Cells(&'static [&'static [usize]]),
}

impl Op {
    /// The variables that it names, or the tags.
    pub fn numbers(self) -> &'static [usize] {
        match self {
            Op::Do(_, xs, _) => xs,
            Op::Call(_, xs, _) => xs,
            Op::Attempt(_, _, xs, _) => xs,
            Op::Label(xs) => xs,
            Op::Again(xs) => xs,
            Op::When(_, xs) => xs,
            Op::Unless(_, xs) => xs,
            Op::Case(_, _, xs) => xs,
            Op::Goto(_, xs) => xs,
            Op::Jump(_, xs) => xs,
            Op::Tail(_, xs) => xs,
            Op::Switch(_, xs) => xs,
            Op::Fun(xs) => xs,
            _ => &[],
        }
    }
}
