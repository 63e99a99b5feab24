// The tree. What comes one after the other is one list of steps, so that nothing recurses along it: bindings, turns, tries whose misses go on, and tests one of
// whose ways goes on.

use first_tables::operation::{Callee, Operands, Piece, Plain, Test};
use mlc_base::place::Place;
use mlc_prims::basis::BasisPrimitive;

/// What gives a value and holds no expression.
#[derive(Drop)]
pub enum Operation {
    Plain(Plain, Vec<usize>),
    /// A cell with a tag, of these pieces.
    Make(usize, Vec<Piece>),
    /// A primitive that may raise.
    Attempt(Operands, BasisPrimitive, Vec<usize>),
    /// Takes a turn at its place.
    Call(Place, Callee, Vec<usize>),
    Raise(usize),
}

/// An expression: steps and what comes of them, a variable, the arm of a cell's tag, or a miss.
#[derive(Drop)]
#[cycle(tree)]
pub enum Exp {
    Steps(Vec<Step>, Box<Exp>),
    Ret(usize),
    Switch(usize, Vec<Arm>),
    Miss,
}

/// What stands before the rest of an expression.
#[derive(Drop)]
#[cycle(tree)]
pub enum Step {
    Let(usize, Operation),
    /// Binds the value of an expression that doesn't miss.
    Block(usize, Box<Exp>),
    Handle {
        variable: usize,
        body: Box<Exp>,
        packet: usize,
        handler: Box<Exp>,
    },
    Turn(Place),
    /// The rest is tried where this misses.
    Try(Box<Exp>),
    /// The rest is where the test holds; this, where it doesn't.
    When(Test, Vec<usize>, Box<Exp>),
    /// The rest is where the test doesn't hold; this, where it does.
    Unless(Test, Vec<usize>, Box<Exp>),
    /// The rest is the first arm of a switch, with this tag; the others stand here.
    Case {
        cell: usize,
        tag: usize,
        others: Vec<Arm>,
    },
}

#[derive(Drop)]
#[cycle(tree)]
pub struct Arm {
    pub tag: usize,
    pub body: Exp,
}

#[derive(Drop)]
pub struct Fun {
    pub params: Vec<usize>,
    pub body: Exp,
}
