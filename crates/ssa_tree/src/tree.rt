// The tree. What comes one after the other is one list of steps, so that nothing recurses along it: bindings, turns, labels whose block is the rest, and tests
// one of whose ways goes on.

use first_tables::operation::{Callee, Operands, Piece, Plain, Test};
use mlc_base::place::Place;
use mlc_prims::basis::BasisPrimitive;

/// What runs up to the end of a function.
#[derive(Drop)]
#[cycle(tree)]
pub enum Body {
    Steps(Vec<Step>, Box<Body>),
    /// The body runs under the handler, with one label, which leaves the handler for this one.
    Guard {
        label: usize,
        body: Box<Body>,
        packet: usize,
        handler: Box<Body>,
    },
    /// The arm of a cell's tag, or the last.
    Switch(usize, Vec<Arm>, Box<Body>),
    Goto(usize, Vec<usize>),
    /// The same, with a turn at its place.
    Jump(Place, usize, Vec<usize>),
    Tail(Place, Callee, Vec<usize>),
    Ret(usize),
    Raise(usize),
}

/// What stands before the rest of a body.
#[derive(Drop)]
#[cycle(tree)]
pub enum Step {
    Plain(Plain, Vec<usize>, usize),
    /// A cell with a tag, of these pieces.
    Make(usize, Vec<Piece>, usize),
    Call(Place, Callee, Vec<usize>, usize),
    /// The rest goes on with the value; this, with the packet that is raised.
    Attempt(Operands, BasisPrimitive, Vec<usize>, usize, Box<Body>),
    Turn(Place),
    /// This runs, and the label in it is the rest, with these parameters.
    Label(Vec<usize>, Box<Body>),
    /// The same, and the label is also in the rest.
    Again(Vec<usize>, Box<Body>),
    /// The rest is where the test holds; this, where it doesn't.
    When(Test, Vec<usize>, Box<Body>),
    /// The rest is where the test doesn't hold; this, where it does.
    Unless(Test, Vec<usize>, Box<Body>),
    /// The rest is the first arm of a switch, with this tag; the others and the last stand here.
    Case {
        cell: usize,
        tag: usize,
        others: Vec<Arm>,
        last: Box<Body>,
    },
}

#[derive(Drop)]
#[cycle(tree)]
pub struct Arm {
    pub tag: usize,
    pub body: Body,
}

#[derive(Drop)]
pub struct Fun {
    pub params: Vec<usize>,
    pub body: Body,
}
