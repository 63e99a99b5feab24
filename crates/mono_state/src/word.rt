// Copies as words, in the order of the text.

use ir_tables::tables::Constant;
use mlc_base::place::Place;
use mlc_names::label::Label;
use mlc_names::names::Name;
use mlc_prims::basis::BasisPrimitive;
use plain_tree::tree::{Case, Exception, Field, Parameter};

/// What holds no expression. Variables are numbers of copies, and types those of closed types.
#[derive(Clone, Copy)]
pub enum Act {
    Use(usize),
    Constant(Constant),
    Constructor {
        constructor: usize,
        ty: usize,
    },
    Construct {
        place: Option<Place>,
        constructor: usize,
        ty: usize,
        argument: usize,
    },
    Reference(usize),
    Refer {
        place: Option<Place>,
        ty: usize,
        argument: usize,
    },
    Content {
        ty: usize,
        reference: usize,
    },
    Pack {
        place: Option<Place>,
        ty: usize,
        exception: usize,
        argument: usize,
    },
    /// Its fields follow, and an end.
    Record(usize),
    Select {
        ty: usize,
        label: Label,
        record: usize,
    },
    Primitive(BasisPrimitive, usize),
    /// Its arguments follow, and an end.
    Perform {
        place: Option<Place>,
        primitive: BasisPrimitive,
        ty: usize,
    },
    Apply {
        place: Place,
        function: usize,
        argument: usize,
    },
    Raise(usize),
    RaiseInitial(usize),
}

/// A word. What is said to follow comes behind it, in this order.
#[derive(Clone, Copy)]
pub enum Word {
    Ret(usize),
    Miss,
    /// The attempt, and what comes where it misses.
    First,
    /// An expression that stands for so many further nodes.
    Counted(usize),
    /// Arms, and an end.
    Switch {
        atom: usize,
        ty: usize,
    },
    /// The arm's expression.
    Arm(Case),
    /// What follows the exception.
    Exception {
        variable: usize,
        identifier: Name,
        argument: Option<usize>,
    },
    /// What follows the name.
    Name(usize, Exception),
    /// Functions and an end; for each its parameters, a last one and its body; and what follows the group.
    Group,
    Function {
        variable: usize,
        ty: usize,
    },
    /// An operation, and what follows the binding.
    Let {
        variable: usize,
        ty: usize,
    },
    Act(Act),
    /// Parameters, a last one, and the body.
    Fn,
    Parameter(Parameter),
    Last(Parameter),
    /// An expression.
    Block,
    /// An expression, the packet, and the handler.
    Handle,
    Packet(usize),
    Field(Field),
    Argument(usize),
    End,
}
