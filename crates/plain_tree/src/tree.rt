// The tree: variables, types, lists of parameters and strings are numbers. What the numbers stand for is the form's (a `Reading`).

use ir_tables::tables::Constant;
use mlc_base::place::Place;
use mlc_names::label::Label;
use mlc_names::names::Name;
use mlc_prims::basis::BasisPrimitive;

/// A variable and its type.
#[derive(Clone, Copy)]
pub struct Parameter {
    pub variable: usize,
    pub ty: usize,
}

/// A variable, generalised over a list of parameters, and its type.
#[derive(Clone, Copy)]
pub struct Binding {
    pub variable: usize,
    pub parameters: usize,
    pub ty: usize,
}

/// A field of a record.
#[derive(Clone, Copy)]
pub struct Field {
    pub label: Label,
    pub atom: usize,
}

/// What an arm wants of a value, and the variable that the argument is bound to.
#[derive(Clone, Copy)]
pub enum Case {
    Constant(Constant),
    Constructor(usize),
    ConstructorOf {
        constructor: usize,
        argument: Parameter,
    },
    /// The exception that a variable stands for.
    Exception(usize),
    ExceptionOf {
        exception: usize,
        argument: Parameter,
    },
    /// A record, with so many fields where a number is given.
    Record(Option<usize>),
}

/// An exception of the initial basis, or that of a variable.
#[derive(Clone, Copy)]
pub enum Exception {
    Initial(usize),
    Held(usize),
}

/// What gives a value and holds no expression. A place that may be missing says that a turn is taken, and where.
#[derive(Drop)]
pub enum Operation {
    /// A variable at types.
    Use(usize, Vec<usize>),
    Constant(Constant),
    /// A constructor as a value, of this datatype.
    Constructor {
        constructor: usize,
        ty: usize,
    },
    Construct {
        place: Option<Place>,
        constructor: usize,
        ty: usize,
        argument: usize,
    },
    /// The constructor `ref` as a function, at the type of what is held.
    Reference(usize),
    Refer {
        place: Option<Place>,
        ty: usize,
        argument: usize,
    },
    Content {
        ty: usize,
        reference: usize,
    },
    Pack {
        place: Option<Place>,
        ty: usize,
        exception: usize,
        argument: usize,
    },
    Record {
        ty: usize,
        fields: Vec<Field>,
    },
    /// A field of a record of this type.
    Select {
        ty: usize,
        label: Label,
        record: usize,
    },
    /// A primitive as a function, at a type.
    Primitive(BasisPrimitive, usize),
    Perform {
        place: Option<Place>,
        primitive: BasisPrimitive,
        ty: usize,
        arguments: Vec<usize>,
    },
    Apply {
        place: Place,
        function: usize,
        argument: usize,
    },
    Raise(usize),
    RaiseInitial(usize),
}

/// What comes of steps: an atom, the first arm that fits, the first attempt that doesn't miss, or a miss.
#[derive(Drop)]
#[cycle(tree)]
pub enum Exp {
    Steps(Vec<Step>, Box<Exp>),
    Ret(usize),
    Switch {
        atom: usize,
        ty: usize,
        arms: Vec<Arm>,
    },
    /// Attempts in order, and the last.
    First(Vec<Exp>, Box<Exp>),
    Miss,
}

#[derive(Drop)]
#[cycle(tree)]
pub enum Step {
    Let(Binding, Operation),
    /// A function of some parameters and a last one.
    Fn {
        binding: Binding,
        parameters: Vec<Parameter>,
        last: Parameter,
        body: Box<Exp>,
    },
    Block(Binding, Box<Exp>),
    Handle {
        binding: Binding,
        body: Box<Exp>,
        packet: usize,
        handler: Box<Exp>,
    },
    /// A new exception, with its identifier and the type of its argument.
    Exception {
        variable: usize,
        identifier: Name,
        argument: Option<usize>,
    },
    /// Brings in the name of an exception.
    Name(usize, Exception),
    /// Functions that know each other, generalised over a list of parameters.
    Group(usize, Vec<Function>),
    /// What comes next is the first arm of a switch on the atom of this type, with this case; the others stand here. It misses where none fits.
    Test {
        atom: usize,
        ty: usize,
        case: Case,
        others: Vec<Arm>,
    },
    /// Stands for so many further nodes of the source.
    Counted(usize),
}

#[derive(Drop)]
#[cycle(tree)]
pub struct Arm {
    pub case: Case,
    pub body: Exp,
}

/// A function of a group, with its type.
#[derive(Drop)]
#[cycle(tree)]
pub struct Function {
    pub variable: usize,
    pub ty: usize,
    pub parameters: Vec<Parameter>,
    pub last: Parameter,
    pub body: Exp,
}
