// Programs as words: what holds expressions stands behind them, with its steps before it.

use ir_tables::tables::Constant;
use mlc_base::make::{both, boxed, one, two};
use mlc_base::memory::NoMemory;
use mlc_base::place::Place;
use mlc_names::label::Label;
use mlc_names::names::Name;
use mlc_prims::basis::BasisPrimitive;
use mlc_runs::pass::Check;
use plain_tree::tree::{
    Arm, Binding, Case, Exception, Exp, Field, Function, Operation, Parameter, Step,
};
use std::alloc::Global;
use std::mem;

/// The numbers of the integers' type and of the list that has no parameters, in the tests' tables.
const INT: usize = 0;

const NONE: usize = 0;

/// An operation. Types, variables and constructors are numbers.
#[derive(Clone, Copy)]
pub enum Act {
    Use(usize),
    /// A variable at a type.
    UseAt(usize, usize),
    UseAtTwo(usize, usize, usize),
    Constant(Constant),
    Constructor(usize, usize),
    /// Of a constructor and a type, with an argument.
    Construct(usize, usize, usize),
    Reference(usize),
    Refer(usize, usize),
    Content(usize, usize),
    /// At a type, of an exception and an argument.
    Pack(usize, usize, usize),
    /// A record of a type, with two labels and two atoms.
    Record(usize, (u32, usize), (u32, usize)),
    /// Of a type, a label, of an atom.
    Select(usize, u32, usize),
    Primitive(BasisPrimitive, usize),
    /// At a type, of one atom twice.
    Perform(BasisPrimitive, usize, usize),
    Apply(usize, usize),
    Raise(usize),
    RaiseInitial(usize),
}

#[derive(Clone, Copy)]
pub enum Word {
    /// The next variable is generalised over this list of parameters.
    Over(usize),
    /// The next function has this variable, of this type, for a parameter in front.
    More(usize, usize),
    /// The variable is an integer.
    Int(usize),
    /// A variable and its type.
    Let(usize, usize, Act),
    Exception(usize, Option<usize>),
    Name(usize, Exception),
    Counted(usize),
    /// A variable and its type, of a function of this variable and type; the last expression is its body.
    Fn(usize, usize, usize, usize),
    Block(usize, usize),
    /// The last expression handles those packets of the one before that the last variable holds.
    Handle(usize, usize, usize),
    /// A function of the next group, as `Fn`.
    Member(usize, usize, usize, usize),
    Group(usize),
    /// An arm of the next test or switch, with the last expression.
    Arm(Case),
    Test(usize, usize, Case),
    Ret(usize),
    Miss,
    Switch(usize, usize),
    /// The last expression where the one before misses.
    First,
    /// The steps since the last end, and the last expression.
    End,
    /// What the checker says of the program that ends here.
    Says(Check),
}

pub const YES: Word = Word::Says(Check::Yes);

pub const NO: Word = Word::Says(Check::No);

const PLACE: Place = Place { file: 0, byte: 7 };

/// The operations that hold no list.
fn plain(act: Act) -> Operation {
    match act {
        Act::Constant(constant) => Operation::Constant(constant),
        Act::Constructor(constructor, ty) => Operation::Constructor { constructor, ty },
        Act::Construct(constructor, ty, argument) => Operation::Construct {
            place: None,
            constructor,
            ty,
            argument,
        },
        Act::Reference(ty) => Operation::Reference(ty),
        Act::Refer(ty, argument) => Operation::Refer {
            place: Some(PLACE),
            ty,
            argument,
        },
        Act::Content(ty, reference) => Operation::Content { ty, reference },
        Act::Pack(ty, exception, argument) => Operation::Pack {
            place: None,
            ty,
            exception,
            argument,
        },
        Act::Select(ty, label, record) => Operation::Select {
            ty,
            label: Label::Number(label),
            record,
        },
        Act::Primitive(primitive, ty) => Operation::Primitive(primitive, ty),
        Act::Apply(function, argument) => Operation::Apply {
            place: PLACE,
            function,
            argument,
        },
        Act::Raise(packet) => Operation::Raise(packet),
        Act::RaiseInitial(number) => Operation::RaiseInitial(number),
        _ => Operation::RaiseInitial(0),
    }
}

fn field(part: (u32, usize)) -> Field {
    Field {
        label: Label::Number(part.0),
        atom: part.1,
    }
}

fn operation(alloc: Global, act: Act) -> Result<Operation, NoMemory> {
    match act {
        Act::Use(variable) => Ok(Operation::Use(variable, Vec::new(alloc))),
        Act::UseAt(variable, ty) => Ok(Operation::Use(variable, one(alloc, ty)?)),
        Act::UseAtTwo(variable, first, second) => Ok(Operation::Use(
            variable,
            two(alloc, first, second)?,
        )),
        Act::Record(ty, first, second) => Ok(Operation::Record {
            ty,
            fields: two(alloc, field(first), field(second))?,
        }),
        Act::Perform(primitive, ty, atom) => Ok(Operation::Perform {
            place: None,
            primitive,
            ty,
            arguments: two(alloc, atom, atom)?,
        }),
        _ => Ok(plain(act)),
    }
}

/// What stands before the next word.
#[derive(Drop)]
pub struct Text {
    over: usize,
    parameters: Vec<Parameter>,
    steps: Vec<Step>,
    found: Vec<Exp>,
    arms: Vec<Arm>,
    functions: Vec<Function>,
    /// Whether an expression was asked for where there was none.
    short: bool,
}

impl Text {
    pub fn new(alloc: Global) -> Text {
        Text {
            over: NONE,
            parameters: Vec::new(alloc),
            steps: Vec::new(alloc),
            found: Vec::new(alloc),
            arms: Vec::new(alloc),
            functions: Vec::new(alloc),
            short: false,
        }
    }

    fn more(&mut self, variable: usize, ty: usize) -> Result<(), NoMemory> {
        self.parameters.push(Parameter { variable, ty })?;
        Ok(())
    }

    fn binding(&mut self, variable: usize, ty: usize) -> Binding {
        Binding {
            variable,
            parameters: mem::replace(&mut self.over, NONE),
            ty,
        }
    }

    fn step(&mut self, step: Step) -> Result<(), NoMemory> {
        self.steps.push(step)?;
        Ok(())
    }

    fn exp(&mut self, exp: Exp) -> Result<(), NoMemory> {
        self.found.push(exp)?;
        Ok(())
    }

    fn parts_are_done(&self) -> bool {
        let lists = self.parameters.is_empty() && self.steps.is_empty() && self.arms.is_empty();
        lists && self.functions.is_empty() && self.over == NONE
    }

    /// Whether all parts were taken, and no further ones asked for.
    pub fn is_done(&self) -> bool {
        self.parts_are_done() && self.found.is_empty() && !self.short
    }

    /// The last expression.
    pub fn last(&mut self) -> Exp {
        match self.found.pop() {
            Some(found) => found,
            None => {
                self.short = true;
                Exp::Miss
            }
        }
    }

    fn boxed_last(&mut self, alloc: Global) -> Result<Box<Exp>, NoMemory> {
        boxed(alloc, self.last())
    }

    fn arms(&mut self, alloc: Global) -> Vec<Arm> {
        mem::replace(&mut self.arms, Vec::new(alloc))
    }

    fn put_let(
        &mut self,
        alloc: Global,
        variable: usize,
        ty: usize,
        act: Act,
    ) -> Result<(), NoMemory> {
        let operation = operation(alloc, act)?;
        self.put_operation(variable, ty, operation)
    }

    /// The variable is what an operation gives.
    pub fn put_operation(
        &mut self,
        variable: usize,
        ty: usize,
        operation: Operation,
    ) -> Result<(), NoMemory> {
        let binding = self.binding(variable, ty);
        self.step(Step::Let(binding, operation))
    }

    fn put_fn(
        &mut self,
        alloc: Global,
        variable: usize,
        ty: usize,
        last: Parameter,
    ) -> Result<(), NoMemory> {
        let binding = self.binding(variable, ty);
        let body = self.boxed_last(alloc)?;
        let parameters = mem::replace(&mut self.parameters, Vec::new(alloc));
        self.step(Step::Fn {
            binding,
            parameters,
            last,
            body,
        })
    }

    fn put_block(&mut self, alloc: Global, variable: usize, ty: usize) -> Result<(), NoMemory> {
        let binding = self.binding(variable, ty);
        let body = self.boxed_last(alloc)?;
        self.step(Step::Block(binding, body))
    }

    fn put_handle(
        &mut self,
        alloc: Global,
        variable: usize,
        ty: usize,
        packet: usize,
    ) -> Result<(), NoMemory> {
        let binding = self.binding(variable, ty);
        let handler = self.boxed_last(alloc);
        let body = self.boxed_last(alloc);
        let (handler, body) = both(handler, body)?;
        self.step(Step::Handle {
            binding,
            body,
            packet,
            handler,
        })
    }

    fn put_member(
        &mut self,
        alloc: Global,
        variable: usize,
        ty: usize,
        last: Parameter,
    ) -> Result<(), NoMemory> {
        let parameters = mem::replace(&mut self.parameters, Vec::new(alloc));
        let body = self.last();
        self.functions.push(Function {
            variable,
            ty,
            parameters,
            last,
            body,
        })?;
        Ok(())
    }

    fn put_group(&mut self, alloc: Global, parameters: usize) -> Result<(), NoMemory> {
        let functions = mem::replace(&mut self.functions, Vec::new(alloc));
        self.step(Step::Group(parameters, functions))
    }

    fn put_arm(&mut self, case: Case) -> Result<(), NoMemory> {
        let body = self.last();
        self.arms.push(Arm { case, body })?;
        Ok(())
    }

    fn put_first(&mut self, alloc: Global) -> Result<(), NoMemory> {
        let last = self.boxed_last(alloc);
        let attempts = one(alloc, self.last());
        let (last, attempts) = both(last, attempts)?;
        self.exp(Exp::First(attempts, last))
    }

    fn put_end(&mut self, alloc: Global) -> Result<(), NoMemory> {
        let last = self.boxed_last(alloc)?;
        let steps = mem::replace(&mut self.steps, Vec::new(alloc));
        self.exp(Exp::Steps(steps, last))
    }

    /// A word that makes an expression.
    fn put_exp(&mut self, alloc: Global, word: Word) -> Result<(), NoMemory> {
        match word {
            Word::Ret(atom) => self.exp(Exp::Ret(atom)),
            Word::Miss => self.exp(Exp::Miss),
            Word::Switch(atom, ty) => {
                let arms = self.arms(alloc);
                self.exp(Exp::Switch { atom, ty, arms })
            }
            Word::First => self.put_first(alloc),
            Word::End => self.put_end(alloc),
            _ => Ok(()),
        }
    }

    /// A word that holds expressions.
    fn put_holder(&mut self, alloc: Global, word: Word) -> Result<(), NoMemory> {
        match word {
            Word::Fn(variable, ty, last, of) => self.put_fn(
                alloc,
                variable,
                ty,
                Parameter {
                    variable: last,
                    ty: of,
                },
            ),
            Word::Block(variable, ty) => self.put_block(alloc, variable, ty),
            Word::Handle(variable, ty, packet) => self.put_handle(alloc, variable, ty, packet),
            Word::Member(variable, ty, last, of) => self.put_member(
                alloc,
                variable,
                ty,
                Parameter {
                    variable: last,
                    ty: of,
                },
            ),
            Word::Group(parameters) => self.put_group(alloc, parameters),
            Word::Arm(case) => self.put_arm(case),
            _ => self.put_exp(alloc, word),
        }
    }

    /// The next word.
    pub fn put(&mut self, alloc: Global, word: Word) -> Result<(), NoMemory> {
        match word {
            Word::Over(parameters) => {
                self.over = parameters;
                Ok(())
            }
            Word::More(variable, ty) => self.more(variable, ty),
            Word::Int(variable) => self.put_let(
                alloc,
                variable,
                INT,
                Act::Constant(Constant::Int(7)),
            ),
            Word::Let(variable, ty, act) => self.put_let(alloc, variable, ty, act),
            Word::Exception(variable, argument) => self.step(Step::Exception {
                variable,
                identifier: Name::standard(0),
                argument,
            }),
            Word::Name(variable, exception) => self.step(Step::Name(variable, exception)),
            Word::Counted(more) => self.step(Step::Counted(more)),
            Word::Test(atom, ty, case) => {
                let others = self.arms(alloc);
                self.step(Step::Test {
                    atom,
                    ty,
                    case,
                    others,
                })
            }
            _ => self.put_holder(alloc, word),
        }
    }

    pub fn put_all(&mut self, alloc: Global, words: &[Word]) -> Result<(), NoMemory> {
        for i in 0..words.len() {
            self.put(alloc, words[i])?;
        }
        Ok(())
    }
}
