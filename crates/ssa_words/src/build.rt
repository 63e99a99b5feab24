// Trees from words.

use crate::words::{Action, Given, Kind, Op};
use first_tables::operation::Plain;
use first_tables::tables::{Shape, Tables};
use mlc_base::memory::NoMemory;
use mlc_base::place::Place;
use mlc_names::names::Name;
use ssa_tree::tree::{Arm, Body, Fun, Step};
use std::alloc::Global;

const HERE: Place = Place { file: 0, byte: 0 };

fn plain(action: Action) -> Plain {
    match action {
        Action::Same => Plain::Same,
        Action::Is(constant) => Plain::Constant(constant),
        Action::Field(number) => Plain::Field(number),
        Action::Refer => Plain::Refer,
        Action::Content => Plain::Content,
        Action::Assign => Plain::Assign,
        Action::Exception(number) => {
            let number = u32::from(number);
            if number < 119 {
                Plain::Exception(Name::standard(number))
            } else {
                Plain::Same
            }
        }
        Action::Initial(number) => Plain::Initial(number),
        Action::Pack => Plain::Pack,
        Action::Argument => Plain::Argument,
        Action::Compute(kind, primitive) => Plain::Compute(kind, primitive),
        Action::Equal(number) => Plain::Equal(number),
        Action::Print => Plain::Print,
    }
}

/// Steps of bodies that are begun, bodies that are done, and functions.
#[derive(Drop)]
struct Builder {
    open: Vec<Vec<Step>>,
    done: Vec<Body>,
    funs: Vec<Fun>,
}

fn copied(alloc: Global, numbers: &[usize]) -> Result<Vec<usize>, NoMemory> {
    Ok(Vec::from_slice(alloc, numbers)?)
}

impl Builder {
    fn take(&mut self) -> Body {
        match self.done.pop() {
            Some(body) => body,
            None => Body::Ret(0),
        }
    }

    fn taken(&mut self, alloc: Global) -> Result<Box<Body>, NoMemory> {
        let body = self.take();
        Ok(Box::new(alloc, body)?)
    }

    fn push(&mut self, alloc: Global, step: Step) -> Result<(), NoMemory> {
        let mut steps = match self.open.pop() {
            Some(steps) => steps,
            None => Vec::new(alloc),
        };
        steps.push(step)?;
        self.open.push(steps)?;
        Ok(())
    }

    fn finish(&mut self, alloc: Global, end: Body) -> Result<(), NoMemory> {
        let steps = match self.open.pop() {
            Some(steps) => steps,
            None => Vec::new(alloc),
        };
        let end = Box::new(alloc, end)?;
        self.done.push(Body::Steps(steps, end))?;
        Ok(())
    }

    fn arms(&mut self, alloc: Global, tags: &[usize]) -> Result<Vec<Arm>, NoMemory> {
        let mut arms = Vec::new(alloc);
        let mut left = tags.len();
        while left > 0 {
            left -= 1;
            let body = self.take();
            arms.push(Arm {
                tag: tags[left],
                body,
            })?;
        }
        arms.reverse();
        Ok(arms)
    }

    fn case(
        &mut self,
        alloc: Global,
        cell: usize,
        tag: usize,
        tags: &[usize],
    ) -> Result<Step, NoMemory> {
        let last = self.taken(alloc)?;
        let others = self.arms(alloc, tags)?;
        Ok(Step::Case {
            cell,
            tag,
            others,
            last,
        })
    }

    /// A step, from its word.
    fn step(&mut self, alloc: Global, op: Op) -> Result<Step, NoMemory> {
        let xs = copied(alloc, op.numbers())?;
        Ok(match op {
            Op::Do(action, _, x) => Step::Plain(plain(action), xs, x),
            Op::Make(tag, pieces, x) => Step::Make(tag, Vec::from_slice(alloc, pieces)?, x),
            Op::Call(callee, _, x) => Step::Call(HERE, callee, xs, x),
            Op::Attempt(kind, primitive, _, x) => {
                Step::Attempt(kind, primitive, xs, x, self.taken(alloc)?)
            }
            Op::Label(_) => Step::Label(xs, self.taken(alloc)?),
            Op::Again(_) => Step::Again(xs, self.taken(alloc)?),
            Op::When(test, _) => Step::When(test, xs, self.taken(alloc)?),
            Op::Unless(test, _) => Step::Unless(test, xs, self.taken(alloc)?),
            Op::Case(cell, tag, tags) => self.case(alloc, cell, tag, tags)?,
            _ => Step::Turn(HERE),
        })
    }

    fn guard(&mut self, alloc: Global, label: usize, packet: usize) -> Result<Body, NoMemory> {
        let handler = self.taken(alloc)?;
        let body = self.taken(alloc)?;
        Ok(Body::Guard {
            label,
            body,
            packet,
            handler,
        })
    }

    fn switch(&mut self, alloc: Global, cell: usize, tags: &[usize]) -> Result<Body, NoMemory> {
        let last = self.taken(alloc)?;
        let arms = self.arms(alloc, tags)?;
        Ok(Body::Switch(cell, arms, last))
    }

    /// What ends a body, from its word.
    fn end(&mut self, alloc: Global, op: Op) -> Result<Body, NoMemory> {
        let xs = copied(alloc, op.numbers())?;
        Ok(match op {
            Op::Raise(x) => Body::Raise(x),
            Op::Goto(label, _) => Body::Goto(label, xs),
            Op::Jump(label, _) => Body::Jump(HERE, label, xs),
            Op::Tail(callee, _) => Body::Tail(HERE, callee, xs),
            Op::Guard(label, packet) => self.guard(alloc, label, packet)?,
            Op::Switch(cell, tags) => self.switch(alloc, cell, tags)?,
            Op::Ret(x) => Body::Ret(x),
            _ => Body::Ret(0),
        })
    }

    fn fun(&mut self, alloc: Global, params: &[usize]) -> Result<(), NoMemory> {
        let params = copied(alloc, params)?;
        let body = self.take();
        self.funs.push(Fun { params, body })?;
        Ok(())
    }

    fn add(&mut self, alloc: Global, op: Op) -> Result<(), NoMemory> {
        match op {
            Op::Begin => {
                self.open.push(Vec::new(alloc))?;
                Ok(())
            }
            Op::Fun(params) => self.fun(alloc, params),
            Op::Ret(_)
            | Op::Raise(_)
            | Op::Goto(_, _)
            | Op::Jump(_, _)
            | Op::Tail(_, _)
            | Op::Guard(_, _)
            | Op::Switch(_, _) => {
                let end = self.end(alloc, op)?;
                self.finish(alloc, end)
            }
            _ => {
                let step = self.step(alloc, op)?;
                self.push(alloc, step)
            }
        }
    }
}

fn shape(alloc: Global, kind: Kind) -> Result<Shape, NoMemory> {
    match kind {
        Kind::Numbers => Ok(Shape::Numbers),
        Kind::Texts => Ok(Shape::Texts),
        Kind::References => Ok(Shape::References),
        Kind::Cells(tags) => {
            let mut parts = Vec::new(alloc);
            for tag in tags {
                parts.push(copied(alloc, tag)?)?;
            }
            Ok(Shape::Cells(parts))
        }
    }
}

/// The names of the exceptions of the initial basis.
fn first_exceptions(alloc: Global) -> Result<Vec<Name>, NoMemory> {
    let mut initial = Vec::new(alloc);
    for number in 20..27u32 {
        initial.push(Name::standard(number))?;
    }
    Ok(initial)
}

fn texts(alloc: Global, strings: &[&str]) -> Result<Vec<Vec<u8>>, NoMemory> {
    let mut texts = Vec::new(alloc);
    for text in strings {
        texts.push(Vec::from_slice(alloc, text.as_bytes())?)?;
    }
    Ok(texts)
}

/// The tables of a program.
pub fn tables(alloc: Global, given: Given) -> Result<Tables, NoMemory> {
    let mut types = Vec::new(alloc);
    for kind in given.types {
        types.push(shape(alloc, *kind)?)?;
    }
    let mut sets = Vec::new(alloc);
    for set in given.sets {
        sets.push(Vec::from_slice(alloc, set)?)?;
    }
    Ok(Tables {
        initial: first_exceptions(alloc)?,
        strings: texts(alloc, given.strings)?,
        types,
        sets,
    })
}

/// The functions of a program.
pub fn functions(alloc: Global, ops: &[Op]) -> Result<Vec<Fun>, NoMemory> {
    let mut builder = Builder {
        open: Vec::new(alloc),
        done: Vec::new(alloc),
        funs: Vec::new(alloc),
    };
    for op in ops {
        builder.add(alloc, *op)?;
    }
    Ok(builder.funs)
}
