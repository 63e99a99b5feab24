// Nodes made of parts that may want memory.

use mlc_base::make::{both, one};
use mlc_base::memory::NoMemory;
use mlc_base::place::Place;
use prog_tree::tree::{Dec, Exp, Function, Head, Join, Parameter, Pat, PatPart, Rule, Side};
use std::alloc::Global;

pub type Made<T> = Result<T, NoMemory>;

pub const PLACE: Place = Place { file: 0, byte: 7 };

/// One more, if it could be made.
pub fn add<T: Drop>(list: &mut Vec<T>, made: Made<T>) -> Made<()> {
    match made {
        Ok(value) => {
            list.push(value)?;
            Ok(())
        }
        Err(e) => Err(e),
    }
}

// Patterns

pub fn before(head: Head, argument: usize, pat: Made<Box<Pat>>) -> Made<Pat> {
    match pat {
        Ok(pat) => Ok(Pat::Before(head, argument, pat)),
        Err(e) => Err(e),
    }
}

pub fn layered(variable: usize, pat: Made<Box<Pat>>) -> Made<Pat> {
    match pat {
        Ok(pat) => Ok(Pat::As(variable, pat)),
        Err(e) => Err(e),
    }
}

pub fn chain(side: Side, first: Made<Box<Pat>>, parts: Vec<PatPart>) -> Made<Pat> {
    match first {
        Ok(first) => Ok(Pat::Chain(side, first, parts)),
        Err(e) => Err(e),
    }
}

// Expressions

pub fn let_in(ty: usize, declarations: Made<Vec<Dec>>, body: Made<Box<Exp>>) -> Made<Exp> {
    match both(declarations, body) {
        Ok((declarations, body)) => Ok(Exp::Let(ty, declarations, body)),
        Err(e) => Err(e),
    }
}

pub fn apply(function: Made<Box<Exp>>, arguments: Vec<(usize, Exp)>) -> Made<Exp> {
    match function {
        Ok(function) => Ok(Exp::Apply(PLACE, function, arguments)),
        Err(e) => Err(e),
    }
}

pub fn infix(side: Side, first: Made<Box<Exp>>, joins: Vec<(Join, Exp, Exp)>) -> Made<Exp> {
    match first {
        Ok(first) => Ok(Exp::Infix(side, first, joins)),
        Err(e) => Err(e),
    }
}

pub fn case(ty: usize, of: Made<Box<Exp>>, rules: Vec<Rule>) -> Made<Exp> {
    match of {
        Ok(of) => Ok(Exp::Case(PLACE, ty, of, rules)),
        Err(e) => Err(e),
    }
}

pub fn handle(ty: usize, body: Made<Box<Exp>>, rules: Vec<Rule>) -> Made<Exp> {
    match body {
        Ok(body) => Ok(Exp::Handle(ty, body, rules)),
        Err(e) => Err(e),
    }
}

pub fn raise(ty: usize, packet: Made<Box<Exp>>) -> Made<Exp> {
    match packet {
        Ok(packet) => Ok(Exp::Raise(ty, packet)),
        Err(e) => Err(e),
    }
}

pub fn counted(count: usize, ty: usize, body: Made<Box<Exp>>) -> Made<Exp> {
    match body {
        Ok(body) => Ok(Exp::Counted(count, ty, body)),
        Err(e) => Err(e),
    }
}

pub fn sequence(ty: usize, before: Vec<Exp>, last: Made<Box<Exp>>) -> Made<Exp> {
    match last {
        Ok(last) => Ok(Exp::Sequence(PLACE, ty, before, last)),
        Err(e) => Err(e),
    }
}

pub fn test(all: bool, ty: usize, operands: Vec<Exp>, last: Made<Box<Exp>>) -> Made<Exp> {
    match last {
        Ok(last) => Ok(Exp::Test(all, ty, operands, last)),
        Err(e) => Err(e),
    }
}

// Functions and declarations

pub fn named(parameters: Vec<Parameter>, last: Parameter, body: Made<Box<Exp>>) -> Made<Function> {
    match body {
        Ok(body) => Ok(Function::Named(parameters, last, body)),
        Err(e) => Err(e),
    }
}

/// A function that has one variable.
pub fn member(
    alloc: Global,
    variable: usize,
    ty: usize,
    function: Function,
) -> Made<(Vec<usize>, usize, Function)> {
    match one(alloc, variable) {
        Ok(names) => Ok((names, ty, function)),
        Err(e) => Err(e),
    }
}
