// Small programs, each with what its check says.

use initial_names::initial;
use ir_tables::tables::Constant;
use mlc_base::make::{both, boxed, one, two, with};
use mlc_base::memory::NoMemory;
use mlc_names::names::Name;
use mlc_runs::pass::{Check, Form};
use mono_form::program::Program;
use mono_operations::tables::Tables;
use mono_types::types::Types;
use plain_tree::tree::{Binding, Exp, Operation, Parameter, Step};
use std::alloc::Global;
use std::test::Fail;
use ty_core::name::{Equality, TyName};
use ty_core::ty::Head;

const BOOL: TyName = TyName {
    stamp: 6,
    arity: 0,
    equality: Equality::ByArguments,
};

/// A datatype of a program.
const TREE: TyName = TyName {
    stamp: 20,
    arity: 0,
    equality: Equality::Never,
};

/// The numbers of the constructors of truth values.
const TRUE: usize = 11;

const FALSE: usize = 12;

/// The numbers of types, in the order in which they are placed.
const BOOL_TYPE: usize = 1;

const INT: usize = 2;

const EXN: usize = 3;

const FUNCTION: usize = 4;

/// The type that is placed behind these.
const NEXT: usize = 5;

fn enter(types: &mut Types, constructor: usize) -> Result<(), NoMemory> {
    if BOOL_TYPE < types.len() {
        types.enter(BOOL_TYPE, constructor, None)?;
    }
    Ok(())
}

fn place(
    alloc: Global,
    types: &mut Types,
    head: Head,
    parts: &[usize],
    equality: bool,
) -> Result<(), NoMemory> {
    let kept = Vec::from_slice(alloc, parts)?;
    let _ = types.place(alloc, head, kept, equality)?;
    Ok(())
}

/// Unit, truth values, integers, exceptions, and functions from integers to integers.
fn all_types(alloc: Global) -> Result<Types, NoMemory> {
    let mut types = Types::new(alloc);
    place(alloc, &mut types, Head::Record(Vec::new(alloc)), &[], true)?;
    place(alloc, &mut types, Head::Named(BOOL), &[], true)?;
    enter(&mut types, TRUE)?;
    enter(&mut types, FALSE)?;
    place(alloc, &mut types, Head::Named(TyName::INT), &[], true)?;
    place(alloc, &mut types, Head::Named(TyName::EXN), &[], false)?;
    place(alloc, &mut types, Head::Function, &[INT, INT], false)?;
    Ok(types)
}

/// The first so many names of exceptions of the basis.
fn first_names(alloc: Global, count: usize) -> Result<Vec<Name>, NoMemory> {
    let mut names = initial(alloc)?;
    names.truncate(count);
    Ok(names)
}

fn tables(alloc: Global, count: usize) -> Result<Tables, NoMemory> {
    let (types, initial) = both(all_types(alloc), first_names(alloc, count))?;
    Ok(Tables {
        types,
        initial,
        strings: Vec::new(alloc),
        exn: EXN,
    })
}

/// What the check says of a program with so many exceptions of the basis.
fn answer(alloc: Global, count: usize, body: Exp) -> Check {
    answer_with(alloc, tables(alloc, count), body)
}

fn answer_with(alloc: Global, tables: Result<Tables, NoMemory>, body: Exp) -> Check {
    match with(body, tables) {
        Ok((body, tables)) => {
            let program = Program {
                tables,
                expansion: 1,
                body,
            };
            program.check(alloc)
        }
        Err(_) => Check::Memory,
    }
}

fn binding(variable: usize, ty: usize) -> Binding {
    Binding {
        variable,
        parameters: 0,
        ty,
    }
}

fn integer(variable: usize, ty: usize) -> Step {
    Step::Let(binding(variable, ty), Operation::Constant(Constant::Int(1)))
}

/// Steps before an atom.
fn ends(alloc: Global, steps: Result<Vec<Step>, NoMemory>, atom: usize) -> Result<Exp, NoMemory> {
    let (steps, rest) = both(steps, boxed(alloc, Exp::Ret(atom)))?;
    Ok(Exp::Steps(steps, rest))
}

fn parameter(variable: usize) -> Parameter {
    Parameter { variable, ty: INT }
}

/// The variable 1 is a function of the parameter 2, which gives an atom.
fn function(alloc: Global, atom: usize) -> Result<Step, NoMemory> {
    let last = parameter(2);
    let body = boxed(alloc, Exp::Ret(atom))?;
    Ok(Step::Fn {
        binding: binding(1, FUNCTION),
        parameters: Vec::new(alloc),
        last,
        body,
    })
}

fn with_function(alloc: Global, atom: usize) -> Result<Exp, NoMemory> {
    let made = function(alloc, atom)?;
    ends(alloc, two(alloc, integer(0, INT), made), 0)
}

#[test]
fn a_constant_is_a_program(rt: HostRuntime) -> Result<(), Fail> {
    let alloc = rt.alloc();
    let body = ends(alloc, one(alloc, integer(0, INT)), 0)?;
    assert_eq!(rt; answer(alloc, 7, body), Check::Yes);
    Ok(())
}

#[test]
fn there_are_seven_exceptions(rt: HostRuntime) -> Result<(), Fail> {
    let alloc = rt.alloc();
    let body = ends(alloc, one(alloc, integer(0, INT)), 0)?;
    assert_eq!(rt; answer(alloc, 6, body), Check::No);
    Ok(())
}

#[test]
fn a_constant_is_of_its_type(rt: HostRuntime) -> Result<(), Fail> {
    let alloc = rt.alloc();
    let body = ends(alloc, one(alloc, integer(0, EXN)), 0)?;
    assert_eq!(rt; answer(alloc, 7, body), Check::No);
    Ok(())
}

#[test]
fn a_variable_is_bound_once(rt: HostRuntime) -> Result<(), Fail> {
    let alloc = rt.alloc();
    let body = ends(alloc, two(alloc, integer(0, INT), integer(0, INT)), 0)?;
    assert_eq!(rt; answer(alloc, 7, body), Check::No);
    Ok(())
}

#[test]
fn a_function_gives_its_parameter(rt: HostRuntime) -> Result<(), Fail> {
    let alloc = rt.alloc();
    let body = with_function(alloc, 2)?;
    assert_eq!(rt; answer(alloc, 7, body), Check::Yes);
    Ok(())
}

#[test]
fn an_atom_is_of_its_own_function(rt: HostRuntime) -> Result<(), Fail> {
    let alloc = rt.alloc();
    let body = with_function(alloc, 0)?;
    assert_eq!(rt; answer(alloc, 7, body), Check::No);
    Ok(())
}

/// The variable 1 is a function of the parameter 2, and 3 one inside it, of the parameter 4.
fn inner_function(alloc: Global, atom: usize) -> Result<Exp, NoMemory> {
    let inner_body = boxed(alloc, Exp::Ret(atom))?;
    let inner = Step::Fn {
        binding: binding(3, FUNCTION),
        parameters: Vec::new(alloc),
        last: parameter(4),
        body: inner_body,
    };
    let outer_body = boxed(alloc, ends(alloc, one(alloc, inner), 2)?)?;
    let outer = Step::Fn {
        binding: binding(1, FUNCTION),
        parameters: Vec::new(alloc),
        last: parameter(2),
        body: outer_body,
    };
    ends(alloc, two(alloc, integer(0, INT), outer), 0)
}

#[test]
fn a_function_stands_in_a_function(rt: HostRuntime) -> Result<(), Fail> {
    let alloc = rt.alloc();
    let body = inner_function(alloc, 4)?;
    assert_eq!(rt; answer(alloc, 7, body), Check::Yes);
    Ok(())
}

#[test]
fn a_parameter_is_of_its_own_function(rt: HostRuntime) -> Result<(), Fail> {
    let alloc = rt.alloc();
    let body = inner_function(alloc, 2)?;
    assert_eq!(rt; answer(alloc, 7, body), Check::No);
    Ok(())
}

#[test]
fn a_parameter_is_bound_once(rt: HostRuntime) -> Result<(), Fail> {
    let alloc = rt.alloc();
    let made = function(alloc, 2)?;
    let body = ends(alloc, two(alloc, integer(2, INT), made), 2)?;
    assert_eq!(rt; answer(alloc, 7, body), Check::No);
    Ok(())
}

#[test]
fn no_miss_gets_out(rt: HostRuntime) -> Result<(), Fail> {
    let alloc = rt.alloc();
    assert_eq!(rt; answer(alloc, 7, Exp::Miss), Check::No);
    Ok(())
}

/// One more type, of a part of this number.
fn with_part(alloc: Global, part: usize) -> Result<Tables, NoMemory> {
    let mut made = tables(alloc, 7)?;
    place(
        alloc,
        &mut made.types,
        Head::Named(TyName::REF),
        &[part],
        false,
    )?;
    Ok(made)
}

/// One more type, a datatype with a constructor of an argument of this type.
fn with_argument(alloc: Global, argument: usize) -> Result<Tables, NoMemory> {
    let mut made = tables(alloc, 7)?;
    place(alloc, &mut made.types, Head::Named(TREE), &[], false)?;
    if NEXT < made.types.len() {
        made.types.enter(NEXT, 30, Some(argument))?;
    }
    Ok(made)
}

fn constant(alloc: Global) -> Result<Exp, NoMemory> {
    ends(alloc, one(alloc, integer(0, INT)), 0)
}

#[test]
fn a_part_is_a_type_of_the_table(rt: HostRuntime) -> Result<(), Fail> {
    let alloc = rt.alloc();
    let body = constant(alloc)?;
    assert_eq!(rt;
        answer_with(alloc, with_part(alloc, FUNCTION), body),
        Check::Yes
    );
    Ok(())
}

#[test]
fn no_part_is_in_no_table(rt: HostRuntime) -> Result<(), Fail> {
    let alloc = rt.alloc();
    let body = constant(alloc)?;
    assert_eq!(rt;
        answer_with(alloc, with_part(alloc, NEXT + 1), body),
        Check::No
    );
    Ok(())
}

#[test]
fn an_argument_is_a_type_of_the_table(rt: HostRuntime) -> Result<(), Fail> {
    let alloc = rt.alloc();
    let body = constant(alloc)?;
    assert_eq!(rt;
        answer_with(alloc, with_argument(alloc, NEXT), body),
        Check::Yes
    );
    Ok(())
}

#[test]
fn no_argument_is_in_no_table(rt: HostRuntime) -> Result<(), Fail> {
    let alloc = rt.alloc();
    let body = constant(alloc)?;
    assert_eq!(rt;
        answer_with(alloc, with_argument(alloc, NEXT + 1), body),
        Check::No
    );
    Ok(())
}
