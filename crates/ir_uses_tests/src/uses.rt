// Uses of variables at types, marks, and exceptions.

use ir_known::known::Known;
use ir_known::params::declare_all;
use ir_known::stack::Stack;
use ir_tables::tables::Tables;
use ir_uses::allow::is_allowed;
use ir_uses::exception::{is_exception, is_exception_value, is_initial, same_argument};
use ir_uses::using::{
    are_allowed, are_over, is_instance, is_option_over, is_own_use, is_variable_use, use_fits,
};
use mlc_base::make::one;
use mlc_base::memory::NoMemory;
use std::alloc::Global;
use tests_given::given::*;
use ty_core::mark::{Class, Mark};

/// An identity that is generalised over a parameter that admits equality.
const GENERAL: Option<Known> = Some(Known::General {
    parameters: EQUAL,
    ty: A_TO_A,
});

pub const PACKER: Option<Known> = Some(Known::Exception(Some(INT)));

pub const INTEGER: Option<Known> = Some(Known::OfType(INT));

const OWN: Option<Known> = Some(Known::Own(INT_TO_INT));

const TEXTS: Mark = Mark::Class(Class {
    int: false,
    word: false,
    char: true,
    string: true,
});

#[derive(Clone, Copy)]
enum Ask {
    /// Whether a variable, of which this is known, may be used so at a type, if one is there.
    Fits(Option<Known>, Option<usize>, usize),
    /// The same, of no exception and no function of its own group.
    Plain(Option<Known>, Option<usize>, usize),
    /// Whether it is a function of its own group and may be used so.
    Own(Option<Known>, usize),
    /// Whether a parameter that admits equality may stand for a type, if one is there.
    Allows(Option<usize>),
    /// Whether a type is the identity's at a type.
    Instance(Option<usize>, usize),
    /// Whether a mark allows a type.
    Marked(Mark, usize),
    /// Whether types are over the parameters in scope.
    Over(usize, usize),
    OptionOver(Option<usize>),
    /// Whether an exception with this argument is known.
    Exception(Option<Known>, Option<usize>),
    /// Whether an exception with this argument is a value of a type.
    Packs(Option<usize>, usize),
    SameArgument(Option<usize>, Option<usize>),
    Initial(usize),
}

/// Where no parameter is in scope.
const ALONE: [(Ask, bool); 41] = [
    (Ask::Fits(GENERAL, Some(INT), INT_TO_INT), true),
    (Ask::Fits(GENERAL, Some(STRING), INT_TO_INT), false),
    (Ask::Fits(GENERAL, None, INT_TO_INT), false),
    (Ask::Fits(GENERAL, Some(INT_TO_INT), TRANSFORMER), false),
    (Ask::Fits(GENERAL, Some(A), A_TO_A), false),
    (Ask::Fits(None, None, INT), false),
    (Ask::Fits(INTEGER, None, INT), true),
    (Ask::Fits(INTEGER, Some(INT), INT), false),
    (Ask::Fits(OWN, None, INT_TO_INT), true),
    (Ask::Fits(PACKER, None, INT_TO_EXN), true),
    (Ask::Fits(PACKER, None, EXN), false),
    (Ask::Plain(GENERAL, Some(INT), INT_TO_INT), true),
    (Ask::Plain(GENERAL, None, INT_TO_INT), false),
    (Ask::Plain(INTEGER, None, INT), true),
    (Ask::Plain(OWN, None, INT_TO_INT), false),
    (Ask::Plain(PACKER, None, INT_TO_EXN), false),
    (Ask::Own(OWN, INT_TO_INT), true),
    (Ask::Own(OWN, A_TO_A), false),
    (Ask::Own(INTEGER, INT), false),
    (Ask::Allows(Some(INT)), true),
    (Ask::Allows(Some(INT_TO_INT)), false),
    (Ask::Allows(None), false),
    (Ask::Instance(Some(INT), INT_TO_INT), true),
    (Ask::Instance(Some(STRING), INT_TO_INT), false),
    (Ask::Instance(Some(INT_TO_INT), TRANSFORMER), false),
    (Ask::Instance(Some(A), A_TO_A), false),
    (Ask::Instance(None, INT_TO_INT), false),
    (Ask::OptionOver(None), true),
    (Ask::OptionOver(Some(A)), false),
    (Ask::Exception(Some(Known::Exception(None)), None), true),
    (Ask::Exception(PACKER, None), false),
    (Ask::Exception(PACKER, Some(INT)), true),
    (Ask::Exception(PACKER, Some(STRING)), false),
    (Ask::Exception(Some(Known::OfType(EXN)), None), false),
    (Ask::Packs(None, EXN), true),
    (Ask::Packs(Some(INT), INT_TO_EXN), true),
    (Ask::Packs(Some(STRING), INT_TO_EXN), false),
    (Ask::SameArgument(Some(INT), Some(INT)), true),
    (Ask::SameArgument(None, Some(INT)), false),
    (Ask::Initial(6), true),
    (Ask::Initial(7), false),
];

/// Where the variable 0 is a parameter that admits equality.
const INSIDE: [(Ask, bool); 10] = [
    (Ask::Marked(Mark::Any, INT_TO_INT), true),
    (Ask::Marked(Mark::Equality, A), true),
    (Ask::Marked(Mark::Equality, B), false),
    (Ask::Marked(Mark::Equality, INT_TO_INT), false),
    (Ask::Marked(TEXTS, STRING), true),
    (Ask::Marked(TEXTS, INT), false),
    (Ask::Over(INT, A), true),
    (Ask::Over(A, B), false),
    (Ask::OptionOver(Some(A)), true),
    (Ask::Fits(GENERAL, Some(A), A_TO_A), true),
];

/// The type, if there is one.
fn listed(alloc: Global, at: Option<usize>) -> Result<Vec<usize>, NoMemory> {
    match at {
        Some(ty) => one(alloc, ty),
        None => Ok(Vec::new(alloc)),
    }
}

fn fits(
    alloc: Global,
    tables: &Tables,
    scope: &Stack<Mark>,
    known: Option<Known>,
    at: Option<usize>,
    ty: usize,
) -> Result<bool, NoMemory> {
    let types = listed(alloc, at)?;
    use_fits(alloc, tables, scope, known, &types, ty)
}

fn is_plain(
    alloc: Global,
    tables: &Tables,
    scope: &Stack<Mark>,
    known: Option<Known>,
    at: Option<usize>,
    ty: usize,
) -> Result<bool, NoMemory> {
    let types = listed(alloc, at)?;
    is_variable_use(alloc, tables, scope, known, &types, ty)
}

fn allows(
    alloc: Global,
    tables: &Tables,
    scope: &Stack<Mark>,
    at: Option<usize>,
) -> Result<bool, NoMemory> {
    let types = listed(alloc, at)?;
    are_allowed(
        alloc,
        &tables.types,
        scope,
        tables.parameters(EQUAL),
        &types,
    )
}

fn is_identity(
    alloc: Global,
    tables: &Tables,
    scope: &Stack<Mark>,
    at: Option<usize>,
    ty: usize,
) -> Result<bool, NoMemory> {
    let types = listed(alloc, at)?;
    let parameters = tables.parameters(EQUAL);
    is_instance(alloc, &tables.types, scope, parameters, &types, A_TO_A, ty)
}

fn answer(alloc: Global, tables: &Tables, scope: &Stack<Mark>, ask: Ask) -> Result<bool, NoMemory> {
    let types = &tables.types;
    match ask {
        Ask::Fits(known, at, ty) => fits(alloc, tables, scope, known, at, ty),
        Ask::Plain(known, at, ty) => is_plain(alloc, tables, scope, known, at, ty),
        Ask::Own(known, ty) => Ok(is_own_use(tables, known, ty)),
        Ask::Allows(at) => allows(alloc, tables, scope, at),
        Ask::Instance(at, ty) => is_identity(alloc, tables, scope, at, ty),
        Ask::Marked(mark, ty) => is_allowed(alloc, types, scope, mark, ty),
        Ask::Over(first, second) => are_over(alloc, types, scope, &[first, second]),
        Ask::OptionOver(ty) => is_option_over(alloc, types, scope, ty),
        Ask::Exception(known, argument) => Ok(is_exception(types, known, argument)),
        Ask::Packs(argument, ty) => Ok(is_exception_value(types, argument, ty)),
        Ask::SameArgument(argument, other) => Ok(same_argument(types, argument, other)),
        Ask::Initial(number) => Ok(is_initial(number)),
    }
}

/// The first question with another answer.
fn wrong(
    alloc: Global,
    tables: &Tables,
    scope: &Stack<Mark>,
    asked: &[(Ask, bool)],
) -> Result<Option<usize>, NoMemory> {
    for i in 0..asked.len() {
        let (ask, wanted) = asked[i];
        let said = answer(alloc, tables, scope, ask)?;
        if said != wanted {
            return Ok(Some(i));
        }
    }
    Ok(None)
}

/// The first question with another answer, where no parameter is in scope.
pub fn wrong_alone(alloc: Global, tables: &Tables) -> Result<Option<usize>, NoMemory> {
    let scope: Stack<Mark> = Stack::new(alloc);
    wrong(alloc, tables, &scope, &ALONE)
}

/// The same where the variable 0 is one.
pub fn wrong_inside(alloc: Global, tables: &Tables) -> Result<Option<usize>, NoMemory> {
    let mut scope: Stack<Mark> = Stack::new(alloc);
    let _ = declare_all(&mut scope, tables.parameters(EQUAL))?;
    wrong(alloc, tables, &scope, &INSIDE)
}

/// Whether a parameter can be declared, and not again.
pub fn is_declared_once(alloc: Global, tables: &Tables) -> Result<bool, NoMemory> {
    let mut scope: Stack<Mark> = Stack::new(alloc);
    let new = declare_all(&mut scope, tables.parameters(EQUAL))?;
    let again = declare_all(&mut scope, tables.parameters(ANY))?;
    Ok((new, again, scope.len()) == (true, false, 1))
}
