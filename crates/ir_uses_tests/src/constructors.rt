// Constants, constructors, and the table of a program's constructors.

use ir_known::ask::BOOL;
use ir_known::stack::Stack;
use ir_tables::tables::{Constant, Tables};
use ir_uses::constructor::{
    CONS, FALSE, LIST, NIL, TRUE, has_constructor, is_alone, is_constructor_use,
};
use ir_uses::literal::has_literal;
use ir_uses::table::is_table;
use mlc_base::memory::NoMemory;
use std::alloc::Global;
use tests_given::given::*;
use ty_core::name::{Equality, TyName};

#[derive(Clone, Copy)]
enum Ask {
    /// Whether a constant has a type.
    Constant(Constant, usize),
    /// Whether a type has a constructor with an argument of a type.
    With(usize, usize, Option<usize>),
    /// Whether a constructor of a type is a value of another.
    Alone(usize, usize, usize),
    /// Whether the constructor `SWAP` of a datatype, at two types, is a function from a pair of a string and an integer.
    At(TyName, usize, usize),
}

const ASKED: [(Ask, bool); 30] = [
    (Ask::Constant(Constant::Int(7), INT), true),
    (Ask::Constant(Constant::Int(7), STRING), false),
    (Ask::Constant(Constant::Text(3), STRING), true),
    (Ask::Constant(Constant::Word(7), INT), false),
    (Ask::Constant(Constant::Char(7), usize::MAX), false),
    (Ask::With(TRUE, TRUTH, None), true),
    (Ask::With(FALSE, TRUTH, None), true),
    (Ask::With(NIL, TRUTH, None), false),
    (Ask::With(NIL, INT_LIST, None), true),
    (Ask::With(NIL, INT_LIST, Some(CELL)), false),
    (Ask::With(CONS, INT_LIST, Some(CELL)), true),
    (Ask::With(CONS, INT_LIST, Some(INTS)), false),
    (Ask::With(CONS, INT_LIST, None), false),
    (Ask::With(BOX, THING, Some(INT)), true),
    (Ask::With(BOX, THING, Some(STRING)), false),
    (Ask::With(BOX, INT_LIST, Some(INT)), false),
    (Ask::With(SWAP, INT_STRING, Some(STRING_INT)), true),
    (Ask::With(SWAP, INT_STRING, Some(INTS)), false),
    (Ask::With(203, INT_STRING, Some(STRING_INT)), false),
    (Ask::Alone(CONS, INT_LIST, CELL_TO_INT_LIST), true),
    (Ask::Alone(NIL, INT_LIST, INT_LIST), true),
    (Ask::Alone(NIL, INT_LIST, CELL_TO_INT_LIST), false),
    (Ask::Alone(BOX, THING, INT_TO_THING), true),
    (Ask::Alone(DOT, THING, THING), true),
    (Ask::Alone(DOT, THING, INT_TO_THING), false),
    (Ask::Alone(SWAP, INT_STRING, STRING_INT_TO_INT_STRING), true),
    (Ask::At(SWAPS, INT, STRING), true),
    (Ask::At(SWAPS, STRING, INT), false),
    // a parameter that isn't in scope
    (Ask::At(SWAPS, INT, A), false),
    (Ask::At(LIST, INT, STRING), false),
];

fn answer(alloc: Global, tables: &Tables, ask: Ask) -> Result<bool, NoMemory> {
    match ask {
        Ask::Constant(constant, ty) => Ok(has_literal(&tables.types, constant, ty)),
        Ask::With(constructor, ty, argument) => {
            has_constructor(alloc, tables, constructor, ty, argument)
        }
        Ask::Alone(constructor, of, ty) => is_alone(alloc, tables, constructor, of, ty),
        Ask::At(datatype, first, second) => is_constructor_use(
            alloc,
            tables,
            &Stack::new(alloc),
            SWAP,
            datatype,
            &[first, second],
            STRING_INT_TO_INT_STRING,
        ),
    }
}

/// The first question with another answer.
pub fn wrong(alloc: Global, tables: &Tables) -> Result<Option<usize>, NoMemory> {
    for i in 0..ASKED.len() {
        let (ask, wanted) = ASKED[i];
        let said = answer(alloc, tables, ask)?;
        if said != wanted {
            return Ok(Some(i));
        }
    }
    Ok(None)
}

/// A datatype of one parameter.
const BY_ARGUMENTS: TyName = TyName {
    stamp: 30,
    arity: 1,
    equality: Equality::ByArguments,
};

const ALWAYS: TyName = TyName {
    stamp: 30,
    arity: 1,
    equality: Equality::Always,
};

const NEVER: TyName = TyName {
    stamp: 30,
    arity: 1,
    equality: Equality::Never,
};

/// A datatype and the type of its constructor's argument: whether a program may declare it.
const DECLARED: [(TyName, Option<usize>, bool); 8] = [
    (BY_ARGUMENTS, None, true),
    (BY_ARGUMENTS, Some(A), true),
    (BY_ARGUMENTS, Some(B), false),
    (BY_ARGUMENTS, Some(INT_TO_INT), false),
    (NEVER, Some(INT_TO_INT), true),
    (NEVER, Some(B), false),
    (ALWAYS, None, false),
    (BOOL, None, false),
];

fn may_declare(alloc: Global, datatype: TyName, argument: Option<usize>) -> Result<bool, NoMemory> {
    let mut tables = make_tables(alloc, 7)?;
    put_constructor(&mut tables, datatype, 300, argument)?;
    Ok(is_table(&tables))
}

/// The first datatype of which something else is said.
pub fn wrong_datatype(alloc: Global) -> Result<Option<usize>, NoMemory> {
    for i in 0..DECLARED.len() {
        let (datatype, argument, wanted) = DECLARED[i];
        let said = may_declare(alloc, datatype, argument)?;
        if said != wanted {
            return Ok(Some(i));
        }
    }
    Ok(None)
}
