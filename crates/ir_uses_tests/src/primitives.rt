// Primitives: their arguments, their results, and their types as values.

use ir_known::stack::Stack;
use ir_tables::tables::Tables;
use ir_uses::primitive::{
    admits_type, gives, is_primitive_use, is_primitive_value, is_value_type, takes,
};
use mlc_base::memory::NoMemory;
use mlc_prims::basis::BasisPrimitive;
use std::alloc::Global;
use tests_given::given::*;
use ty_core::mark::Mark;

/// Of a primitive, with the type of its parameter.
#[derive(Clone, Copy)]
enum Ask {
    /// Whether it takes two arguments of these types.
    Two(usize, usize),
    Three(usize, usize, usize),
    /// Whether its result is of a type.
    Gives(usize),
    /// Whether the parameter may stand for that type.
    Admits,
    /// Whether a type is its own, whatever the parameter may stand for.
    Type(usize),
    /// Whether it is a value of a type.
    Value(usize),
    /// Whether it may be used so, where no parameter is in scope.
    Use(usize),
}

const ASKED: [(BasisPrimitive, usize, Ask, bool); 26] = [
    (BasisPrimitive::Add, INT, Ask::Two(INT, INT), true),
    (BasisPrimitive::Add, INT, Ask::Two(INT, STRING), false),
    (BasisPrimitive::Assign, INT, Ask::Two(INT_REF, INT), true),
    (BasisPrimitive::Negate, INT, Ask::Two(INT, INT), false),
    (
        BasisPrimitive::PartOf,
        UNIT,
        Ask::Three(STRING, INT, INT),
        true,
    ),
    (
        BasisPrimitive::PartOf,
        UNIT,
        Ask::Three(STRING, INT, STRING),
        false,
    ),
    (BasisPrimitive::Add, INT, Ask::Three(INT, INT, INT), false),
    (BasisPrimitive::Assign, INT, Ask::Gives(UNIT), true),
    (BasisPrimitive::Equals, STRING, Ask::Gives(TRUTH), true),
    (BasisPrimitive::Equals, STRING, Ask::Gives(STRING), false),
    (BasisPrimitive::Add, INT, Ask::Gives(INT), true),
    (BasisPrimitive::Add, INT, Ask::Admits, true),
    (BasisPrimitive::Add, STRING, Ask::Admits, false),
    (BasisPrimitive::Equals, INT_TO_INT, Ask::Admits, false),
    (BasisPrimitive::Absolute, A, Ask::Admits, true),
    (BasisPrimitive::Add, INT, Ask::Type(INTS_TO_INT), true),
    (BasisPrimitive::Add, INT, Ask::Type(INT_TO_INT), false),
    (BasisPrimitive::Add, INT, Ask::Value(INTS_TO_INT), true),
    (BasisPrimitive::Add, STRING, Ask::Value(INTS_TO_INT), false),
    (BasisPrimitive::Negate, INT, Ask::Value(INTS_TO_INT), false),
    (BasisPrimitive::Negate, INT, Ask::Value(INT_TO_INT), true),
    (BasisPrimitive::Absolute, A, Ask::Value(INT_TO_INT), true),
    (BasisPrimitive::Add, INT, Ask::Use(INTS_TO_INT), true),
    (BasisPrimitive::Negate, INT, Ask::Use(INTS_TO_INT), false),
    (BasisPrimitive::Absolute, TRUTH, Ask::Use(INT_TO_INT), true),
    (BasisPrimitive::Absolute, A, Ask::Use(INT_TO_INT), false),
];

fn answer(
    alloc: Global,
    tables: &Tables,
    primitive: BasisPrimitive,
    of: usize,
    ask: Ask,
) -> Result<bool, NoMemory> {
    let types = &tables.types;
    let scope: Stack<Mark> = Stack::new(alloc);
    match ask {
        Ask::Two(first, second) => Ok(takes(types, primitive, of, &[first, second])),
        Ask::Three(first, second, third) => {
            Ok(takes(types, primitive, of, &[first, second, third]))
        }
        Ask::Gives(ty) => Ok(gives(types, primitive, of, ty)),
        Ask::Admits => admits_type(alloc, types, &scope, primitive, of),
        Ask::Type(ty) => Ok(is_value_type(types, primitive, of, ty)),
        Ask::Value(ty) => is_primitive_value(alloc, types, &scope, primitive, of, ty),
        Ask::Use(ty) => is_primitive_use(alloc, types, &scope, primitive, &[of], ty),
    }
}

/// The first question with another answer.
pub fn wrong(alloc: Global, tables: &Tables) -> Result<Option<usize>, NoMemory> {
    for i in 0..ASKED.len() {
        let (primitive, of, ask, wanted) = ASKED[i];
        let said = answer(alloc, tables, primitive, of, ask)?;
        if said != wanted {
            return Ok(Some(i));
        }
    }
    Ok(None)
}
