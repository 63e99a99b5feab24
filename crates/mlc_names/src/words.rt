// The words that every table of names begins with, and the numbers of those that rules name.

/// The standard words, in the order of their numbers.
pub(crate) static STANDARD_WORDS: [&str; 119] = [
    "unit",
    "int",
    "word",
    "char",
    "string",
    "bool",
    "list",
    "ref",
    "exn",
    "option",
    "order",
    "true",
    "false",
    "nil",
    "::",
    "NONE",
    "SOME",
    "LESS",
    "EQUAL",
    "GREATER",
    "Match",
    "Bind",
    "Overflow",
    "Div",
    "Subscript",
    "Size",
    "Chr",
    "Fail",
    "Empty",
    "Option",
    "it",
    "+",
    "-",
    "*",
    "div",
    "mod",
    "~",
    "abs",
    "<",
    "<=",
    ">",
    ">=",
    ":=",
    "/",
    "<>",
    "@",
    "^",
    "o",
    "before",
    "Prim",
    "quot",
    "rem",
    "andb",
    "orb",
    "xorb",
    "notb",
    "shl",
    "shr",
    "sar",
    "toInt",
    "toIntX",
    "fromInt",
    "ord",
    "chr",
    "text",
    "size",
    "sub",
    "part",
    "cat",
    "str",
    "print",
    "Bool",
    "Int",
    "Word",
    "Char",
    "List",
    "String",
    "not",
    "!",
    "ignore",
    "substring",
    "getOpt",
    "isSome",
    "valOf",
    "null",
    "hd",
    "tl",
    "length",
    "rev",
    "map",
    "app",
    "foldl",
    "foldr",
    "concat",
    "explode",
    "implode",
    "toString",
    "min",
    "max",
    "compare",
    "<<",
    ">>",
    "~>>",
    "isDigit",
    "isLower",
    "isUpper",
    "isAlpha",
    "isSpace",
    "toUpper",
    "toLower",
    "revAppend",
    "filter",
    "find",
    "exists",
    "all",
    "nth",
    "tabulate",
    "maxSize",
    "isPrefix",
];

// Type constructors (`ref` is a constructor too).
pub const UNIT: u32 = 0;

pub const INT: u32 = 1;

pub const WORD: u32 = 2;

pub const CHAR: u32 = 3;

pub const STRING: u32 = 4;

pub const BOOL: u32 = 5;

pub const LIST: u32 = 6;

pub const REF: u32 = 7;

pub const EXN: u32 = 8;

pub const OPTION: u32 = 9;

pub const ORDER: u32 = 10;

// Constructors.
pub const TRUE: u32 = 11;

pub const FALSE: u32 = 12;

pub const NIL: u32 = 13;

pub const CONS: u32 = 14;

pub const NONE: u32 = 15;

pub const SOME: u32 = 16;

pub const LESS: u32 = 17;

pub const EQUAL: u32 = 18;

pub const GREATER: u32 = 19;

// Exceptions (`Option` is a structure too).
pub const MATCH: u32 = 20;

pub const BIND: u32 = 21;

pub const OVERFLOW: u32 = 22;

pub const DIV_EXCEPTION: u32 = 23;

pub const SUBSCRIPT: u32 = 24;

pub const SIZE_EXCEPTION: u32 = 25;

pub const CHR_EXCEPTION: u32 = 26;

pub const FAIL: u32 = 27;

pub const EMPTY: u32 = 28;

pub const OPTION_EXCEPTION: u32 = 29;

// What a top-level expression is bound to.
pub const IT: u32 = 30;

// Values of the initial basis.
pub const PLUS: u32 = 31;

pub const MINUS: u32 = 32;

pub const TIMES: u32 = 33;

pub const DIV: u32 = 34;

pub const MOD: u32 = 35;

pub const NEGATE: u32 = 36;

pub const ABS: u32 = 37;

pub const LESS_THAN: u32 = 38;

pub const AT_MOST: u32 = 39;

pub const GREATER_THAN: u32 = 40;

pub const AT_LEAST: u32 = 41;

pub const ASSIGN: u32 = 42;

// The other identifiers with a fixity.
pub const DIVIDE: u32 = 43;

pub const NOT_EQUAL: u32 = 44;

pub const APPEND: u32 = 45;

pub const CONCATENATE: u32 = 46;

pub const COMPOSE: u32 = 47;

pub const BEFORE: u32 = 48;

// The structure of primitives, and its values.
pub const PRIM: u32 = 49;

pub const QUOT: u32 = 50;

pub const REM: u32 = 51;

pub const ANDB: u32 = 52;

pub const ORB: u32 = 53;

pub const XORB: u32 = 54;

pub const NOTB: u32 = 55;

pub const SHL: u32 = 56;

pub const SHR: u32 = 57;

pub const SAR: u32 = 58;

pub const TO_INT: u32 = 59;

pub const TO_INT_X: u32 = 60;

pub const FROM_INT: u32 = 61;

pub const ORD: u32 = 62;

pub const CHR: u32 = 63;

pub const TEXT: u32 = 64;

pub const SIZE: u32 = 65;

pub const SUB: u32 = 66;

pub const PART: u32 = 67;

pub const CAT: u32 = 68;

pub const STR: u32 = 69;

pub const PRINT: u32 = 70;
