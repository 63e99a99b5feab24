// The shapes that the code of primitives has.

use mlc_prims::prim::PrimExn;

/// A row of the machine with a result and two operands.
#[derive(Clone, Copy)]
pub enum Operation {
    Add,
    Sub,
    Mul,
    IDiv,
    IMod,
    IQuot,
    IRem,
    WAdd,
    WSub,
    WMul,
    WDiv,
    WMod,
    And,
    Or,
    Xor,
    Shl,
    Shr,
    Sar,
    ILt,
    ULt,
    Eq,
    SCmp,
    /// Less, signed, with the operands the other way round.
    SwappedILt,
    SwappedULt,
    SwappedSCmp,
}

/// What the code of a primitive is.
#[derive(Clone, Copy)]
pub enum Shape {
    Nothing,
    Total(Operation),
    Partial(Operation),
    Moved,
    FromWord(u32, Operation),
    Negated,
    Limited(PrimExn, u32),
    Loaded,
    Contrary(Operation),
    Divided(Operation),
    Magnitude,
    Against(u32, Operation, Operation),
    ByteOf,
    PartOf,
    JoinOf,
    TextOfOne,
    TextOfInt,
}

/// What the code of a test is.
#[derive(Clone, Copy)]
pub enum TestShape {
    Nothing,
    Holds(Operation),
    Fails(Operation),
    AreSame,
}
