// The law of division, as a contract.

ghost use Rattle.word_arithmetic.specs.Laws.{DivisionIsFloored};

/// The quotient is rounded down, and the remainder has the divisor's sign.
pub fn division_is_floored()
    ensures { DivisionIsFloored }
{}
