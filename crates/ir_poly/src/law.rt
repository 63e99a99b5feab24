// Laws of the form with explicit instances, as contracts.

ghost use Rattle.ir_poly.specs.Laws.{CheckedIsTyped, CheckedIsTypedUnder, CheckedProgIsTyped, CheckedProgIsTypedUnder, NeverMisses, TypedAsRead, TypedAsWritten};

/// Tests that a checker accepts are typed at all types that parameters may stand for.
pub fn checked_is_typed()
    ensures whole { CheckedIsTyped }
    ensures under { CheckedIsTypedUnder }
{}

/// Tests that a checker accepts where no miss goes on never miss.
pub fn never_misses()
    ensures { NeverMisses }
{}

/// An expression with source matches that a checker accepts has one type: the one that it has written.
pub fn typed_as_written()
    ensures checked { TypedAsWritten }
    ensures read { TypedAsRead }
{}

/// A program with source matches that a checker accepts is typed at all types that parameters may stand for.
pub fn checked_prog_is_typed()
    ensures whole { CheckedProgIsTyped }
    ensures under { CheckedProgIsTypedUnder }
{}
