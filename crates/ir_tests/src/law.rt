// Laws of the checker's rules, as contracts.

ghost use Rattle.ir_tests.specs.Laws.{FitsIsRight};

/// What fits is what is typed, named where it may be, and bound nowhere twice.
pub fn fits_is_right()
    ensures { FitsIsRight }
{}
