// Laws of the checker's decisions, as contracts.

ghost use Rattle.mono_fits.specs.Laws.{FitsIsRight, TypeIsRight};

/// What fits is what is typed, named where it may be, and bound nowhere twice.
pub fn fits_is_right()
    ensures { FitsIsRight }
{}

/// The type that a checker finds is one that the expression has, and it finds none where there is none.
pub fn type_is_right()
    ensures { TypeIsRight }
{}
