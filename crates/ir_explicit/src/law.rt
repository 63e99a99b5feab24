// Laws of programs with no function by itself, as contracts.

ghost use Rattle.ir_explicit.specs.Laws.{ExplicitNeverWrong, ExplicitSame};

/// A well formed program in which no constructor, `ref`, primitive or exception stands as a function does the same, and never goes wrong, where nothing but
/// closures may be called.
pub fn only_closures_are_called()
    ensures never_wrong { ExplicitNeverWrong }
    ensures same { ExplicitSame }
{}
