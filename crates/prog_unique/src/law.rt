// Laws of programs whose variables are bound once, as contracts.

ghost use Rattle.prog_unique.specs.Laws.{OnceIsUnique};

/// A program with source matches whose variables are bound once binds none where it is bound already.
pub fn once_is_unique()
    ensures { OnceIsUnique }
{}
