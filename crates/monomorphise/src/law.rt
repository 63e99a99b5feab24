// Laws of copies, as contracts.

ghost use Rattle.monomorphise.specs.Copies.{Target};
ghost use Rattle.monomorphise.specs.Laws.{CopiesDoTheSame, CopiesAreWellFormed, CopiesKeepTheMeaning, NeitherGoesWrong};
ghost use Rattle.monomorphise.specs.Simple.{TypesArePushed, ConstructorsAreAdded};
ghost use Rattle.monomorphise.specs.Laws.{MakesCopies, MakesWellFormed, KeepsTheMeaning, IsNeverWrong, NumbersRise, NumbersWeigh, IsMade, IsCounted, IsRefused};

/// What copies are written in.
pub trait Copies {
    ghost target: { Target };
}

/// A program does what any copies of it do, unless they go wrong.
pub fn copies_do_the_same<C: Copies>()
    ensures same { CopiesDoTheSame C.target }
{}

/// Copies of a well formed program in simple types are well formed, and do the same at every number of turns.
pub fn copies_keep()
    ensures well_formed { CopiesAreWellFormed }
    ensures same { CopiesKeepTheMeaning }
    ensures never_wrong { NeitherGoesWrong }
{}

/// The function makes copies of a well formed program, in simple types: a well formed program, which does the same at every number of turns.
pub fn monomorphise_keeps()
    ensures copies { MakesCopies }
    ensures well_formed { MakesWellFormed }
    ensures same { KeepsTheMeaning }
    ensures never_wrong { IsNeverWrong }
    ensures rising { NumbersRise }
    ensures weight { NumbersWeigh }
{}

/// The whole function gives what it makes with the program's count, which is at most 2^20; it gives nothing where there is more, as soon as there is.
pub fn expansion_is_counted()
    ensures made { IsMade }
    ensures counted { IsCounted }
    ensures refused { IsRefused }
{}

/// A table of a program stays one where it is given a type with its parts there, or a constructor with the argument that it has in the program.
pub fn tables_grow()
    ensures pushed { TypesArePushed }
    ensures constructors { ConstructorsAreAdded }
{}
