// Laws of simple types, as contracts.

ghost use Rattle.ir_mono.specs.Growing.{TypesArePushed, TypesStay, ConstructorsAreAdded};
ghost use Rattle.ir_mono.specs.Laws.{NeverWrong, AllBound, EqualityAnswers};

/// A well formed program goes wrong at no number of turns, misses included, and names no variable that isn't bound around.
pub fn well_formed_programs_never_go_wrong()
    ensures never_wrong { NeverWrong }
    ensures bound { AllBound }
{}

/// Two values of a type that admits equality are equal or not.
pub fn equality_answers()
    ensures { EqualityAnswers }
{}

/// A table stays one where it is given a type that isn't there yet, which has the next number, or a datatype in it a constructor.
pub fn tables_grow()
    ensures pushed { TypesArePushed }
    ensures stay { TypesStay }
    ensures constructors { ConstructorsAreAdded }
{}
