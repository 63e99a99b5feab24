// Laws of what is put, as contracts.

ghost use Rattle.mono_words.specs.Laws.{StepsAreMade, EndsAreMade, ArmsAreMade, FunctionsAreMade, OperationsAreMade};

/// What a walk from the end of a program to its beginning puts for each construct is the construct's copy.
pub fn copies_are_put()
    ensures steps { StepsAreMade }
    ensures ends { EndsAreMade }
    ensures arms { ArmsAreMade }
    ensures functions { FunctionsAreMade }
    ensures operations { OperationsAreMade }
{}
