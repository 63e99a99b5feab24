// That the questions of the parts decide the typing of the whole, as contracts.

ghost use Rattle.prog_parts.specs.Laws.{HeadsDecide, RecordPatternsDecide, ChainsDecide, RecordsDecide, ApplicationsDecide, OperatorsDecide, SequencesDecide, TestsDecide, CasesDecide, RulesDecide, MembersDecide, ParametersDecide, DeclarationsDecide, DeclarationsRun, GroupsDecide};

/// Patterns with parts.
pub fn decides_patterns()
    ensures heads { HeadsDecide }
    ensures records { RecordPatternsDecide }
    ensures chains { ChainsDecide }
{}

/// Expressions with lists.
pub fn decides_expressions()
    ensures records { RecordsDecide }
    ensures applications { ApplicationsDecide }
    ensures operators { OperatorsDecide }
    ensures sequences { SequencesDecide }
    ensures tests { TestsDecide }
    ensures cases { CasesDecide }
    ensures rules { RulesDecide }
{}

/// Functions and declarations.
pub fn decides_declarations()
    ensures members { MembersDecide }
    ensures parameters { ParametersDecide }
    ensures declarations { DeclarationsDecide }
    ensures after { DeclarationsRun }
    ensures groups { GroupsDecide }
{}
