// The law of the expansion, as a contract.

ghost use Rattle.eta_expand.specs.Laws.{ExpandedWellFormed, ExpandedExplicit, ExpandedSame};

/// A well formed program whose constructors, references, primitives and exceptions become `fn`s where they stand as functions is well formed, has no function
/// by itself any more, and does the same at every number of turns.
pub fn functions_are_made()
    ensures well_formed { ExpandedWellFormed }
    ensures explicit { ExpandedExplicit }
    ensures same { ExpandedSame }
{}
