// Laws of the conversion, as contracts.

ghost use Rattle.closure_meaning.specs.Laws.{ConversionKeeps, ConversionSame, ConversionByType};

/// The converted program does what the program does at every number of turns, for any sets that solve and any right table of captures: where the program
/// doesn't go wrong; so wherever it is well formed and no function by itself stands in it, as with the sets by type and captures in the order of binding.
pub fn conversion_keeps()
    ensures unless_wrong { ConversionKeeps }
    ensures well_formed { ConversionSame }
    ensures by_type { ConversionByType }
{}
