// The law of well formed conversions, as a contract.

ghost use Rattle.closure_formed.specs.Laws.{ConvertedWellFormed, RisingAreOrderly, WithoutFunctionsWellFormed};

/// The converted program of a well formed one is well formed: its tables are, what is named is there, calls give as many arguments as functions take, and
/// nothing misses that is not to.
pub fn conversions_are_well_formed()
    ensures explicit { ConvertedWellFormed }
    ensures rising { RisingAreOrderly }
    ensures any { WithoutFunctionsWellFormed }
{}
