// The law of sizes, as a contract.

ghost use Rattle.closure_sizes.specs.Laws.{ConversionIsSmall, CapturesAreUses};

/// The converted program has at most four nodes for each node of the program and for each piece of its closures, whatever the sets and the table of captures
/// are; and where captures are in the order of binding, a closure takes no more variables than its function's text has uses.
pub fn conversions_are_small()
    ensures nodes { ConversionIsSmall }
    ensures words { CapturesAreUses }
{}
