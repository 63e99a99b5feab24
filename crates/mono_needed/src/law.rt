// The law of the types that equality needs, as a contract.

ghost use Rattle.mono_needed.specs.Gathered.{AllAreCounted, MoreArePast};

/// The types that equality needs may be gathered in any order.
pub fn any_order_counts()
    ensures all { AllAreCounted }
    ensures past { MoreArePast }
{}
