// Laws of the form, as contracts.

ghost use Rattle.ir_ssa.specs.Laws.{FuelIsEnough};

/// Calls that may nest deeper than the turns allow, and loops that may go round more often, change nothing.
pub fn fuel_is_enough()
    ensures { FuelIsEnough }
{}
