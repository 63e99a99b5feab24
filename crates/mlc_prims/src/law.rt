// Laws of the table, as contracts.

ghost use Rattle.mlc_prims.specs.Laws.{NumbersAreOneToOne, TodaysRowsAreRows};

/// No two primitives have one number.
pub fn numbers_are_one_to_one()
    ensures { NumbersAreOneToOne }
{}

/// Each row of a primitive that compiles today is a row of the whole table.
pub fn todays_rows_are_rows()
    ensures { TodaysRowsAreRows }
{}
