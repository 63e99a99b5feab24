// That images do what their programs do, and how long they are, as contracts.

ghost use Rattle.machine_primitives.specs.of_machine_code.Rows.{AreRight};
ghost use Rattle.machine_rows.specs.Table.{rows};
ghost use Rattle.machine_rows.specs.Law.{ImagesAreRight, ImagesAreShort, RowsAreShort};

/// The code of every primitive does what its row of the table says.
pub fn rows_are_right()
    ensures { AreRight rows }
{
    machine_primitives::law::sums();
    machine_primitives::law::word_quotients();
    machine_primitives::law::int_rows();
    machine_primitives::law::divisions();
    machine_primitives::law::bits();
    machine_primitives::law::conversions();
    machine_primitives::law::limits();
    machine_primitives::law::sizes();
    machine_primitives::law::truths();
    machine_primitives::law::contraries();
    machine_primitives::law::comparisons();
    machine_primitives::law::text_orders();
    machine_primitives::law::text_rows();
}

/// The image of a program that is never wrong does what the program does, in any heap and stack.
pub fn images_are_right()
    ensures { ImagesAreRight }
{
    rows_are_right();
    machine_primitives::machine_code::law::code_is_right();
}

/// An image has at most ten instructions a node.
pub fn images_are_short()
    ensures rows { RowsAreShort }
    ensures code { ImagesAreShort }
{
    rows_are_right();
    machine_primitives::machine_routines::law::short();
}
