// The main law of the code of images, as a contract.

ghost use Rattle.machine_code.specs.Law.{CodeIsRight};
ghost use Rattle.machine_code.specs.Sizes.{CodeIsShort, ConstantsAreShort};

/// The image of a program that is never wrong does what the program does, in any heap and stack.
pub fn code_is_right()
    ensures { CodeIsRight }
{
    ir_code::law::runs();
    ir_code::law::begins();
    ir_code::law::keeps();
    ir_code::law::control();
    ir_code::law::memory();
    ir_code::law::arithmetic();
    machine_routines::law::equal();
    machine_routines::law::find();
    same_runs::law::follows_is_same();
}

/// Code is at most six instructions a node beside its primitives; constants are each string and each identifier once, and three words an exception of the basis.
pub fn images_are_short()
    ensures code { CodeIsShort }
    ensures constants { ConstantsAreShort }
{
    machine_routines::law::short();
}
