// The main law of images with the texts that they need, as a contract.

ghost use Rattle.image_law.specs.ImageOf.{ImageIsRight};

/// An image of a program that is never wrong does what the program does, in any heap and stack.
pub fn image_is_right()
    ensures { ImageIsRight }
{
    machine_rows::law::images_are_right();
    ssa_exceptions::law::texts_of_made_are_enough();
}
