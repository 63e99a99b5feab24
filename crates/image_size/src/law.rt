// How long images are, as a contract.

ghost use Rattle.image_size.specs.Size.{ImagesAreSmall, LongMeansLarge};

/// An image has at most 44 words a part of its program, and 42; so where it has more than 2^27, the program has more than 2^20 parts.
pub fn images_are_small()
    ensures words { ImagesAreSmall }
    ensures long { LongMeansLarge }
{
    machine_code::law::images_are_short();
    machine_rows::law::images_are_short();
}
