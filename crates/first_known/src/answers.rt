// Answers put together.
ghost use Rattle.std.specs.Prelude.{◌≡◌, ◌&&◌};

/// Whether both are so.
pub fn both(first: bool, second: bool) -> bool
    ensures { result ≡ (first && second) }
{
    first && second
}
