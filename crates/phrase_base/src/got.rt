// What was read.

ghost use Rattle.std.specs.Prelude.{◌≡◌, ◌++◌, ◌∷◌, [], IfOk};

use mlc_base::memory::NoMemory;
use mlc_names::token::Token;

/// A phrase, how deep it is, and the tokens after it.
#[derive(Drop)]
pub struct Got<'a, T> {
    pub it: T,
    pub depth: u32,
    pub rest: &'a [Token],
}

/// A vector with one element more.
pub fn pushed<T: Drop>(front: Vec<T>, element: T) -> Result<Vec<T>, NoMemory>
    ensures { IfOk result (λ made. made.items ≡ front.items ++ element ∷ []) }
{
    let mut made = front;
    made.push(element)?;
    Ok(made)
}

/// A vector with one element more before the others.
pub fn prefixed<T: Drop>(first: T, others: Vec<T>) -> Result<Vec<T>, NoMemory>
    ensures { IfOk result (λ made. made.items ≡ first ∷ others.items) }
{
    let mut made = others;
    made.insert(0, first)?;
    Ok(made)
}

/// Lets a value go.
pub fn discard<T: Drop>(_value: T) {}
