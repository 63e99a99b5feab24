// Whether the parts of types, and what constructors take, are types of the table.
ghost use Rattle.std.specs.Prelude.{◌≡◌, ◌↔◌, ◌<◌, ℕ, Option, Some, reverse, length, slice_get, IsTrue};
ghost use Rattle.std.specs.List.{AllByRecursion};
ghost use Rattle.ir_mono.specs.Types.{Row};
ghost use Rattle.mono_form.specs.Parts.{parts_of, TakesBelow, RowBelow, HasParts};

use mono_types::constructors::Constructors;
use mono_types::types::{Types, View};

fn is_type(len: usize, number: usize) -> bool
    ensures { IsTrue result ↔ number < len }
{
    number < len
}

/// Whether all of these are numbers of types, of which there are so many.
fn are_types(len: usize, numbers: &[usize]) -> bool
    ensures { IsTrue result ↔ AllByRecursion (λ p. p < len) numbers.now }
{
    for i in 0..numbers.len() {
        let is = is_type(len, numbers[i]);
        if !is {
            return false;
        }
    }
    true
}

fn takes_type(len: usize, argument: Option<usize>) -> bool
    ensures { IsTrue result ↔ TakesBelow len argument }
{
    match argument {
        Some(number) => number < len,
        None => true,
    }
}

/// Of the constructor that was the i-th to come.
fn takes_type_at(len: usize, constructors: &Constructors, i: usize) -> bool
    ensures { (c : ℕ × Option ℕ) → slice_get (reverse constructors.now) i ≡ Some c → IsTrue result ↔ TakesBelow len c.1 }
{
    match constructors.argument_at(i) {
        Some(argument) => takes_type(len, argument),
        None => true,
    }
}

/// Whether what constructors take are types.
fn take_types(len: usize, constructors: &Constructors) -> bool
    ensures { IsTrue result ↔ AllByRecursion (λ c. TakesBelow len c.1) constructors.now }
{
    for i in 0..constructors.len() {
        let is = takes_type_at(len, constructors, i);
        if !is {
            return false;
        }
    }
    true
}

/// Whether the parts of a type are types of the table.
fn are_parts(types: &Types, n: usize) -> bool
    ensures { (r : Row) → slice_get types.now n ≡ Some r → IsTrue result ↔ AllByRecursion (λ p. p < length types.now) (parts_of r.type) }
{
    match types.view(n) {
        View::Nothing => true,
        View::Apply(_, parts) => are_types(types.len(), parts),
    }
}

/// Whether what the constructors of a type take are types of the table.
fn are_taken(types: &Types, n: usize) -> bool
    ensures { (r : Row) → slice_get types.now n ≡ Some r → IsTrue result ↔ AllByRecursion (λ c. TakesBelow (length types.now) c.1) r.constructors }
{
    match types.constructors(n) {
        Some(constructors) => take_types(types.len(), constructors),
        None => true,
    }
}

fn is_row(types: &Types, n: usize) -> bool
    ensures { (r : Row) → slice_get types.now n ≡ Some r → IsTrue result ↔ RowBelow (length types.now) r }
{
    let parts = are_parts(types, n);
    let taken = are_taken(types, n);
    parts && taken
}

/// Whether the table has the parts of all its types, and what their constructors take.
pub fn has_parts(types: &Types) -> bool
    ensures { IsTrue result ↔ HasParts types.now }
{
    for n in 0..types.len() {
        let is = is_row(types, n);
        if !is {
            return false;
        }
    }
    true
}
