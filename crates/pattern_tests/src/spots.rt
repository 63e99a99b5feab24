// Where the variables of patterns are.
ghost use Rattle.std.specs.Prelude.{◌≡◌, IfOk};
ghost use Rattle.pattern_tests.specs.Spots.{names_onto};

use match_names::names::Names;
use match_steps::match_types::work::ValueType;
use mlc_base::memory::NoMemory;

/// A variable of the source, the number of the one that has its value, and its type.
#[derive(Clone, Copy)]
pub struct Spot {
    pub variable: usize,
    pub number: usize,
    pub ty: ValueType,
}

/// The variables get their numbers.
pub fn bind_spots(names: &mut Names, spots: &[Spot]) -> Result<(), NoMemory>
    ensures { IfOk result (λ _. names.new ≡ names_onto spots.now names.old) }
{
    for i in 0..spots.len() {
        let spot = spots[i];
        names.bind(spot.variable, spot.number)?;
    }
    Ok(())
}
