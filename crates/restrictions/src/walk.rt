// What a walk has on its way.
ghost use Rattle.std.specs.Prelude.{IfOk};
ghost use Rattle.core_rules.specs.Restrictions.{unless};
ghost use Rattle.restrictions.specs.Found.{Adds, place_in};

use mlc_base::memory::NoMemory;
use mlc_base::place::Place;
use scoped_map::scoped::Scoped;

/// The type variables in scope, and the places that were found to be broken.
#[derive(Drop)]
pub struct Walk {
    pub around: Scoped<usize>,
    pub found: Vec<Place>,
}

/// Finds a place broken, unless a test holds.
pub fn find_unless(holds: bool, place: Place, found: &mut Vec<Place>) -> Result<(), NoMemory>
    ensures { IfOk result (λ _. Adds found.old.items found.new.items (unless holds place)) }
{
    if !holds {
        found.push(place)?;
    }
    Ok(())
}

/// Finds a place broken that may be there.
pub fn find_place(place: Option<Place>, found: &mut Vec<Place>) -> Result<(), NoMemory>
    ensures { IfOk result (λ _. Adds found.old.items found.new.items (place_in place)) }
{
    if let Some(place) = place {
        found.push(place)?;
    }
    Ok(())
}
