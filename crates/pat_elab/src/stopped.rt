// Why a pattern has no elaboration.
ghost use Rattle.std.specs.Prelude.{◌≡◌};
ghost use Rattle.elab_types.specs.declared.refused.Refused.TheVariants.{Memory};
ghost use Rattle.pat_elab.specs.declared.stopped.Stopped.TheVariants.{Refuses};

use elab_types::refused::Refused;
use mlc_base::memory::NoMemory;
use mlc_base::place::Place;

/// A refusal, that there is no principal typing, or the place of a phrase that isn't compiled yet.
#[derive(Clone, Copy, PartialEq, Eq, Debug)]
pub enum Stopped {
    Refuses(Refused),
    NotPrincipal(Place),
    Foreign(Place),
}

impl From<Refused> for Stopped {
    ghost from_gives = { λ r e. e ≡ Refuses r };

    fn from(refused: Refused) -> Stopped {
        Stopped::Refuses(refused)
    }
}

impl From<NoMemory> for Stopped {
    ghost from_gives = { λ _ e. e ≡ Refuses Memory };

    fn from(_error: NoMemory) -> Stopped {
        Stopped::Refuses(Refused::Memory)
    }
}
