// What no source has.
ghost use Rattle.std.specs.Prelude.{◌≡◌};
ghost use Rattle.mlc_base.specs.declared.place.Place.{Place as PlaceAt};
ghost use Rattle.pat_elab.specs.declared.stopped.Stopped.TheVariants.{Foreign};

use mlc_base::place::Place;
use pat_elab::stopped::Stopped;
use sml_tree::tree::{Dec, Exp};

/// The place of an expression.
fn place_of(exp: &Exp) -> Place {
    match exp {
        Exp::Constant(place, _) => *place,
        Exp::Vid(place, _) => *place,
        Exp::BuiltIn(place, _) => *place,
        Exp::Record(place, _) => *place,
        Exp::Tuple(place, _) => *place,
        Exp::List(place, _) => *place,
        Exp::Sequence(place, _, _) => *place,
        Exp::Let(place, _, _) => *place,
        Exp::Apply(place, _, _) => *place,
        Exp::Chain(place, _, _, _) => *place,
        Exp::Typed(place, _, _) => *place,
        Exp::Handle(place, _, _) => *place,
        Exp::Raise(place, _) => *place,
        Exp::Fn(place, _) => *place,
    }
}

/// An expression that the parser never makes, with its place.
pub fn absent(exp: &Exp) -> Stopped
    ensures { (p : PlaceAt) × (result ≡ Foreign p) }
{
    Stopped::Foreign(place_of(exp))
}

/// The place of a declaration.
fn place_of_dec(dec: &Dec) -> Place {
    match dec {
        Dec::Val(place, _, _, _) => *place,
        Dec::Fun(place, _, _) => *place,
        Dec::Abbreviation(place, _) => *place,
        Dec::Datatype(place, _) => *place,
        Dec::Withtype(place, _, _) => *place,
        Dec::Replicate(place, _, _) => *place,
        Dec::Exception(place, _) => *place,
        Dec::Local(place, _, _) => *place,
        Dec::Open(place, _) => *place,
        Dec::Declarations(place, _) => *place,
    }
}

/// A declaration that the parser never makes, with its place.
pub fn absent_dec(dec: &Dec) -> Stopped
    ensures { (p : PlaceAt) × (result ≡ Foreign p) }
{
    Stopped::Foreign(place_of_dec(dec))
}
