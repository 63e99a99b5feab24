// What is looked for.

use mlc_base::place::Place;

/// An identifier that isn't bound, or one that is bound twice or that nothing may bind.
#[derive(Clone, Copy)]
pub enum What {
    Unbound,
    Twice,
}

/// That, at a place.
#[derive(Clone, Copy)]
pub struct Sought {
    pub what: What,
    pub place: Place,
}
