// How far what a variable stands for may reach.
ghost use Rattle.std.specs.Prelude.{◌≡◌};
ghost use Rattle.ty_solve.specs.Limits.{narrower as narrower_of};

/// How far what a variable stands for may reach.
#[derive(Clone, Copy, PartialEq, Eq)]
pub struct Limit {
    /// How many type names, counted as they were made, its types may use.
    pub names: usize,
    /// How deep the `val` declaration is that it belongs to.
    pub level: usize,
}

/// What two limits both allow.
pub fn narrower(a: Limit, b: Limit) -> Limit
    ensures { result ≡ narrower_of a b }
{
    Limit {
        names: a.names.min(b.names),
        level: a.level.min(b.level),
    }
}

/// What limit a variable had before a change.
#[derive(Clone, Copy)]
pub struct KeptLimit {
    pub variable: usize,
    pub limit: Limit,
}
