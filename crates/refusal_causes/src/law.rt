// Laws, as contracts.
ghost use Rattle.refusal_causes.specs.Laws.{NoneIsBroken, NoneIsUnbound};

/// In a project that has a typing every identifier is bound.
pub fn none_is_unbound()
    ensures { NoneIsUnbound }
{}

/// A project that breaks no restriction and has a typing has no place where a restriction is broken, by what is in scope neither.
pub fn none_is_broken()
    ensures { NoneIsBroken }
{}
