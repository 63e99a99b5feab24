// Laws, as contracts.
ghost use Rattle.scope_walks.specs.Projects.{TwiceHasNoTyping, UnboundHasNoTyping};

/// A project in which an identifier isn't bound has no typing.
pub fn unbound_has_no_typing()
    ensures { UnboundHasNoTyping }
{}

/// Nor has one in which an identifier is bound twice where that may not be, or one is bound that never is.
pub fn twice_has_no_typing()
    ensures { TwiceHasNoTyping }
{}
