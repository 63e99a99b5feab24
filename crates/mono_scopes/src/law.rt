// Laws of scopes, as contracts.

ghost use Rattle.mono_scopes.specs.Scopes.{PartsAreNoted, BindingsAreNoted, GroupsAreNoted, VariablesAreNoted, CopiesAreNoted};

/// Scopes hold what a copy needs, as it is found from the last to the first.
pub fn scopes_hold_needs()
    ensures parts { PartsAreNoted }
    ensures bindings { BindingsAreNoted }
    ensures groups { GroupsAreNoted }
    ensures variables { VariablesAreNoted }
    ensures copies { CopiesAreNoted }
{}
