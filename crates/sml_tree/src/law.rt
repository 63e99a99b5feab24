// Laws of the definitions.

ghost use Rattle.sml_tree.specs.Phrases.{WalkIsByParts};

/// A walk is a phrase and then the walks of its parts, whatever stops it.
pub fn walk_is_by_parts()
    ensures { WalkIsByParts }
{}
