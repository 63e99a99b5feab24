// Laws of the relation, as contracts.

ghost use Rattle.elab_typed.specs.Laws.{AnnotationsStand, ElaboratedHasTyping, ElaboratedIsChecked, ElaboratedResolves, ElaborationIsRight};

/// What declarations elaborate to resolves them, so it does what they do.
pub fn elaborated_resolves()
    ensures { ElaboratedResolves }
{}

/// It is well typed, as a checker decides it.
pub fn elaborated_is_checked()
    ensures { ElaboratedIsChecked }
{}

/// The declarations have a typing, whatever the parameters in scope stand for.
pub fn elaborated_has_typing()
    ensures { ElaboratedHasTyping }
{}

/// In the initial basis: it is well typed, they have a typing, and it does what they do.
pub fn elaboration_is_right()
    ensures { ElaborationIsRight }
{}

/// Where the types in scope are closed, what an annotation stands for follows the parameters in scope.
pub fn annotations_stand()
    ensures { AnnotationsStand }
{}
