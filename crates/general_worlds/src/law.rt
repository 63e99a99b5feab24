// Laws of the worlds inside declarations, as contracts.

ghost use Rattle.general_worlds.specs.Laws.{
  ContextsAreInside,
  ContextsTellInside,
  DeclarationsGrow,
  EarlierAreOuter,
  EnteredIsTidy,
  EnteredTypesStay,
  InnerIsOver,
  NewIsTidy,
  OpenTypesAreGeneral,
  OpenTypesAreHeld,
  WorldsGeneralise,
};

/// In a world of the state after a declaration, what the state before says comes true inside.
pub fn worlds_generalise()
    ensures { WorldsGeneralise }
{}

/// What a context tells of outside it tells inside.
pub fn contexts_tell_inside()
    ensures { ContextsTellInside }
{}

/// Nothing inside speaks of parameters but those in scope.
pub fn inner_is_over()
    ensures { InnerIsOver }
{}

/// A type with no bound variables is general after the declaration.
pub fn open_types_are_general()
    ensures { OpenTypesAreGeneral }
{}

/// Behind the end of its declaration a type with no bound variables is one that was generalised.
pub fn open_types_are_held()
    ensures { OpenTypesAreHeld }
{}

/// A whole declaration is a step of the state around it.
pub fn declarations_grow()
    ensures { DeclarationsGrow }
{}

/// Inside a declaration the variables made before are those of the declarations around.
pub fn earlier_are_outer()
    ensures { EarlierAreOuter }
{}

/// Where a declaration begins a tidy state is so inside it.
pub fn entered_is_tidy()
    ensures { EnteredIsTidy }
{}

/// And types stay types.
pub fn entered_types_stay()
    ensures { EnteredTypesStay }
{}

/// And what it has of a context it has of one inside.
pub fn contexts_are_inside()
    ensures { ContextsAreInside }
{}

/// A state without variables is tidy.
pub fn new_is_tidy()
    ensures { NewIsTidy }
{}
