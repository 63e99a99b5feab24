// Laws of the relation, as contracts.

ghost use Rattle.core_elab.specs.Laws.{MeaningKept, ProjectKept};

/// A program that resolves declarations does what they do, at every number of turns.
pub fn meaning_kept()
    ensures { MeaningKept }
{}

/// The same of projects, with any prelude.
pub fn project_kept()
    ensures { ProjectKept }
{}
