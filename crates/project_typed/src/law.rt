// Laws of the relation, as contracts.

ghost use Rattle.project_typed.specs.Laws.{ProjectsAreRight};

/// The program of a project is well typed, the project has a typing, and the program does what the project does.
pub fn projects_are_right()
    ensures { ProjectsAreRight }
{}
