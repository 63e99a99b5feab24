// Laws of the machine, for those who run it in pieces.

ghost use Rattle.heap_vm.specs.Laws.{RunsJoin};

/// Two runs one after the other are one.
pub fn runs_join()
    ensures { RunsJoin }
{}
