// Projects.

ghost use Rattle.std.specs.Prelude.{◌≡◌, ◌∷◌, ◌++◌, [], List, map, IfOk};
ghost use Rattle.sml_tree.specs.BareTree.{Decs};
ghost use Rattle.sml_tree.specs.TreeOf.{dec_of, decs_of};
ghost use Rattle.core_rules.specs.Project.{Part, standard_basis, source};
ghost use Rattle.ir_poly.specs.WellFormed.{table_of};
ghost use Rattle.match_pass.specs.of_ir_prog.Programs.{body_in, prog_of};
ghost use Rattle.match_pass.specs.Typed.{IsWellTyped};
ghost use Rattle.prog_tree.specs.declared.tree.Dec.TheVariants as program;
ghost use Rattle.elab_worlds.specs.Final.{IsOrdered};
ghost use Rattle.elab_exps.specs.Decs.{StandsIn};
ghost use Rattle.project_typed.specs.Laws.{IsProgramOfProject};
ghost use Rattle.project_elab.specs.Closed.{IsClosed};
ghost use Rattle.project_elab.specs.Counted.{IsCounted};
ghost use Rattle.project_elab.specs.Elaborated.{HasElaborated};

use crate::standard::standard_context;
use elab_context::context::Context;
use elab_exps::exps::decs_from;
use elab_exps::general_worlds::law::new_is_tidy;
use elab_finish::final_types::program::program_of;
use elab_state::state::State;
use elab_steps::flexible;
use elab_worlds::ordered::{are_ordered, are_settled};
use exp_weights::decs::decs_nodes;
use initial_names::initial;
use match_pass::ir_prog::program::Program;
use mlc_base::memory::NoMemory;
use mlc_base::place::Place;
use mlc_names::names::Name;
use pat_elab::stopped::Stopped;
use prog_known::answers::both;
use prog_tree::tree::Dec as ProgramDec;
use run_end::choose::{choose_classes, variables_made};
use run_end::dec_forms::brought::Brought;
use run_end::settled::is_settled;
use sml_tree::tree::Dec;
use std::alloc::Global;
use std::mem;

/// A project that is elaborated: the state, what is in scope, the program's declarations so far, and how many nodes no expression encloses.
#[derive(Drop)]
pub struct Elaborating {
    pub state: State,
    pub context: Context,
    pub body: Vec<ProgramDec>,
    pub nodes: usize,
}

/// A program with the names of the basis' exceptions.
fn with_exceptions(mut program: Program, exceptions: Vec<Name>) -> Program
    ensures { result ≡ record program { tables = record program.tables { initial = exceptions } } }
{
    program.tables.initial = exceptions;
    program
}

/// That the fields of all records are settled. Each record type is made with its labels in order; no step says so, so it is looked at here.
fn ended(state: &State, place: Place) -> Result<(), Stopped>
    ensures { IfOk result (λ _. IsOrdered state.now) }
{
    if !are_settled(state) {
        return Err(Stopped::NotPrincipal(place));
    }
    if !are_ordered(state) {
        return Err(Stopped::Foreign(place));
    }
    Ok(())
}

/// Declarations behind the count of so many nodes.
fn put_count(nodes: usize, body: &mut Vec<ProgramDec>) -> Result<(), NoMemory>
    ensures { IfOk result (λ _. body.new.items ≡ program.Weight nodes ∷ body.old.items) }
{
    body.insert(0, ProgramDec::Weight(nodes))?;
    Ok(())
}

/// The standard basis, with its prelude.
pub fn begin(alloc: Global, prelude: &[Dec]) -> Result<Elaborating, Stopped>
    ensures { IfOk result (λ e. HasElaborated (decs_of (map dec_of prelude.now)) (standard_basis ∷ []) e) }
{
    new_is_tidy();
    let mut state = State::new(alloc)?;
    let mut body = Vec::new(alloc);
    let context = standard_context(alloc, &mut state, prelude, &mut body)?;
    Ok(Elaborating {
        state,
        context,
        body,
        nodes: decs_nodes(prelude),
    })
}

impl Elaborating {
    /// One source more, with the defaults of the classes that it leaves open. Whether what it brings into scope is settled, and the fields of its record
    /// patterns with `...`: if not, it has no principal typing.
    pub fn source(&mut self, alloc: Global, place: Place, decs: &[Dec]) -> Result<bool, Stopped>
        requires { StandsIn self.old.state self.old.context }
        ensures elaborated { IfOk result (λ _. (prelude : Decs) (parts : List Part) → HasElaborated prelude parts self.old
            → HasElaborated prelude (parts ++ source (decs_of (map dec_of decs.now)) ∷ []) self.new) }
        ensures closed { IfOk result (λ settled. IsClosed self.old (map dec_of decs.now) self.new settled) }
    {
        self.nodes = self.nodes.saturating_add(decs_nodes(decs));
        let first = variables_made(&self.state);
        let first_flexible = self.state.flexible.len();
        let mut brought = Brought::new(alloc);
        decs_from(
            alloc,
            &mut self.state,
            &mut self.context,
            decs,
            &mut self.body,
            &mut brought,
        )?;
        choose_classes(alloc, &mut self.state, place, first)?;
        let settled = is_settled(alloc, &self.state, &brought)?;
        let are_known = flexible::are_settled(&self.state, first_flexible, &[]);
        Ok(both(settled, are_known))
    }

    /// The program of the project, behind the count of the nodes that no expression encloses: it is well typed, and does what the project does. Where the
    /// fields of a record aren't settled it is refused, at the place.
    pub fn finish(&mut self, alloc: Global, place: Place) -> Result<Program, Stopped>
        ensures program { IfOk result (λ p. (prelude : Decs) (parts : List Part) → HasElaborated prelude parts self.old
            → IsProgramOfProject (table_of (prog_of p)) prelude parts (body_in p)) }
        ensures counted { IfOk result (λ p. (prelude : Decs) (parts : List Part) → HasElaborated prelude parts self.old
            → IsCounted prelude parts (body_in p)) }
        ensures well_typed { IfOk result (λ p. (prelude : Decs) (parts : List Part) → HasElaborated prelude parts self.old → IsWellTyped p) }
    {
        ended(&self.state, place)?;
        let exceptions = initial(alloc)?;
        let none = State::new(alloc)?;
        let state = mem::replace(&mut self.state, none);
        put_count(self.nodes, &mut self.body)?;
        let program = program_of(alloc, state, &self.body)?;
        Ok(with_exceptions(program, exceptions))
    }
}
