// The code of one function.
ghost use Rattle.std.specs.Prelude.{◌≡◌, ℕ, List, IfOk};
ghost use Rattle.ir_plain.specs.Tree.{Fun as CleanFun};
ghost use Rattle.flow_sets.specs.Flow.{Flow};
ghost use Rattle.plain_tree.specs.TreeOf.{fun_of as mono_fun_of};
ghost use Rattle.mono_bound.specs.Reads.{reading, mono_of};
ghost use Rattle.closure_convert.specs.Scope.{Member as CleanMember, Table};
ghost use Rattle.capture_scope.specs.Seen.{members_of};
ghost use Rattle.first_tree.specs.TreeOf.{tree_of, fun_of};
ghost use Rattle.closure_meaning.specs.Convert as clean;
ghost use Rattle.closure_meaning.specs.Convert.{Numbering, opening};
ghost use Rattle.closure_bodies.specs.of_closure_parts.Puts.{Puts};
ghost use Rattle.closure_bodies.specs.of_closure_parts.Settings.{Row, Texts, Holds};
ghost use Rattle.closure_first.specs.Codes as codes;
ghost use Rattle.closure_first.specs.Codes.{IsOf, IsSameGroup};

use capture_scope::scope::{Member, Scope, ScopeFault};
use closure_bodies::closure_parts::access::{FOLLOWER, GIVEN, HOLDER, named, plain};
use closure_bodies::closure_parts::making::push_let;
use closure_bodies::closure_parts::setting::Setting;
use closure_bodies::closure_steps::cases::onto;
use closure_bodies::closure_steps::steps::push_making;
use closure_bodies::convert::convert;
use first_tables::operation::Plain;
use first_tree::tree::{Exp, Fun, Step};
use mlc_base::make::two;
use mlc_base::memory::NoMemory;
use mono_types::types::Types;
use plain_tree::tree::Exp as Mono;
use std::alloc::Global;

/// The name of the closure that a function is entered with.
fn self_name(first: bool) -> usize
    ensures { (n : Numbering) (types : List Row) (F : Flow) (T : Table) → result ≡ clean.self_name n types F T first }
{
    if first { HOLDER } else { FOLLOWER }
}

/// A function of a group that isn't its first finds the closure of that.
fn push_opening(alloc: Global, first: bool, steps: &mut Vec<Step>) -> Result<(), NoMemory>
    ensures { IfOk result (λ _. (n : Numbering) (types : List Row) (F : Flow) (T : Table)
        → Puts steps.old.items steps.new.items (opening n types F T first)) }
{
    if first {
        return Ok(());
    }
    let found = plain(alloc, Plain::Field(0), FOLLOWER)?;
    push_let(steps, HOLDER, found)
}

/// A function of a closure and this parameter.
fn entered(alloc: Global, first: bool, parameter: usize, body: Exp) -> Result<Fun, NoMemory>
    ensures { IfOk result (λ made. (n : Numbering) (types : List Row) (F : Flow) (T : Table)
        → fun_of made ≡ codes.entered n types F T first parameter (tree_of body)) }
{
    let name = named(parameter)?;
    let params = two(alloc, self_name(first), name)?;
    let mut steps = Vec::new(alloc);
    push_opening(alloc, first, &mut steps)?;
    let body = onto(alloc, steps, body)?;
    Ok(Fun { params, body })
}

/// The scope of the functions of a group, of which this is the number of the first, before one of them binds its parameter.
pub fn group_scope(
    alloc: Global,
    setting: &Setting,
    leader: usize,
    group: &[Member],
) -> Result<Scope, ScopeFault>
    ensures { IfOk result (λ scope. (types : List Row) (strings : Texts) (n : Numbering) (F : Flow) (T : Table) → Holds setting.now types strings n F T
        → IsOf T scope leader (members_of group.now)) }
{
    let captured = setting.captures.captured(leader);
    let scope = Scope::of_group(alloc, captured, group)?;
    Ok(scope)
}

/// The code of a function of several parameters, whose first this is, in the scope of its group: it gives the closure of the next function.
pub fn giving(
    alloc: Global,
    setting: &Setting,
    scope: &mut Scope,
    first: bool,
    parameter: usize,
    next: usize,
) -> Result<Fun, ScopeFault>
    ensures scope { IfOk result (λ _. IsSameGroup scope.old scope.new) }
    ensures code { IfOk result (λ made. (types : List Row) (strings : Texts) (n : Numbering) (F : Flow) (T : Table) → Holds setting.now types strings n F T
        → (g : ℕ) (ms : List CleanMember) → IsOf T scope.old g ms → fun_of made ≡ codes.giving n types F T first g ms parameter next) }
{
    scope.begin(parameter)?;
    let mut steps = Vec::new(alloc);
    push_making(alloc, setting, scope, &mut steps, GIVEN, next)?;
    let body = onto(alloc, steps, Exp::Ret(GIVEN))?;
    Ok(entered(alloc, first, parameter, body)?)
}

/// The code of a function of one parameter, in the scope of its group.
pub fn taking(
    alloc: Global,
    types: &Types,
    setting: &Setting,
    scope: &mut Scope,
    first: bool,
    parameter: usize,
    body: &Mono,
) -> Result<Fun, ScopeFault>
    ensures scope { IfOk result (λ _. IsSameGroup scope.old scope.new) }
    ensures code { IfOk result (λ made. (strings : Texts) (n : Numbering) (F : Flow) (T : Table) → Holds setting.now types.now strings n F T
        → (g : ℕ) (ms : List CleanMember) → IsOf T scope.old g ms
        → fun_of made ≡ codes.taking n types.now F T first g ms parameter (mono_of types.now strings body.now)) }
{
    scope.begin(parameter)?;
    let made = convert(alloc, types, setting, scope, body)?;
    Ok(entered(alloc, first, parameter, made)?)
}
