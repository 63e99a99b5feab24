// How many arguments functions and sets take.
ghost use Rattle.std.specs.Prelude.{◌≡◌, ◌↔◌, map, Some, IsTrue, IfOk, slice_get};
ghost use Rattle.first_values.specs.WellFormed.{IsCallee};
ghost use Rattle.first_tables.specs.TablesOf.{tables_of, callee_of, set_of, member_of};
ghost use Rattle.first_known.specs.Takings.{taking_of, takings_of, taking_with, taking_one, FitsTaking};

use crate::answers::both;
use crate::scope::Scope;
use first_tables::operation::Callee;
use first_tables::tables::{Member, Tables};
use mlc_base::memory::NoMemory;
use std::alloc::Global;

/// How many arguments the functions of a set take: any number, where it has none; all so many; or not all as many.
#[derive(Clone, Copy)]
pub enum Taking {
    Any,
    Each(usize),
    Differ,
}

/// The taking of one function, before others.
fn join(first: Taking, others: Taking) -> Taking
    ensures { result ≡ taking_with first others }
{
    match first {
        Taking::Any => others,
        Taking::Each(count) => match others {
            Taking::Any => first,
            Taking::Each(other) => if count == other {
                others
            } else {
                Taking::Differ
            },
            Taking::Differ => Taking::Differ,
        },
        Taking::Differ => Taking::Differ,
    }
}

fn taking_of_one(arities: &[usize], function: usize) -> Taking
    ensures { result ≡ taking_one (slice_get arities.now function) }
{
    if function < arities.len() {
        Taking::Each(arities[function])
    } else {
        Taking::Differ
    }
}

fn find_taking(arities: &[usize], set: &[Member]) -> Taking
    ensures { result ≡ taking_of arities.now (map member_of set.now) }
{
    let mut taking = Taking::Any;
    let mut left = set.len();
    while left > 0 {
        left -= 1;
        let member = set[left];
        taking = join(taking_of_one(arities, member.function), taking);
    }
    taking
}

/// What the functions of each set take.
pub fn find_takings(
    alloc: Global,
    arities: &[usize],
    sets: &[Vec<Member>],
) -> Result<Vec<Taking>, NoMemory>
    ensures { IfOk result (λ all. all.items ≡ takings_of arities.now (map set_of sets.now)) }
{
    let mut all = Vec::new(alloc);
    for i in 0..sets.len() {
        let set = &sets[i];
        all.push(find_taking(arities, set))?;
    }
    Ok(all)
}

/// Whether functions that take so many arguments take one more than a closure is called with.
fn fits(taking: Taking, count: usize) -> bool
    ensures { IsTrue result ↔ FitsTaking taking count }
{
    match taking {
        Taking::Any => true,
        Taking::Each(takes) => if takes > 0 { takes - 1 == count } else { false },
        Taking::Differ => false,
    }
}

fn takes(arities: &[usize], function: usize, count: usize) -> bool
    ensures { IsTrue result ↔ (slice_get arities.now function ≡ Some count) }
{
    if function < arities.len() {
        arities[function] == count
    } else {
        false
    }
}

/// Whether a call gives as many arguments as its functions take.
pub fn is_callee(
    tables: &Tables,
    arities: &[usize],
    takings: &[Taking],
    scope: &Scope,
    callee: Callee,
    count: usize,
) -> bool
    requires { takings.now ≡ takings_of arities.now (tables_of tables.now).sets }
    ensures { IsTrue result ↔ IsCallee (tables_of tables.now) arities.now scope.now (callee_of callee) count }
{
    match callee {
        Callee::Known(function) => takes(arities, function, count),
        Callee::OneOf { set, closure } => {
            if set < takings.len() {
                both(scope.has(closure), fits(takings[set], count))
            } else {
                false
            }
        }
    }
}
