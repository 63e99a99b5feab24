// Looking through types, each number once.
ghost use Rattle.std.specs.Prelude.{◌≡◌, ◌↔◌, true, false, IsTrue, IfOk};
ghost use Rattle.ir_tables.specs.of_ty_core.Types.{var, admits};
ghost use Rattle.ir_tables.specs.of_ty_core.TypesOf.{head_of};
ghost use Rattle.ir_tables.specs.of_ty_table.TypeAt.{type_at};
ghost use Rattle.ir_tables.specs.of_ir_poly.Types.{over, admits_in, is_equality};
ghost use Rattle.ir_known.specs.Few.{few_so};
ghost use Rattle.ir_known.specs.Knows.{marks_of};
ghost use Rattle.ir_known.specs.Asked.{Asked, Opens, rule_of, so_in};

use crate::stack::Stack;
use indexmap::IndexSet;
use ir_tables::ty_core::mark::Mark;
use ir_tables::ty_core::name::Equality;
use ir_tables::ty_core::ty::{Head, equality_of};
use ir_tables::ty_table::types::{Types, View};
use ir_tables::ty_table::variables::Few;
use mlc_base::memory::NoMemory;
use std::alloc::Global;

/// What is asked of a type: whether its variables are parameters in scope, or whether it admits equality where those do that are marked so.
#[derive(Clone, Copy)]
pub enum Question {
    Over,
    Admits,
}

/// Whether a mark asks for equality.
fn is_equality_mark(mark: Mark) -> bool
    ensures { result ≡ is_equality mark }
{
    match mark {
        Mark::Equality => true,
        Mark::Any => false,
        Mark::Class(_) => false,
    }
}

/// Whether a variable is so.
fn is_so(scope: &Stack<Mark>, question: Question, v: usize) -> bool
    ensures { result ≡ so_in question (marks_of scope.now) v }
{
    match scope.get(v) {
        Some(mark) => match question {
            Question::Over => true,
            Question::Admits => is_equality_mark(mark),
        },
        None => false,
    }
}

/// What a symbol makes of the question.
fn rule(question: Question, head: &Head) -> Equality
    ensures { result ≡ rule_of question (head_of head.now) }
{
    match question {
        Question::Over => Equality::ByArguments,
        Question::Admits => equality_of(head),
    }
}

/// Puts the types on which the answer rests on those that are pending, or says no.
fn open(
    types: &Types,
    scope: &Stack<Mark>,
    question: Question,
    k: usize,
    pending: &mut Vec<usize>,
) -> Result<bool, NoMemory>
    ensures opens { IfOk result (λ yes. yes ≡ true → Opens types.now (Asked question (marks_of scope.now)) k pending.old.items pending.new.items) }
    ensures no { IfOk result (λ yes. yes ≡ false → Asked question (marks_of scope.now) (type_at types.now k) → ⊥) }
{
    match types.view(k) {
        View::Var(v) => Ok(is_so(scope, question, v)),
        View::Apply(head, parts) => match rule(question, head) {
            Equality::Always => Ok(true),
            Equality::ByArguments => {
                pending.extend_from_slice(parts)?;
                Ok(true)
            }
            Equality::Never => Ok(false),
        },
    }
}

/// Whether a type is so.
fn ask(
    alloc: Global,
    types: &Types,
    scope: &Stack<Mark>,
    question: Question,
    t: usize,
) -> Result<bool, NoMemory>
    ensures { IfOk result (λ yes. IsTrue yes ↔ Asked question (marks_of scope.now) (type_at types.now t)) }
{
    let mut seen: IndexSet<usize> = IndexSet::new(alloc);
    let mut pending = Vec::new(alloc);
    pending.push(t)?;
    while let Some(next) = pending.pop() {
        let new = seen.insert(next)?;
        if new {
            let yes = open(types, scope, question, next, &mut pending)?;
            if !yes {
                return Ok(false);
            }
        }
    }
    Ok(true)
}

/// Whether few variables are so.
fn few_so(scope: &Stack<Mark>, question: Question, few: Few) -> Option<bool>
    ensures { result ≡ few_so (so_in question (marks_of scope.now)) few }
{
    match few {
        Few::Empty => Some(true),
        Few::One(a) => Some(is_so(scope, question, a)),
        Few::Two(a, b) => Some(is_so(scope, question, a) && is_so(scope, question, b)),
        Few::Three(a, b, c) => Some(
            is_so(scope, question, a) && is_so(scope, question, b) && is_so(scope, question, c),
        ),
        Few::Four(a, b, c, d) => Some(
            is_so(scope, question, a)
                && is_so(scope, question, b)
                && is_so(scope, question, c)
                && is_so(scope, question, d),
        ),
        Few::Many => None,
    }
}

/// Whether the variables of a type are parameters in scope: a type that has many is looked through.
pub fn is_over(
    alloc: Global,
    types: &Types,
    scope: &Stack<Mark>,
    t: usize,
) -> Result<bool, NoMemory>
    ensures { IfOk result (λ yes. IsTrue yes ↔ (over (marks_of scope.now) (type_at types.now t) ≡ true)) }
{
    match few_so(scope, Question::Over, types.few(t)) {
        Some(yes) => Ok(yes),
        None => {
            let yes = ask(alloc, types, scope, Question::Over, t)?;
            Ok(yes)
        }
    }
}

/// Whether a type admits equality where the parameters do that are marked so: it is looked through where it would if all did, and some of its variables isn't marked, or
/// it has many.
pub fn is_equality(
    alloc: Global,
    types: &Types,
    scope: &Stack<Mark>,
    t: usize,
) -> Result<bool, NoMemory>
    ensures { IfOk result (λ yes. IsTrue yes ↔ (admits (admits_in (marks_of scope.now)) (type_at types.now t) ≡ true)) }
{
    if types.admits_eq(t) {
        return Ok(true);
    }
    if !types.admits_eq_everywhere(t) {
        return Ok(false);
    }
    match few_so(scope, Question::Admits, types.few(t)) {
        Some(true) => Ok(true),
        Some(false) | None => {
            let yes = ask(alloc, types, scope, Question::Admits, t)?;
            Ok(yes)
        }
    }
}
