// Arms of a switch, by their case.
ghost use Rattle.std.specs.Prelude.{◌≡◌, ◌∷◌, [], ℕ, List, map, IfOk};
ghost use Rattle.flow_sets.specs.Flow.{Flow};
ghost use Rattle.closure_convert.specs.Scope.{Table};
ghost use Rattle.first_tables.specs.TablesOf.{plain_of, test_of};
ghost use Rattle.first_tree.specs.TreeOf.{tree_of, arm_of, arms_of};
ghost use Rattle.ir_first.specs.Tree as out;
ghost use Rattle.closure_meaning.specs.Convert.{Numbering, var};
ghost use Rattle.closure_parts.specs.Pieces.{a_plain};
ghost use Rattle.closure_parts.specs.Puts.{before, Puts};
ghost use Rattle.closure_parts.specs.Settings.{Row, Texts, Holds};
ghost use Rattle.closure_parts.specs.Indexed.{ArePlaces};
ghost use Rattle.closure_steps.specs.Cases.{is_test, is_constructor, test_in, tested_in, tag_in, opened};

use closure_parts::access::{named, plain};
use closure_parts::making::push_let;
use closure_parts::operation::constant;
use closure_parts::setting::Setting;
use first_tables::operation::{Plain, Test};
use first_tree::tree as made;
use mlc_base::make::{boxed, one, two};
use mlc_base::memory::NoMemory;
use plain_tree::tree::Case;
use std::alloc::Global;

/// Whether an arm is taken where a test holds.
pub fn is_test(case: Case) -> bool
    ensures { result ≡ is_test case }
{
    match case {
        Case::Constant(_) => true,
        Case::Constructor(_) => false,
        Case::ConstructorOf {
            constructor: _,
            argument: _,
        } => false,
        Case::Exception(_) => true,
        Case::ExceptionOf {
            exception: _,
            argument: _,
        } => true,
        Case::Record(_) => false,
    }
}

/// Whether an arm is that of a cell's tag.
pub fn is_constructor(case: Case) -> bool
    ensures { result ≡ is_constructor case }
{
    match case {
        Case::Constant(_) => false,
        Case::Constructor(_) => true,
        Case::ConstructorOf {
            constructor: _,
            argument: _,
        } => true,
        Case::Exception(_) => false,
        Case::ExceptionOf {
            exception: _,
            argument: _,
        } => false,
        Case::Record(_) => false,
    }
}

fn test(setting: &Setting, case: Case) -> Test
    ensures { (types : List Row) (strings : Texts) (n : Numbering) (F : Flow) (T : Table) → Holds setting.now types strings n F T
        → test_of result ≡ test_in n strings case }
{
    match case {
        Case::Constant(literal) => Test::Is(constant(setting, literal)),
        _ => Test::IsOf,
    }
}

fn of_exception(alloc: Global, atom: usize, exception: usize) -> Result<Vec<usize>, NoMemory>
    ensures { IfOk result (λ operands. operands.items ≡ var atom ∷ var exception ∷ []) }
{
    let atom = named(atom)?;
    let exception = named(exception)?;
    two(alloc, atom, exception)
}

fn of_atom(alloc: Global, atom: usize) -> Result<Vec<usize>, NoMemory>
    ensures { IfOk result (λ operands. operands.items ≡ var atom ∷ []) }
{
    let atom = named(atom)?;
    one(alloc, atom)
}

fn tested(alloc: Global, atom: usize, case: Case) -> Result<Vec<usize>, NoMemory>
    ensures { IfOk result (λ operands. operands.items ≡ tested_in atom case) }
{
    match case {
        Case::Exception(exception) => of_exception(alloc, atom, exception),
        Case::ExceptionOf {
            exception,
            argument: _,
        } => of_exception(alloc, atom, exception),
        _ => of_atom(alloc, atom),
    }
}

/// The tag of the cells of a type that come to an arm.
pub fn tag_of(setting: &Setting, ty: usize, case: Case) -> Result<usize, NoMemory>
    ensures { IfOk result (λ tag. (types : List Row) → ArePlaces setting.now.places types → tag ≡ tag_in types ty case) }
{
    match case {
        Case::Constructor(constructor) => setting.places.tag(ty, constructor),
        Case::ConstructorOf {
            constructor,
            argument: _,
        } => setting.places.tag(ty, constructor),
        _ => Ok(0),
    }
}

/// The rest is where a test holds; this, where it doesn't.
pub fn push_when(
    alloc: Global,
    setting: &Setting,
    steps: &mut Vec<made::Step>,
    atom: usize,
    case: Case,
    other: made::Exp,
) -> Result<(), NoMemory>
    ensures { IfOk result (λ _. (types : List Row) (strings : Texts) (n : Numbering) (F : Flow) (T : Table) → Holds setting.now types strings n F T
        → Puts steps.old.items steps.new.items (λ e. out.branch (test_in n strings case) (tested_in atom case) e (tree_of other))) }
{
    let other = boxed(alloc, other)?;
    let operands = tested(alloc, atom, case)?;
    steps.push(made::Step::When(test(setting, case), operands, other))?;
    Ok(())
}

/// The rest is where a test doesn't hold; this, where it does.
pub fn push_unless(
    alloc: Global,
    setting: &Setting,
    steps: &mut Vec<made::Step>,
    atom: usize,
    case: Case,
    other: made::Exp,
) -> Result<(), NoMemory>
    ensures { IfOk result (λ _. (types : List Row) (strings : Texts) (n : Numbering) (F : Flow) (T : Table) → Holds setting.now types strings n F T
        → Puts steps.old.items steps.new.items (out.branch (test_in n strings case) (tested_in atom case) (tree_of other))) }
{
    let other = boxed(alloc, other)?;
    let operands = tested(alloc, atom, case)?;
    steps.push(made::Step::Unless(test(setting, case), operands, other))?;
    Ok(())
}

/// The rest is the arm of a tag; others stand here.
pub fn push_case(
    setting: &Setting,
    steps: &mut Vec<made::Step>,
    atom: usize,
    ty: usize,
    case: Case,
    others: Vec<made::Arm>,
) -> Result<(), NoMemory>
    ensures { IfOk result (λ _. (types : List Row) → ArePlaces setting.now.places types → Puts steps.old.items steps.new.items
        (λ e. out.switch (var atom) (out.arm (tag_in types ty case) e (arms_of (map arm_of others.items))))) }
{
    let cell = named(atom)?;
    let tag = tag_of(setting, ty, case)?;
    steps.push(made::Step::Case { cell, tag, others })?;
    Ok(())
}

fn push_part(
    alloc: Global,
    steps: &mut Vec<made::Step>,
    atom: usize,
    variable: usize,
    part: Plain,
) -> Result<(), NoMemory>
    ensures { IfOk result (λ _. Puts steps.old.items steps.new.items (out.let_in (var variable) (a_plain (plain_of part) (var atom)))) }
{
    let name = named(variable)?;
    let atom = named(atom)?;
    let operation = plain(alloc, part, atom)?;
    push_let(steps, name, operation)
}

/// What an arm has of the value that came to it.
pub fn push_opened(
    alloc: Global,
    steps: &mut Vec<made::Step>,
    atom: usize,
    case: Case,
) -> Result<(), NoMemory>
    ensures { IfOk result (λ _. Puts steps.old.items steps.new.items (opened atom case)) }
{
    match case {
        Case::ConstructorOf {
            constructor: _,
            argument,
        } => push_part(alloc, steps, atom, argument.variable, Plain::Field(0)),
        Case::ExceptionOf {
            exception: _,
            argument,
        } => push_part(alloc, steps, atom, argument.variable, Plain::Argument),
        Case::Constant(_) => Ok(()),
        Case::Constructor(_) => Ok(()),
        Case::Exception(_) => Ok(()),
        Case::Record(_) => Ok(()),
    }
}

/// Steps before an expression.
pub fn onto(alloc: Global, steps: Vec<made::Step>, rest: made::Exp) -> Result<made::Exp, NoMemory>
    ensures { IfOk result (λ made. tree_of made ≡ before steps.items (tree_of rest)) }
{
    if steps.is_empty() {
        return Ok(rest);
    }
    match boxed(alloc, rest) {
        Ok(rest) => Ok(made::Exp::Steps(steps, rest)),
        Err(e) => Err(e),
    }
}
