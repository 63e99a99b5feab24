// Single operations as steps.
ghost use Rattle.std.specs.Prelude.{◌≡◌, ◌∷◌, [], ℕ, List, map, IfOk};
ghost use Rattle.ir_tables.specs.Tables.{literal_at};
ghost use Rattle.plain_tree.specs.TreeOf.{operation_of as mono_operation_of};
ghost use Rattle.mono_bound.specs.Reads.{reading};
ghost use Rattle.flow_sets.specs.Flow.{Flow, variable, at};
ghost use Rattle.closure_convert.specs.Scope.{Table};
ghost use Rattle.ir_values.specs.Primitives.{sort_of};
ghost use Rattle.first_values.specs.Operations as op;
ghost use Rattle.first_tables.specs.TablesOf.{constant_of, plain_of, piece_of};
ghost use Rattle.first_tree.specs.TreeOf.{operation_of};
ghost use Rattle.ir_first.specs.Tree as out;
ghost use Rattle.closure_meaning.specs.Convert.{Numbering, var, packed, marked, used, call_set, convert_op};
ghost use Rattle.closure_meaning.specs.Convert as clean;
ghost use Rattle.closure_parts.specs.Pieces.{a_plain, a_make};
ghost use Rattle.closure_parts.specs.Puts.{Puts, field_pieces};
ghost use Rattle.closure_parts.specs.Settings.{Row, Texts, Holds};

use crate::access::{GIVEN, SPARE, access, all_named, cell_of, named, plain};
use crate::making::push_let;
use crate::operands::performed;
use crate::setting::Setting;
use capture_scope::scope::Scope;
use first_tables::operation::{Callee, Constant, Piece, Plain};
use first_tree::tree::{Operation, Step};
use ir_tables::tables::Constant as Literal;
use mlc_base::make::{one, two};
use mlc_base::memory::NoMemory;
use mlc_base::place::Place;
use mlc_prims::basis::BasisPrimitive;
use mono_types::types::Types;
use plain_tree::tree as mono;
use std::alloc::Global;

/// A constant; a string is the first that is equal.
pub fn constant(setting: &Setting, literal: Literal) -> Constant
    ensures { (types : List Row) (strings : Texts) (n : Numbering) (F : Flow) (T : Table) → Holds setting.now types strings n F T
        → constant_of result ≡ clean.constant n (literal_at strings literal) }
{
    match literal {
        Literal::Int(int) => Constant::Int(int),
        Literal::Word(word) => Constant::Word(word),
        Literal::Char(char) => Constant::Char(char),
        Literal::Text(number) => Constant::Text(setting.places.text(number)),
    }
}

/// A turn, if one is taken.
fn push_turn(steps: &mut Vec<Step>, place: Option<Place>) -> Result<(), NoMemory>
    ensures { IfOk result (λ _. Puts steps.old.items steps.new.items (marked place)) }
{
    match place {
        Some(place) => {
            steps.push(Step::Turn(place))?;
            Ok(())
        }
        None => Ok(()),
    }
}

/// A packet of the name that was given, without an argument.
fn push_packet(alloc: Global, steps: &mut Vec<Step>, name: usize) -> Result<(), NoMemory>
    ensures { IfOk result (λ _. Puts steps.old.items steps.new.items (packed name)) }
{
    push_let(steps, SPARE, Operation::Make(0, Vec::new(alloc)))?;
    let operands = two(alloc, GIVEN, SPARE)?;
    push_let(steps, name, Operation::Plain(Plain::Pack, operands))
}

/// A use of a variable; of an exception's name it is a packet.
fn push_use(
    alloc: Global,
    setting: &Setting,
    scope: &Scope,
    steps: &mut Vec<Step>,
    name: usize,
    variable: usize,
) -> Result<(), NoMemory>
    ensures { IfOk result (λ _. (types : List Row) (strings : Texts) (n : Numbering) (F : Flow) (T : Table) → Holds setting.now types strings n F T
        → Puts steps.old.items steps.new.items (used n (n.is_name variable) scope.now name variable)) }
{
    let found = access(alloc, &setting.tags, scope, variable)?;
    if setting.is_name(variable) {
        push_let(steps, GIVEN, found)?;
        push_packet(alloc, steps, name)
    } else {
        push_let(steps, name, found)
    }
}

/// A call of a function that is one of a set; directly, where that has one member.
fn call(
    alloc: Global,
    setting: &Setting,
    place: Place,
    function: usize,
    argument: usize,
) -> Result<Operation, NoMemory>
    ensures { IfOk result (λ made. (types : List Row) (strings : Texts) (n : Numbering) (F : Flow) (T : Table) → Holds setting.now types strings n F T
        → operation_of made ≡ call_set n place (F.number (variable function)) (at F (variable function)) (var function) (var argument)) }
{
    let set = setting.flow.number(function);
    let closure = named(function)?;
    let argument = named(argument)?;
    match setting.sole(set) {
        Some(sole) => {
            let known = setting.code(sole)?;
            let operands = two(alloc, closure, argument)?;
            Ok(Operation::Call(place, Callee::Known(known), operands))
        }
        None => {
            let operands = one(alloc, argument)?;
            Ok(Operation::Call(place, Callee::OneOf { set, closure }, operands))
        }
    }
}

/// The parts of a record as those of its cell.
fn record_pieces(alloc: Global, fields: &[mono::Field]) -> Result<Vec<Piece>, NoMemory>
    ensures { IfOk result (λ pieces. map piece_of pieces.items ≡ field_pieces fields.now) }
{
    let mut pieces = Vec::new(alloc);
    for i in 0..fields.len() {
        let name = named(fields[i].atom)?;
        pieces.push(Piece::One(name))?;
    }
    Ok(pieces)
}

/// An operation on a variable.
fn push_plain(
    alloc: Global,
    steps: &mut Vec<Step>,
    name: usize,
    operation: Plain,
    operand: usize,
) -> Result<(), NoMemory>
    ensures { IfOk result (λ _. Puts steps.old.items steps.new.items (out.let_in name (a_plain (plain_of operation) (var operand)))) }
{
    let operand = named(operand)?;
    let made = plain(alloc, operation, operand)?;
    push_let(steps, name, made)
}

/// An exception of the initial basis is raised.
fn push_initial(
    alloc: Global,
    steps: &mut Vec<Step>,
    name: usize,
    exception: usize,
) -> Result<(), NoMemory>
    ensures { IfOk result (λ _. Puts steps.old.items steps.new.items
        (λ e. out.let_in clean.given (out.plain (op.initial exception) []) (packed clean.given (out.let_in name (out.raise clean.given) e)))) }
{
    push_let(
        steps,
        GIVEN,
        Operation::Plain(Plain::Initial(exception), Vec::new(alloc)),
    )?;
    push_packet(alloc, steps, GIVEN)?;
    push_let(steps, name, Operation::Raise(GIVEN))
}

/// A constructor with its argument.
fn push_construct(
    alloc: Global,
    steps: &mut Vec<Step>,
    name: usize,
    place: Option<Place>,
    tag: usize,
    argument: usize,
) -> Result<(), NoMemory>
    ensures { IfOk result (λ _. Puts steps.old.items steps.new.items (λ e. marked place (out.let_in name (a_make tag (var argument)) e))) }
{
    push_turn(steps, place)?;
    let argument = named(argument)?;
    let made = cell_of(alloc, tag, argument)?;
    push_let(steps, name, made)
}

/// A packet with its argument.
fn push_pack(
    alloc: Global,
    steps: &mut Vec<Step>,
    name: usize,
    place: Option<Place>,
    exception: usize,
    argument: usize,
) -> Result<(), NoMemory>
    ensures { IfOk result (λ _. Puts steps.old.items steps.new.items
        (λ e. marked place (out.let_in name (out.plain op.pack (var exception ∷ var argument ∷ [])) e))) }
{
    push_turn(steps, place)?;
    let exception = named(exception)?;
    let argument = named(argument)?;
    let operands = two(alloc, exception, argument)?;
    push_let(steps, name, Operation::Plain(Plain::Pack, operands))
}

/// A new reference.
fn push_refer(
    alloc: Global,
    steps: &mut Vec<Step>,
    name: usize,
    place: Option<Place>,
    argument: usize,
) -> Result<(), NoMemory>
    ensures { IfOk result (λ _. Puts steps.old.items steps.new.items (λ e. marked place (out.let_in name (out.plain op.refer (var argument ∷ [])) e))) }
{
    push_turn(steps, place)?;
    push_plain(alloc, steps, name, Plain::Refer, argument)
}

/// A primitive.
fn push_performed(
    alloc: Global,
    types: &Types,
    steps: &mut Vec<Step>,
    name: usize,
    place: Option<Place>,
    primitive: BasisPrimitive,
    ty: usize,
    arguments: &[usize],
) -> Result<(), NoMemory>
    ensures { IfOk result (λ _. Puts steps.old.items steps.new.items
        (λ e. marked place (out.let_in name (clean.performed types.now (sort_of primitive) primitive ty (map var arguments.now)) e))) }
{
    push_turn(steps, place)?;
    let arguments = all_named(alloc, arguments)?;
    push_let(steps, name, performed(types, primitive, ty, arguments))
}

/// A cell without parts.
fn push_empty(alloc: Global, steps: &mut Vec<Step>, name: usize, tag: usize) -> Result<(), NoMemory>
    ensures { IfOk result (λ _. Puts steps.old.items steps.new.items (out.let_in name (out.make tag []))) }
{
    push_let(steps, name, Operation::Make(tag, Vec::new(alloc)))
}

/// An operation whose value is bound, as steps behind those that are there.
pub fn push_operation(
    alloc: Global,
    types: &Types,
    setting: &Setting,
    scope: &Scope,
    variable: usize,
    operation: &mono::Operation,
    steps: &mut Vec<Step>,
) -> Result<(), NoMemory>
    ensures { IfOk result (λ _. (strings : Texts) (n : Numbering) (F : Flow) (T : Table) → Holds setting.now types.now strings n F T
        → Puts steps.old.items steps.new.items
        (convert_op n types.now F T scope.now variable (mono_operation_of (reading types.now strings) operation.now))) }
{
    let name = named(variable)?;
    match operation {
        mono::Operation::Use(used, _) => push_use(alloc, setting, scope, steps, name, *used),
        mono::Operation::Constant(literal) => {
            let made = Plain::Constant(constant(setting, *literal));
            push_let(steps, name, Operation::Plain(made, Vec::new(alloc)))
        }
        mono::Operation::Constructor { constructor, ty } => {
            let tag = setting.places.tag(*ty, *constructor)?;
            push_empty(alloc, steps, name, tag)
        }
        mono::Operation::Construct {
            place,
            constructor,
            ty,
            argument,
        } => {
            let tag = setting.places.tag(*ty, *constructor)?;
            push_construct(alloc, steps, name, *place, tag, *argument)
        }
        mono::Operation::Reference(_) => push_empty(alloc, steps, name, 0),
        mono::Operation::Refer {
            place,
            ty: _,
            argument,
        } => push_refer(alloc, steps, name, *place, *argument),
        mono::Operation::Content { ty: _, reference } => push_plain(
            alloc,
            steps,
            name,
            Plain::Content,
            *reference,
        ),
        mono::Operation::Pack {
            place,
            ty: _,
            exception,
            argument,
        } => push_pack(alloc, steps, name, *place, *exception, *argument),
        mono::Operation::Record { ty: _, fields } => {
            let pieces = record_pieces(alloc, fields)?;
            push_let(steps, name, Operation::Make(0, pieces))
        }
        mono::Operation::Select { ty, label, record } => {
            let place = setting.places.label(*ty, *label);
            push_plain(alloc, steps, name, Plain::Field(place), *record)
        }
        mono::Operation::Primitive(_, _) => push_empty(alloc, steps, name, 0),
        mono::Operation::Perform {
            place,
            primitive,
            ty,
            arguments,
        } => push_performed(
            alloc, types, steps, name, *place, *primitive, *ty, arguments,
        ),
        mono::Operation::Apply {
            place,
            function,
            argument,
        } => {
            let made = call(alloc, setting, *place, *function, *argument)?;
            push_let(steps, name, made)
        }
        mono::Operation::Raise(packet) => {
            let packet = named(*packet)?;
            push_let(steps, name, Operation::Raise(packet))
        }
        mono::Operation::RaiseInitial(exception) => push_initial(alloc, steps, name, *exception),
    }
}
