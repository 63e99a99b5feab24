// What is asked of types and primitives.
ghost use Rattle.std.specs.Prelude.{◌≡◌, ◌+◌, Some, IfOk};
ghost use Rattle.ty_core.specs.TypesOf.{head_of};
ghost use Rattle.ir_mono.specs.Types.{node, node_at};
ghost use Rattle.ir_poly.specs.Types.{prim_type};
ghost use Rattle.eta_expand.specs.Expand.{takes_argument, takes_at, gives_at, parts_at, is_single};

use ir_uses::shape::{Arguments, primitive_type};
use mlc_base::memory::NoMemory;
use mlc_prims::basis::BasisPrimitive;
use mono_types::types::{Types, View};
use scoped_map::scoped::Scoped;
use ty_core::ty::Head;

fn taken_by(head: &Head, parts: &[usize]) -> usize
    ensures { result ≡ takes_at (Some (node (head_of head.now) parts.now)) }
{
    match head {
        Head::Function => if parts.len() == 2 { parts[0] } else { 0 },
        Head::Named(_) => 0,
        Head::Record(_) => 0,
    }
}

/// What functions of a type take; 0 where it has none.
pub fn taken_at(types: &Types, ty: usize) -> usize
    ensures { result ≡ takes_at (node_at types.now ty) }
{
    match types.view(ty) {
        View::Nothing => 0,
        View::Apply(head, parts) => taken_by(head, parts),
    }
}

fn given_by(head: &Head, parts: &[usize]) -> usize
    ensures { result ≡ gives_at (Some (node (head_of head.now) parts.now)) }
{
    match head {
        Head::Function => if parts.len() == 2 { parts[1] } else { 0 },
        Head::Named(_) => 0,
        Head::Record(_) => 0,
    }
}

/// What functions of a type give; 0 where it has none.
pub fn given_at(types: &Types, ty: usize) -> usize
    ensures { result ≡ gives_at (node_at types.now ty) }
{
    match types.view(ty) {
        View::Nothing => 0,
        View::Apply(head, parts) => given_by(head, parts),
    }
}

fn fields_by<'a>(head: &'a Head, parts: &'a [usize]) -> &'a [usize]
    ensures { result.now ≡ parts_at (Some (node (head_of head.now) parts.now)) }
{
    match head {
        Head::Record(_) => parts,
        Head::Function => &[],
        Head::Named(_) => &[],
    }
}

/// The types of a record's fields; none where the type is no record's.
pub fn fields_at(types: &Types, ty: usize) -> &[usize]
    ensures { result.now ≡ parts_at (node_at types.now ty) }
{
    match types.view(ty) {
        View::Nothing => &[],
        View::Apply(head, parts) => fields_by(head, parts),
    }
}

/// Whether a primitive takes one argument, and no tuple.
pub fn takes_one(primitive: BasisPrimitive) -> bool
    ensures { result ≡ is_single (prim_type primitive).arguments }
{
    match primitive_type(primitive).arguments {
        Arguments::One(_) => true,
        Arguments::Two(_, _) => false,
        Arguments::Three(_, _, _) => false,
    }
}

/// Whether a variable is the name of an exception that takes an argument.
pub fn takes(names: &Scoped<bool>, variable: usize) -> bool
    ensures { result ≡ takes_argument names.now variable }
{
    match names.find(variable) {
        Some(takes) => takes,
        None => false,
    }
}

/// So many new numbers of variables: the first of them. No memory holds a program with more than there are.
pub fn take_numbers(next: &mut usize, count: usize) -> Result<usize, NoMemory>
    ensures first { IfOk result (λ first. first ≡ next.old) }
    ensures next { IfOk result (λ _. next.new ≡ next.old + count) }
{
    let first = *next;
    match first.checked_add(count) {
        Some(after) => {
            *next = after;
            Ok(first)
        }
        None => Err(NoMemory),
    }
}
