// A type as far as its first node.
ghost use Rattle.std.specs.Prelude.{◌≡◌};
ghost use Rattle.std.specs.Option.{option_map, option_and_then};
ghost use Rattle.ty_core.specs.TypesOf.{head_of};
ghost use Rattle.ir_mono.specs.Types.{node, node_at};
ghost use Rattle.mono_uses.specs.Nodes.{alone_in, single_in, two_in, name_in, applied_in, function_in, record_in};

use mlc_names::label::Label;
use mono_types::types::{Types, View};
use ty_core::name::TyName;
use ty_core::ty::Head;

/// The type name, if it has no arguments.
fn alone(name: TyName, parts: &[usize]) -> Option<TyName>
    ensures { result ≡ alone_in name parts.now }
{
    if parts.is_empty() { Some(name) } else { None }
}

fn name_of(head: &Head, parts: &[usize]) -> Option<TyName>
    ensures { result ≡ name_in (node (head_of head.now) parts.now) }
{
    match head {
        Head::Named(name) => alone(*name, parts),
        Head::Function => None,
        Head::Record(_) => None,
    }
}

/// The type name of a type that has no parts.
pub fn type_name(types: &Types, n: usize) -> Option<TyName>
    ensures { result ≡ option_and_then name_in (node_at types.now n) }
{
    match types.view(n) {
        View::Nothing => None,
        View::Apply(head, parts) => name_of(head, parts),
    }
}

/// The type name with its argument, if it has one.
fn single(name: TyName, parts: &[usize]) -> Option<(TyName, usize)>
    ensures { result ≡ single_in name parts.now }
{
    if parts.len() == 1 {
        Some((name, parts[0]))
    } else {
        None
    }
}

fn applied_of(head: &Head, parts: &[usize]) -> Option<(TyName, usize)>
    ensures { result ≡ applied_in (node (head_of head.now) parts.now) }
{
    match head {
        Head::Named(name) => single(*name, parts),
        Head::Function => None,
        Head::Record(_) => None,
    }
}

/// The type name of a type that has one part, and that.
pub fn applied(types: &Types, n: usize) -> Option<(TyName, usize)>
    ensures { result ≡ option_and_then applied_in (node_at types.now n) }
{
    match types.view(n) {
        View::Nothing => None,
        View::Apply(head, parts) => applied_of(head, parts),
    }
}

/// Both parts, if there are two.
fn two(parts: &[usize]) -> Option<(usize, usize)>
    ensures { result ≡ two_in parts.now }
{
    if parts.len() == 2 {
        Some((parts[0], parts[1]))
    } else {
        None
    }
}

fn function_of(head: &Head, parts: &[usize]) -> Option<(usize, usize)>
    ensures { result ≡ function_in (node (head_of head.now) parts.now) }
{
    match head {
        Head::Function => two(parts),
        Head::Named(_) => None,
        Head::Record(_) => None,
    }
}

/// What functions of a type take and give.
pub fn function_parts(types: &Types, n: usize) -> Option<(usize, usize)>
    ensures { result ≡ option_and_then function_in (node_at types.now n) }
{
    match types.view(n) {
        View::Nothing => None,
        View::Apply(head, parts) => function_of(head, parts),
    }
}

fn record_of<'a>(head: &'a Head, parts: &'a [usize]) -> Option<(&'a [Label], &'a [usize])>
    ensures { option_map (λ r. (r.0.now, r.1.now)) result ≡ record_in (node (head_of head.now) parts.now) }
{
    match head {
        Head::Record(labels) => Some((labels.as_slice(), parts)),
        Head::Function => None,
        Head::Named(_) => None,
    }
}

/// The labels of records of a type, and the types of their fields.
pub fn record_parts(types: &Types, n: usize) -> Option<(&[Label], &[usize])>
    ensures { option_map (λ r. (r.0.now, r.1.now)) result ≡ option_and_then record_in (node_at types.now n) }
{
    match types.view(n) {
        View::Nothing => None,
        View::Apply(head, parts) => record_of(head, parts),
    }
}
