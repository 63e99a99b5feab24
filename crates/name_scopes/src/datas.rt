// Declarations of types and exceptions, replication and `open`.
ghost use Rattle.core_rules.specs.Eval.{datatypes_env, long_structure_in, opened, types_env};
ghost use Rattle.core_rules.specs.Restrictions.{exn_vids};
ghost use Rattle.core_rules.specs.Unbound.{all_in, exns_names, tycons_names};
ghost use Rattle.core_rules.specs.Values.{Env, nothing, plus};
ghost use Rattle.sml_tree.specs.Derived.{expand_con, expand_some};
ghost use Rattle.sml_tree.specs.Phrases.{con_bind, data_bind, some_ty};
ghost use Rattle.sml_tree.specs.TreeOf.{con_bind_of, data_bind_of, ex_bind_of, long_id_at_of, some_ty_of, type_bind_of};
ghost use Rattle.std.specs.Prelude.{IfOk, IsTrue, List, [], is_some, map, unwrap_or, ◌++◌, ◌∷◌, ◌≡◌};
ghost use Rattle.name_scopes.specs.Covering.{Covers};
ghost use Rattle.name_scopes.specs.Entries.{con_entries, data_entries};
ghost use Rattle.name_scopes.specs.Nodes.{exn_phrase, type_phrase};
ghost use Rattle.name_scopes.specs.Parts.{datatype_scopes, expanded, replica_names, replica_unbound, structures_unbound, withtype_scopes};
ghost use Rattle.name_scopes.specs.Placed.{AnyAt, At, Brought, Declared, FoundAt};
ghost use Rattle.name_scopes.specs.Types.{AreNamed};
ghost use Rattle.sml_tree.specs.BareTree.{TypeBind as BareTypeBind};

use crate::basis::bind_members;
use crate::bound::Bound;
use crate::look_ups::{find_structure, is_at, is_unbound_tycon, is_unbound_value};
use crate::pats::in_some_ty;
use crate::scope::Scope;
use crate::sought::Sought;
use crate::tys::{in_ty, in_written};
use mlc_base::memory::NoMemory;
use mlc_names::names::Name;
use scoped_map::scoped::Scoped;
use sml_tree::ident::Vid;
use sml_tree::tree::{ConBind, DataBind, ExBind, LongIdAt, Ty, TypeBind};
use std::alloc::Global;

/// Type constructors that aren't bound, in bindings of types.
fn in_types(alloc: Global, sought: &Sought, binds: &[TypeBind], scope: &Scope) -> bool
    ensures { IsTrue result → (e : Env) → Covers scope.now e → AnyAt sought.now (all_in e (map type_phrase binds.now)) }
{
    for i in 0..binds.len() {
        let bind = &binds[i];
        if in_ty(alloc, sought, &bind.ty, scope) {
            return true;
        }
    }
    false
}

fn bind_types(binds: &[TypeBind], scope: &mut Scope) -> Result<(), NoMemory>
    ensures { IfOk result (λ _. Brought scope.old scope.new (λ e. types_env (map type_bind_of binds.now))) }
{
    let mut i = binds.len();
    while i > 0 {
        i -= 1;
        let bind = &binds[i];
        scope.bind(Bound::Tycon(bind.tycon, 0))?;
    }
    Ok(())
}

/// `type`: looked through, and brought into scope.
pub fn in_type_dec(
    alloc: Global,
    sought: &Sought,
    binds: &[TypeBind],
    scope: &mut Scope,
) -> Result<bool, NoMemory>
    ensures { IfOk result (λ found. Declared found scope.old scope.new (λ e. AnyAt sought.now (all_in e (map type_phrase binds.now)))
        (λ e. types_env (map type_bind_of binds.now))) }
{
    if in_types(alloc, sought, binds, scope) {
        return Ok(true);
    }
    bind_types(binds, scope)?;
    Ok(false)
}

fn in_some_written(sought: &Sought, ty: &Option<Ty>, within: &Scoped<usize>, scope: &Scope) -> bool
    ensures { IsTrue result → (bs : List BareTypeBind) (e : Env) → AreNamed bs within.now → Covers scope.now e
        → AnyAt sought.now (all_in e (some_ty (expand_some bs (some_ty_of ty.now)))) }
{
    match ty {
        Some(ty) => in_written(sought, ty, within, scope),
        None => false,
    }
}

fn in_cons(sought: &Sought, cons: &[ConBind], within: &Scoped<usize>, scope: &Scope) -> bool
    ensures { IsTrue result → (bs : List BareTypeBind) (e : Env) → AreNamed bs within.now → Covers scope.now e
        → AnyAt sought.now (all_in e (map con_bind (map (expand_con bs) (map con_bind_of cons.now)))) }
{
    for i in 0..cons.len() {
        let con = &cons[i];
        if in_some_written(sought, &con.of_ty, within, scope) {
            return true;
        }
    }
    false
}

fn in_datas(sought: &Sought, datas: &[DataBind], within: &Scoped<usize>, scope: &Scope) -> bool
    ensures { IsTrue result → (bs : List BareTypeBind) (e : Env) → AreNamed bs within.now → Covers scope.now e
        → AnyAt sought.now (all_in e (map data_bind (expanded bs datas.now))) }
{
    for i in 0..datas.len() {
        let datatype = &datas[i];
        if in_cons(sought, &datatype.cons, within, scope) {
            return true;
        }
    }
    false
}

/// The names of datatypes, of which nothing else is known yet.
fn bind_names(datas: &[DataBind], scope: &mut Scope) -> Result<(), NoMemory>
    ensures { IfOk result (λ _. (bs : List BareTypeBind) → Brought scope.old scope.new (λ e. tycons_names (expanded bs datas.now))) }
{
    let mut i = datas.len();
    while i > 0 {
        i -= 1;
        let datatype = &datas[i];
        scope.bind(Bound::Tycon(datatype.tycon, 0))?;
    }
    Ok(())
}

/// The constructors of a datatype.
fn bind_cons(cons: &[ConBind], scope: &mut Scope) -> Result<(), NoMemory>
    ensures { IfOk result (λ _. scope.new ≡ con_entries (map (λ c. c.vid) cons.now) ++ scope.old) }
{
    let mut i = cons.len();
    while i > 0 {
        i -= 1;
        let con = &cons[i];
        scope.bind(Bound::Value(con.vid, false))?;
    }
    Ok(())
}

fn bind_data(datatype: &DataBind, scope: &mut Scope) -> Result<(), NoMemory>
    ensures { IfOk result (λ _. scope.new ≡ data_entries (data_bind_of datatype.now) ++ scope.old) }
{
    bind_cons(&datatype.cons, scope)?;
    scope.bind(Bound::Tycon(datatype.tycon, datatype.cons.len()))
}

/// Datatypes, with their constructors.
fn bind_datas(datas: &[DataBind], scope: &mut Scope) -> Result<(), NoMemory>
    ensures { IfOk result (λ _. (bs : List BareTypeBind) → Brought scope.old scope.new (λ e. datatypes_env (expanded bs datas.now))) }
{
    let mut i = datas.len();
    while i > 0 {
        i -= 1;
        bind_data(&datas[i], scope)?;
    }
    Ok(())
}

/// Datatypes with abbreviations of these names: looked through, and brought into scope.
fn in_declared(
    sought: &Sought,
    datas: &[DataBind],
    within: &Scoped<usize>,
    scope: &mut Scope,
) -> Result<bool, NoMemory>
    ensures { IfOk result (λ found. (bs : List BareTypeBind) → AreNamed bs within.now → Declared found scope.old scope.new
        (λ e. AnyAt sought.now (datatype_scopes bs e datas.now))
        (λ e. datatypes_env (expanded bs datas.now))) }
{
    let before = scope.len();
    bind_names(datas, scope)?;
    if in_datas(sought, datas, within, scope) {
        return Ok(true);
    }
    scope.leave(before);
    bind_datas(datas, scope)?;
    Ok(false)
}

/// `datatype`.
pub fn in_datatype(
    alloc: Global,
    sought: &Sought,
    datas: &[DataBind],
    scope: &mut Scope,
) -> Result<bool, NoMemory>
    ensures { IfOk result (λ found. Declared found scope.old scope.new
        (λ e. AnyAt sought.now (datatype_scopes [] e datas.now))
        (λ e. datatypes_env (expanded [] datas.now))) }
{
    let none = Scoped::new(alloc);
    in_declared(sought, datas, &none, scope)
}

/// The names of abbreviations.
fn names_of(alloc: Global, types: &[TypeBind]) -> Result<Scoped<usize>, NoMemory>
    ensures { IfOk result (λ names. AreNamed (map type_bind_of types.now) names) }
{
    let mut names = Scoped::new(alloc);
    let mut i = types.len();
    while i > 0 {
        i -= 1;
        let bind = &types[i];
        names.bind(bind.tycon.number() as usize, 0)?;
    }
    Ok(names)
}

/// `datatype .. withtype ..`.
pub fn in_withtype(
    alloc: Global,
    sought: &Sought,
    datas: &[DataBind],
    types: &[TypeBind],
    scope: &mut Scope,
) -> Result<bool, NoMemory>
    ensures { IfOk result (λ found. Declared found scope.old scope.new (λ e. AnyAt sought.now (withtype_scopes e datas.now types.now))
        (λ e. plus (datatypes_env (expanded (map type_bind_of types.now) datas.now)) (types_env (map type_bind_of types.now)))) }
{
    let names = names_of(alloc, types)?;
    if in_declared(sought, datas, &names, scope)? {
        return Ok(true);
    }
    in_type_dec(alloc, sought, types, scope)
}

fn in_exn(alloc: Global, sought: &Sought, bind: &ExBind, scope: &Scope) -> bool
    ensures { IsTrue result → (e : Env) → Covers scope.now e → FoundAt sought.now e (exn_phrase bind.now) }
{
    match bind {
        ExBind::New(_, _, ty) => in_some_ty(alloc, sought, ty, scope),
        ExBind::Same(_, _, at, long) => is_at(*at, sought) && is_unbound_value(long, scope),
    }
}

fn in_exns(alloc: Global, sought: &Sought, binds: &[ExBind], scope: &Scope) -> bool
    ensures { IsTrue result → (e : Env) → Covers scope.now e → AnyAt sought.now (all_in e (map exn_phrase binds.now)) }
{
    for i in 0..binds.len() {
        if in_exn(alloc, sought, &binds[i], scope) {
            return true;
        }
    }
    false
}

fn exn_vid(bind: &ExBind) -> Vid
    ensures { exn_vids (ex_bind_of bind.now ∷ []) ≡ result ∷ [] }
{
    match bind {
        ExBind::New(_, vid, _) => *vid,
        ExBind::Same(_, vid, _, _) => *vid,
    }
}

fn bind_exns(binds: &[ExBind], scope: &mut Scope) -> Result<(), NoMemory>
    ensures { IfOk result (λ _. Brought scope.old scope.new (λ e. exns_names (map ex_bind_of binds.now))) }
{
    let mut i = binds.len();
    while i > 0 {
        i -= 1;
        scope.bind(Bound::Value(exn_vid(&binds[i]), false))?;
    }
    Ok(())
}

/// `exception`.
pub fn in_exception(
    alloc: Global,
    sought: &Sought,
    binds: &[ExBind],
    scope: &mut Scope,
) -> Result<bool, NoMemory>
    ensures { IfOk result (λ found. Declared found scope.old scope.new (λ e. AnyAt sought.now (all_in e (map exn_phrase binds.now)))
        (λ e. exns_names (map ex_bind_of binds.now))) }
{
    if in_exns(alloc, sought, binds, scope) {
        return Ok(true);
    }
    bind_exns(binds, scope)?;
    Ok(false)
}

/// Binds a type constructor to what another one is, with its constructors.
fn bind_replica(
    alloc: Global,
    name: Name,
    long: &LongIdAt,
    scope: &mut Scope,
) -> Result<(), NoMemory>
    ensures { IfOk result (λ _. Brought scope.old scope.new (λ e. replica_names e name (long_id_at_of long.now))) }
{
    if long.long.qualifiers.len() > 0 {
        return Ok(());
    }
    match scope.constructors(alloc, long.long.id)? {
        Some(constructors) => {
            scope.bind_all(&constructors)?;
            scope.bind(Bound::Tycon(name, constructors.len()))
        }
        None => Ok(()),
    }
}

/// `datatype .. = datatype ..`.
pub fn in_replicate(
    alloc: Global,
    sought: &Sought,
    name: Name,
    long: &LongIdAt,
    scope: &mut Scope,
) -> Result<bool, NoMemory>
    ensures { IfOk result (λ found. Declared found scope.old scope.new (λ e. At sought.now (replica_unbound e (long_id_at_of long.now)))
        (λ e. replica_names e name (long_id_at_of long.now))) }
{
    if is_at(long.place, sought) && is_unbound_tycon(&long.long, scope) {
        return Ok(true);
    }
    bind_replica(alloc, name, long, scope)?;
    Ok(false)
}

/// Whether a structure that isn't bound is looked for and found.
fn in_structures(sought: &Sought, longs: &[LongIdAt], scope: &Scope) -> bool
    ensures { IsTrue result → (e : Env) → Covers scope.now e → At sought.now (structures_unbound e (map long_id_at_of longs.now)) }
{
    for i in 0..longs.len() {
        let long = &longs[i];
        if is_at(long.place, sought) && find_structure(&long.long, scope).is_none() {
            return true;
        }
    }
    false
}

fn are_structures(longs: &[LongIdAt], scope: &Scope) -> bool
    ensures { (e : Env) → Covers scope.now e → result ≡ is_some (opened e (map long_id_at_of longs.now)) }
{
    for i in 0..longs.len() {
        let long = &longs[i];
        if find_structure(&long.long, scope).is_none() {
            return false;
        }
    }
    true
}

/// Brings what a structure has into scope, where it is bound.
fn bind_structure(long: &LongIdAt, scope: &mut Scope) -> Result<(), NoMemory>
    ensures { IfOk result (λ _. Brought scope.old scope.new (λ e. unwrap_or (long_structure_in e (long_id_at_of long.now)) nothing)) }
{
    match find_structure(&long.long, scope) {
        Some(members) => bind_members(scope, members),
        None => Ok(()),
    }
}

/// Brings what structures have into scope, where all of them are bound.
fn bind_opened(longs: &[LongIdAt], scope: &mut Scope) -> Result<(), NoMemory>
    ensures { IfOk result (λ _. Brought scope.old scope.new (λ e. unwrap_or (opened e (map long_id_at_of longs.now)) nothing)) }
{
    if are_structures(longs, scope) {
        for i in 0..longs.len() {
            bind_structure(&longs[i], scope)?;
        }
    }
    Ok(())
}

/// `open`.
pub fn in_open(sought: &Sought, longs: &[LongIdAt], scope: &mut Scope) -> Result<bool, NoMemory>
    ensures { IfOk result (λ found. Declared found scope.old scope.new (λ e. At sought.now (structures_unbound e (map long_id_at_of longs.now)))
        (λ e. unwrap_or (opened e (map long_id_at_of longs.now)) nothing)) }
{
    if in_structures(sought, longs, scope) {
        return Ok(true);
    }
    bind_opened(longs, scope)?;
    Ok(false)
}
