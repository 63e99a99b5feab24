// The numbers of labels, identifiers and names.
ghost use Rattle.std.specs.Prelude.{◌≡◌, ◌++◌, flat_map, map, IfOk};
ghost use Rattle.core_rules.specs.Scoping.{tyvar_names};
ghost use Rattle.restrictions.specs.Keys.{con_key, exn_key, label_key, vid_key};
ghost use Rattle.restrictions.specs.Nodes.{named_types};

use mlc_base::memory::NoMemory;
use mlc_names::label::Label;
use sml_tree::ident::{Tyvar, Vid};
use sml_tree::tree::{ConBind, DataBind, Dec, ExBind, ExpField, PatField, TyField, TypeBind};
use std::alloc::Global;

fn label_key(label: Label) -> usize
    ensures { result ≡ label_key label }
{
    match label {
        Label::Number(number) => number as usize + number as usize,
        Label::Word(name) => name.number() as usize + name.number() as usize + 1,
    }
}

fn vid_key(vid: Vid) -> usize
    ensures { result ≡ vid_key vid }
{
    match vid {
        Vid::Equals => 1,
        Vid::Named(name) => name.number() as usize + name.number() as usize + 2,
        Vid::Fresh(number) => number as usize + number as usize + 3,
    }
}

pub fn ty_keys(alloc: Global, fields: &[TyField]) -> Result<Vec<usize>, NoMemory>
    ensures { IfOk result (λ keys. keys.items ≡ map (λ f. label_key f.label) fields.now) }
{
    let mut keys = Vec::new(alloc);
    for i in 0..fields.len() {
        let field = &fields[i];
        keys.push(label_key(field.label))?;
    }
    Ok(keys)
}

pub fn pat_keys(alloc: Global, fields: &[PatField]) -> Result<Vec<usize>, NoMemory>
    ensures { IfOk result (λ keys. keys.items ≡ map (λ f. label_key f.label) fields.now) }
{
    let mut keys = Vec::new(alloc);
    for i in 0..fields.len() {
        let field = &fields[i];
        keys.push(label_key(field.label))?;
    }
    Ok(keys)
}

pub fn exp_keys(alloc: Global, fields: &[ExpField]) -> Result<Vec<usize>, NoMemory>
    ensures { IfOk result (λ keys. keys.items ≡ map (λ f. label_key f.label) fields.now) }
{
    let mut keys = Vec::new(alloc);
    for i in 0..fields.len() {
        let field = &fields[i];
        keys.push(label_key(field.label))?;
    }
    Ok(keys)
}

pub fn tyvar_keys(alloc: Global, tyvars: &[Tyvar]) -> Result<Vec<usize>, NoMemory>
    ensures { IfOk result (λ keys. keys.items ≡ tyvar_names tyvars.now) }
{
    let mut keys = Vec::new(alloc);
    for i in 0..tyvars.len() {
        let tyvar = tyvars[i];
        keys.push(tyvar.name.number() as usize)?;
    }
    Ok(keys)
}

pub fn push_type_names(binds: &[TypeBind], keys: &mut Vec<usize>) -> Result<(), NoMemory>
    ensures { IfOk result (λ _. keys.new.items ≡ keys.old.items ++ map (λ b. b.tycon) binds.now) }
{
    for i in 0..binds.len() {
        let bind = &binds[i];
        keys.push(bind.tycon.number() as usize)?;
    }
    Ok(())
}

pub fn push_data_names(binds: &[DataBind], keys: &mut Vec<usize>) -> Result<(), NoMemory>
    ensures { IfOk result (λ _. keys.new.items ≡ keys.old.items ++ map (λ b. b.tycon) binds.now) }
{
    for i in 0..binds.len() {
        let bind = &binds[i];
        keys.push(bind.tycon.number() as usize)?;
    }
    Ok(())
}

/// Those of constructors.
pub fn push_cons(cons: &[ConBind], keys: &mut Vec<usize>) -> Result<(), NoMemory>
    ensures { IfOk result (λ _. keys.new.items ≡ keys.old.items ++ map con_key cons.now) }
{
    for i in 0..cons.len() {
        let con = &cons[i];
        keys.push(vid_key(con.vid))?;
    }
    Ok(())
}

fn exn_key(bind: &ExBind) -> usize
    ensures { result ≡ exn_key bind.now }
{
    match bind {
        ExBind::New(_, vid, _) => vid_key(*vid),
        ExBind::Same(_, vid, _, _) => vid_key(*vid),
    }
}

/// Those of exceptions.
pub fn exn_keys(alloc: Global, binds: &[ExBind]) -> Result<Vec<usize>, NoMemory>
    ensures { IfOk result (λ keys. keys.items ≡ map exn_key binds.now) }
{
    let mut keys = Vec::new(alloc);
    for i in 0..binds.len() {
        let bind = &binds[i];
        keys.push(exn_key(bind))?;
    }
    Ok(keys)
}

/// The type constructors that a declaration names, as a sequence counts them.
fn push_named(dec: &Dec, keys: &mut Vec<usize>) -> Result<(), NoMemory>
    ensures { IfOk result (λ _. keys.new.items ≡ keys.old.items ++ named_types dec.now) }
{
    match dec {
        Dec::Val(_, _, _, _) => Ok(()),
        Dec::Fun(_, _, _) => Ok(()),
        Dec::Abbreviation(_, binds) => push_type_names(binds, keys),
        Dec::Datatype(_, binds) => push_data_names(binds, keys),
        Dec::Withtype(_, _, _) => Ok(()),
        Dec::Replicate(_, _, _) => Ok(()),
        Dec::Exception(_, _) => Ok(()),
        Dec::Local(_, _, _) => Ok(()),
        Dec::Open(_, _) => Ok(()),
        Dec::Declarations(_, _) => Ok(()),
    }
}

pub fn push_all_named(decs: &[Dec], keys: &mut Vec<usize>) -> Result<(), NoMemory>
    ensures { IfOk result (λ _. keys.new.items ≡ keys.old.items ++ flat_map named_types decs.now) }
{
    for i in 0..decs.len() {
        push_named(&decs[i], keys)?;
    }
    Ok(())
}
