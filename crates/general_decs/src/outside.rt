// The context outside a declaration, while the state is inside.
ghost use Rattle.std.specs.Prelude.{◌≡◌, ◌<◌, ℕ, length, nat_eq, unwrap_or, IfOk};
ghost use Rattle.std.specs.Map.{lookup};
ghost use Rattle.elab_types.specs.Reading.{left_at};
ghost use Rattle.elab_context.specs.declared.context.Context.{Context as ContextOf};
ghost use Rattle.general_decs.specs.Outside.{outside, types_found, tyvars_onto};
ghost use Rattle.general_decs.specs.Scoped.{CameByName};

use crate::begin::Begun;
use elab_context::context::Context;
use elab_types::scope::TypeScope;
use mlc_base::memory::NoMemory;
use sml_tree::ident::Tyvar;
use std::alloc::Global;

/// The number of the type of a type variable that is in scope.
fn tyvar_at(scope: &TypeScope, tyvar: &Tyvar) -> usize
    ensures { result ≡ unwrap_or (lookup (nat_eq tyvar.now.name) scope.now.tyvars) 0 }
{
    match scope.tyvars.find(tyvar.name.number() as usize) {
        Some(number) => number,
        None => 0,
    }
}

/// The same of several.
fn tyvars_at(alloc: Global, scope: &TypeScope, tyvars: &[Tyvar]) -> Result<Vec<usize>, NoMemory>
    ensures { IfOk result (λ ts. ts.items ≡ types_found scope.now.tyvars tyvars.now) }
{
    let mut types = Vec::new(alloc);
    for i in 0..tyvars.len() {
        let ty = tyvar_at(scope, &tyvars[i]);
        types.push(ty)?;
    }
    Ok(types)
}

/// Brings type variables into scope, each for its type.
fn bind_again(scope: &mut TypeScope, tyvars: &[Tyvar], types: &[usize]) -> Result<(), NoMemory>
    requires { length types.now ≡ length tyvars.now }
    ensures tyvars { IfOk result (λ _. scope.new.tyvars ≡ tyvars_onto scope.old.tyvars tyvars.now types.now) }
    ensures types { IfOk result (λ _. scope.new.types ≡ scope.old.types) }
{
    for i in 0..tyvars.len() {
        let tyvar = &tyvars[i];
        let ty = types[i];
        scope.bind_tyvar(tyvar.name, ty)?;
    }
    Ok(())
}

/// Where a declaration was begun, how deep it is, and what its type variables stand for.
#[derive(Drop)]
pub struct Stepped {
    pub level: usize,
    pub types: Vec<usize>,
}

/// Out of a declaration: the context is the one outside.
pub fn step_out(
    alloc: Global,
    context: &mut Context,
    begun: Begun,
    scoped: &[Tyvar],
) -> Result<Stepped, NoMemory>
    requires { 0 < context.old.level }
    ensures outside { IfOk result (λ _. context.new ≡ outside context.old begun.tyvars) }
    ensures level { IfOk result (λ s. s.level ≡ context.old.level) }
    ensures types { IfOk result (λ s. s.types.items ≡ types_found context.old.types.tyvars scoped.now) }
{
    let types = tyvars_at(alloc, &context.types, scoped)?;
    let level = context.level;
    context.types.tyvars.truncate(begun.tyvars);
    context.level = level - 1;
    Ok(Stepped { level, types })
}

/// And into it again.
pub fn step_in(context: &mut Context, stepped: Stepped, scoped: &[Tyvar]) -> Result<(), NoMemory>
    requires { length stepped.types.items ≡ length scoped.now }
    ensures { IfOk result (λ _. (D : ContextOf) (n : ℕ) → context.old ≡ outside D n → stepped.level ≡ D.level
        → stepped.types.items ≡ types_found D.types.tyvars scoped.now → CameByName scoped.now (left_at n D.types.tyvars) D.types.tyvars → context.new ≡ D) }
{
    bind_again(&mut context.types, scoped, &stepped.types)?;
    context.level = stepped.level;
    Ok(())
}
