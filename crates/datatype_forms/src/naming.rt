// Names of datatypes: each new one has a number of the program's, in a naming of its own.
ghost use Rattle.std.specs.Prelude.{◌≡◌, ◌≤◌, length, true, IfOk};
ghost use Rattle.ty_basis.specs.Types.{name_count};
ghost use Rattle.elab_state.specs.Namings.{ComesBefore, IsAmong};
ghost use Rattle.datatype_forms.specs.Steps.{AreNamed, IsNaming};

use elab_context::context::Context;
use elab_state::naming::Naming;
use elab_state::state::State;
use mlc_base::memory::NoMemory;

/// The names of the basis.
const NAME_COUNT: u32 = 8;

/// Whether a naming that there is has an earlier name for its own.
fn is_before(namings: &[Naming], before: Option<usize>, stamp: u32) -> bool
    ensures { result ≡ true → ComesBefore namings.now before stamp }
{
    match before {
        None => true,
        Some(k) => k < namings.len() && namings[k].stamp < stamp,
    }
}

/// One more naming, of a name that is later than those of the naming before. No other is made.
fn push_naming(state: &mut State, naming: Naming) -> Result<usize, NoMemory>
    requires { name_count ≤ naming.stamp }
    ensures { IfOk result (IsNaming state.old naming state.new) }
{
    if !is_before(&state.namings, naming.before, naming.stamp) {
        return Err(NoMemory);
    }
    let number = state.namings.len();
    state.namings.push(naming)?;
    Ok(number)
}

/// The number that the program gives the next type name, if numbers are left.
fn next_number(state: &State) -> Result<u32, NoMemory> {
    let made = state.namings.len();
    if made >= (u32::MAX - NAME_COUNT) as usize {
        return Err(NoMemory);
    }
    Ok(NAME_COUNT + made as u32)
}

/// One more type name, with its number in the program.
fn add_name(state: &mut State, context: &mut Context) -> Result<(), NoMemory>
    requires wide { name_count ≤ context.old.names }
    requires among { IsAmong (length state.old.namings.items) context.old.naming }
    ensures { IfOk result (λ _. AreNamed state.old context.old 1 state.new context.new) }
{
    if context.names >= u32::MAX as usize {
        return Err(NoMemory);
    }
    let stamp = context.names as u32;
    let number = next_number(state)?;
    let naming = Naming {
        stamp,
        number,
        before: context.naming,
    };
    let k = push_naming(state, naming)?;
    context.numbers.bind(context.names, number)?;
    context.naming = Some(k);
    context.names += 1;
    Ok(())
}

/// So many more type names, with their numbers in the program.
pub fn add_names(state: &mut State, context: &mut Context, count: usize) -> Result<(), NoMemory>
    requires wide { name_count ≤ context.old.names }
    requires among { IsAmong (length state.old.namings.items) context.old.naming }
    ensures { IfOk result (λ _. AreNamed state.old context.old count state.new context.new) }
{
    let mut made = 0;
    while made < count {
        add_name(state, context)?;
        made += 1;
    }
    Ok(())
}
