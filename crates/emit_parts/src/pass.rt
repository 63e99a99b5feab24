// Labels and the scopes of variables.

ghost use Rattle.std.specs.Prelude.{◌≡◌, suc, true, ◌+◌, ◌-◌, [], ◌∷◌, ◌++◌, drop, length, slice_set, ◌≢◌, IfErr, IfOk, OnOk, get_or};
ghost use Rattle.machine_code.specs.Code.{no_spot, with_params};
ghost use Rattle.emit_parts.specs.Labels.{label_in, spot_of, spots_of};
ghost use Rattle.emit_parts.specs.declared.fault.WalkFault.TheVariants.{Unsettled};

use crate::fault::WalkFault;
use emit_code::fault::EmitFault;
use emit_code::places::Places;
use emit_code::put::{here, sum};
use ir_code::instr::Instr;
use scoped_map::scoped::Scoped;

/// A label: where its block stands, how deep the frame is there, and the record of the handler that is left on the way.
#[derive(Clone, Copy)]
pub struct Spot {
    pub place: u32,
    pub depth: u32,
    pub leaves: Option<u32>,
}

/// A label whose place comes later: its number, the next.
pub fn reserve(found: &mut Vec<u32>) -> Result<usize, EmitFault>
    ensures number { IfOk result (λ number. number ≡ length found.old.items) }
    ensures found { OnOk result (found.new.items ≡ found.old.items ++ 0 ∷ []) }
{
    let number = found.len();
    found.push(0)?;
    Ok(number)
}

/// The label of a number stands here. In a sure walk it is where the places say, or they are wrong.
pub fn settle(
    code: &Vec<Instr>,
    found: &mut Vec<u32>,
    at: &Places,
    sure: bool,
    number: usize,
) -> Result<(), WalkFault>
    ensures sure { OnOk result (sure ≡ true → label_in at.now number ≡ length code.now.items) }
    ensures found { OnOk result (found.new.items ≡ slice_set found.old.items number (length code.now.items)) }
    ensures told { IfErr result (λ fault. (sure ≡ true → label_in at.now number ≡ length code.now.items) → fault ≢ Unsettled) }
{
    let place = here(code)?;
    if sure && at.label(number) != place {
        return Err(WalkFault::Unsettled);
    }
    if number < found.len() {
        found[number] = place;
    }
    Ok(())
}

/// A variable in the next slot.
pub fn bind(slots: &mut Scoped<u32>, depth: &mut u32, variable: usize) -> Result<(), EmitFault>
    ensures slots { OnOk result (slots.new ≡ (variable, depth.old) ∷ slots.old) }
    ensures depth { OnOk result (depth.new ≡ suc depth.old) }
{
    slots.bind(variable, *depth)?;
    *depth = sum(*depth, 1)?;
    Ok(())
}

/// Variables in the next slots.
pub fn bind_all(
    slots: &mut Scoped<u32>,
    depth: &mut u32,
    variables: &[usize],
) -> Result<(), EmitFault>
    ensures slots { OnOk result (slots.new ≡ with_params variables.now depth.old slots.old) }
    ensures depth { OnOk result (depth.new ≡ depth.old + length variables.now) }
{
    for variable in variables {
        bind(slots, depth, *variable)?;
    }
    Ok(())
}

/// Leaves the scope of the latest variables.
pub fn leave(slots: &mut Scoped<u32>, depth: &mut u32, count: usize)
    ensures slots { slots.new ≡ drop count slots.old }
    ensures depth { depth.new ≡ depth.old - count }
{
    let all = slots.len();
    slots.truncate(if count <= all { all - count } else { 0 });
    *depth = if count <= *depth as usize {
        *depth - count as u32
    } else {
        0
    };
}

/// A label inside the others.
pub fn push_spot(spots: &mut Vec<Spot>, spot: Spot) -> Result<(), EmitFault>
    ensures { OnOk result (spots_of spots.new.items ≡ spot_of spot ∷ spots_of spots.old.items) }
{
    spots.push(spot)?;
    Ok(())
}

/// Leaves the innermost label.
pub fn pop_spot(spots: &mut Vec<Spot>)
    ensures { spots_of spots.new.items ≡ drop 1 (spots_of spots.old.items) }
{
    spots.pop();
}

/// The label behind that of a number.
pub fn next_label(number: usize) -> Result<usize, EmitFault>
    ensures { IfOk result (λ next. next ≡ suc number) }
{
    match number.checked_add(1) {
        Some(next) => Ok(next),
        None => Err(EmitFault::NoWord),
    }
}

/// The element of a number, or 0.
pub fn number_at(numbers: &[usize], number: usize) -> usize
    ensures { result ≡ get_or numbers.now number 0 }
{
    match numbers.get(number) {
        Some(found) => *found,
        None => 0,
    }
}

/// A label, counted from the innermost.
pub fn spot_at(spots: &[Spot], number: usize) -> Spot
    ensures { spot_of result ≡ get_or (spots_of spots.now) number no_spot }
{
    if number < spots.len() {
        spots[spots.len() - 1 - number]
    } else {
        Spot {
            place: 0,
            depth: 0,
            leaves: None,
        }
    }
}
