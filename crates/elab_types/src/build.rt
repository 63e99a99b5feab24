// Types of parts.
ghost use Rattle.std.specs.Prelude.{◌≡◌, ◌<◌, ◌∷◌, [], map, length, slice_get, take, IfOk, Some, reverse};
ghost use Rattle.ty_core.specs.Types.{con, labels, arrow};
ghost use Rattle.ty_table.specs.TypeAt.{type_at, types_at, AllBelow};
ghost use Rattle.label_rows.specs.Sorting.{sorted};
ghost use Rattle.elab_types.specs.Building.{labels_of, parts_of, functions, numbered_from};

use label_rows::sort::{Field, sort_fields};
use mlc_base::memory::NoMemory;
use mlc_names::label::Label;
use std::alloc::Global;
use ty_core::ty::Head;
use ty_table::types::Types;

/// Each part, after its place among the parts.
pub fn number_parts(alloc: Global, parts: &[usize]) -> Result<Vec<Field>, NoMemory>
    ensures { IfOk result (λ fields. fields.items ≡ numbered_from 1 parts.now) }
{
    let mut fields = Vec::new(alloc);
    for i in 0..parts.len() {
        if i >= u32::MAX as usize {
            return Err(NoMemory);
        }
        fields.push(Field {
            label: Label::Number((i + 1) as u32),
            part: parts[i],
        })?;
    }
    Ok(fields)
}

/// The type of records with these fields, however they are written.
pub fn record_type(alloc: Global, types: &mut Types, fields: &[Field]) -> Result<usize, NoMemory>
    requires { AllBelow (length types.old) (parts_of fields.now) }
    ensures is { IfOk result (λ r. slice_get types.new r
        ≡ Some (con (labels (labels_of (sorted fields.now))) (types_at types.old (parts_of (sorted fields.now))))) }
    ensures earlier_stay { take (length types.old) types.new ≡ types.old }
{
    let fields = sort_fields(alloc, fields)?;
    let mut names = Vec::new(alloc);
    let mut parts = Vec::new(alloc);
    for i in 0..fields.len() {
        names.push(fields[i].label)?;
        parts.push(fields[i].part)?;
    }
    types.apply(alloc, Head::Record(names), &parts)
}

/// The type of functions from a type to a type.
pub fn function_type(
    alloc: Global,
    types: &mut Types,
    argument: usize,
    result_type: usize,
) -> Result<usize, NoMemory>
    requires argument { argument < length types.old }
    requires result_type { result_type < length types.old }
    ensures is { IfOk result (λ r. slice_get types.new r ≡ Some (con arrow (types_at types.old (argument ∷ result_type ∷ [])))) }
    ensures earlier_stay { take (length types.old) types.new ≡ types.old }
{
    types.apply(alloc, Head::Function, &[argument, result_type])
}

/// The type of functions of so many arguments, the last of which is the result.
pub fn function_types(
    alloc: Global,
    types: &mut Types,
    first: usize,
    rest: &[usize],
) -> Result<usize, NoMemory>
    requires first { first < length types.old }
    requires rest { AllBelow (length types.old) rest.now }
    ensures is { IfOk result (λ r. slice_get types.new r ≡ Some (functions (type_at types.old first) (map (type_at types.old) rest.now))) }
    ensures earlier_stay { take (length types.old) types.new ≡ types.old }
{
    let count = rest.len();
    if count == 0 {
        return Ok(first);
    }
    let mut last = count - 1;
    let mut made = rest[last];
    while last > 0 {
        last -= 1;
        made = function_type(alloc, types, rest[last], made)?;
    }
    function_type(alloc, types, first, made)
}
