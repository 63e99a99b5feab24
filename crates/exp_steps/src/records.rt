// Fields in the order of their labels.
ghost use Rattle.std.specs.Prelude.{◌≡◌, map, IfOk};
ghost use Rattle.label_rows.specs.Order.{sorted_by};
ghost use Rattle.exp_steps.specs.Rows.{field_of, plain_of};

use label_rows::sort::{Field as Labelled, sort_fields};
use mlc_base::memory::NoMemory;
use plain_tree::tree::Field;
use std::alloc::Global;

/// Fields that can be sorted.
fn as_labelled(alloc: Global, fields: &[Field]) -> Result<Vec<Labelled>, NoMemory>
    ensures { IfOk result (λ made. made.items ≡ map field_of fields.now) }
{
    let mut made = Vec::new(alloc);
    for i in 0..fields.len() {
        let field = fields[i];
        made.push(Labelled {
            label: field.label,
            part: field.atom,
        })?;
    }
    Ok(made)
}

/// Fields of a record with what stands in them.
fn as_plain(alloc: Global, fields: &[Labelled]) -> Result<Vec<Field>, NoMemory>
    ensures { IfOk result (λ made. made.items ≡ map plain_of fields.now) }
{
    let mut made = Vec::new(alloc);
    for i in 0..fields.len() {
        let field = fields[i];
        made.push(Field {
            label: field.label,
            atom: field.part,
        })?;
    }
    Ok(made)
}

/// The fields of a record in the order of their labels.
pub fn in_order(alloc: Global, fields: &[Field]) -> Result<Vec<Field>, NoMemory>
    ensures { IfOk result (λ made. made.items ≡ sorted_by (λ f. f.label) fields.now) }
{
    let labelled = as_labelled(alloc, fields)?;
    let sorted = sort_fields(alloc, &labelled)?;
    as_plain(alloc, &sorted)
}
