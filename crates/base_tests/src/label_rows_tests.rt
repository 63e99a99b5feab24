// Fields in order.

use label_rows::sort::{Field, sort_fields};
use mlc_base::memory::NoMemory;
use mlc_names::label::Label;
use std::alloc::Global;
use std::test::Fail;

fn numbered(label: u32, part: usize) -> Field {
    Field {
        label: Label::Number(label),
        part,
    }
}

/// The parts of the fields 3, 1, 4, 2 with the parts 0, 1, 2, 3.
fn parts(alloc: Global) -> Result<Vec<usize>, NoMemory> {
    let fields = [
        numbered(3, 0),
        numbered(1, 1),
        numbered(4, 2),
        numbered(2, 3),
    ];
    let sorted = sort_fields(alloc, &fields)?;
    let mut parts = Vec::new(alloc);
    for field in &sorted {
        parts.push(field.part)?;
    }
    Ok(parts)
}

#[test]
fn fields_are_sorted(rt: HostRuntime) -> Result<(), Fail> {
    let parts = parts(rt.alloc())?;
    assert_eq!(rt; parts.as_slice(), [1, 3, 0, 2].as_slice());
    Ok(())
}
