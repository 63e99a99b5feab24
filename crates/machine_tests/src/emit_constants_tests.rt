// Constants come with ample memory.

use emit_code::fault::EmitFault;
use emit_constants::constants::place_constants;
use first_tables::tables::Tables;
use mlc_names::names::Name;
use std::alloc::Global;
use std::test::Fail;

/// Of a program with two strings, an empty one first, and two exceptions of the basis: the words.
fn words(alloc: Global) -> Result<Vec<u32>, EmitFault> {
    let ab = Vec::from_slice(alloc, b"ab")?;
    let tables = Tables {
        initial: vec![in alloc; Name::standard(1), Name::standard(0)]?,
        strings: vec![in alloc; Vec::new(alloc), ab]?,
        types: Vec::new(alloc),
        sets: Vec::new(alloc),
    };
    let c = Vec::from_slice(alloc, b"c")?;
    let identifiers = vec![in alloc; Vec::new(alloc), c]?;
    let made = place_constants(alloc, &tables, &identifiers)?;
    Ok(made.words)
}

// 0 and 1, "ab" at 2, "c" at 5, the names at 7 (the empty text has no words), packets at 9.
#[test]
fn constants_come(rt: HostRuntime) -> Result<(), Fail> {
    assert_eq!(rt;
        words(rt.alloc())?.as_slice(),
        [0, 1, 2, 97, 98, 1, 99, 5, 0, 7, 0, 8, 0].as_slice()
    );
    Ok(())
}
