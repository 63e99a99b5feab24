// Bindings are found, and undone.

use mlc_base::memory::NoMemory;
use scoped_map::scoped::Scoped;
use std::alloc::Global;
use std::test::Fail;

/// 7 has the value 1 and then 2, and 8 has 3.
fn three(alloc: Global) -> Result<Scoped<u8>, NoMemory> {
    let mut scoped = Scoped::new(alloc);
    scoped.bind(7, 1)?;
    scoped.bind(7, 2)?;
    scoped.bind(8, 3)?;
    Ok(scoped)
}

#[test]
fn the_latest_is_found(rt: HostRuntime) -> Result<(), Fail> {
    let scoped = three(rt.alloc())?;
    assert_eq!(rt; scoped.find(7), Some(2));
    assert_eq!(rt; scoped.find(8), Some(3));
    assert_eq!(rt; scoped.find(9), None);
    Ok(())
}

#[test]
fn what_was_before_comes_back(rt: HostRuntime) -> Result<(), Fail> {
    let mut scoped = three(rt.alloc())?;
    scoped.truncate(1);
    assert_eq!(rt; scoped.len(), 1);
    assert_eq!(rt; scoped.find(7), Some(1));
    assert_eq!(rt; scoped.find(8), None);
    Ok(())
}
