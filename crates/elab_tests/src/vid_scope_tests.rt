// Scopes of identifiers.

use mlc_base::memory::NoMemory;
use sml_tree::ident::Vid;
use std::alloc::Global;
use std::test::Fail;
use vid_scope::vids::VidScope;

/// `=` has the value 1, and the seventh fresh identifier 2.
fn two(alloc: Global) -> Result<VidScope<u8>, NoMemory> {
    let mut scope = VidScope::new(alloc);
    scope.bind(Vid::Equals, 1)?;
    scope.bind(Vid::Fresh(7), 2)?;
    Ok(scope)
}

#[test]
fn kinds_are_apart(rt: HostRuntime) -> Result<(), Fail> {
    let scope = two(rt.alloc())?;
    assert_eq!(rt; scope.find(Vid::Equals), Some(1));
    assert_eq!(rt; scope.find(Vid::Fresh(7)), Some(2));
    assert_eq!(rt; scope.find(Vid::Fresh(0)), None);
    Ok(())
}

#[test]
fn what_was_before_comes_back(rt: HostRuntime) -> Result<(), Fail> {
    let mut scope = two(rt.alloc())?;
    let mark = scope.mark();
    scope.bind(Vid::Fresh(7), 3)?;
    assert_eq!(rt; scope.find(Vid::Fresh(7)), Some(3));
    scope.leave(mark);
    assert_eq!(rt; scope.find(Vid::Fresh(7)), Some(2));
    Ok(())
}
