// Which phrases are broken.

use crate::run::is_broken;
use crate::sources::SOURCES;
use std::test::Fail;

#[test]
fn the_first_place_is_found(rt: HostRuntime) -> Result<(), Fail> {
    for (source, byte) in SOURCES.iter() {
        is_broken(&rt, rt.alloc(), source, *byte)?;
    }
    Ok(())
}
