//! Lists that are made before the first thread starts, with room for all that comes into them.
ghost use Rattle.std.specs.Prelude.{IfOk};
ghost use Rattle.session_lanes.specs.Room.{IsEmptyWithRoom};

use std::alloc::Global;
use taf_codes::Memory;

/// An empty list with room for so many items. Want of memory is the only error.
pub fn with_room<T>(alloc: Global, count: usize) -> Result<Vec<T>, Memory>
    ensures { IfOk result (λ list. IsEmptyWithRoom list count) }
{
    match Vec::with_capacity(alloc, count) {
        Ok(list) => Ok(list),
        Err(_) => Err(Memory),
    }
}
