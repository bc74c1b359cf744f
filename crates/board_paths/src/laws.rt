//! What follows from the definition of paths. The function does nothing: what it promises is proved.
ghost use Rattle.board_paths.specs.Paths.{PathsNameOneResource, WhatIsBelowIsTheRailways};

/// Two resources of one path are the same, and what has a path below that of a railway is that railway's.
pub fn paths_name_one_resource()
    ensures one { PathsNameOneResource }
    ensures railways { WhatIsBelowIsTheRailways }
{}
