//! What the board shows, by the path that is asked for.
//!
//! | path | resource |
//! |---|---|
//! | `/` | [`Resource::Entry`] |
//! | `/R101/` | [`Resource::Page`] of the railway R101 |
//! | `/R101/wagons.json` | [`Resource::Wagons`] that it may see |
//! | `/R101/legs.json` | [`Resource::Legs`] of these wagons |
//! | `/R101/wagons/218124712173.json` | [`Resource::Wagon`], as it may see it |
//! | `/R101/wagons/218124712173/legs.json` | [`Resource::WagonLegs`], the legs of this wagon |
//! | `/health`, `/metrics` | [`Resource::Health`], [`Resource::Metrics`] |
//!
//! # What is promised
//!
//! [`resource_of`] gives the resource whose path it is given, and none exactly where no resource has this path. Two resources of one
//! path are the same, and what has a path below that of a railway is that railway's ([`paths_name_one_resource`]), so whoever may ask
//! for nothing but `/R101/..` is shown nothing of another railway. Paths are compared byte by byte: none is decoded or normalized
//! (`specs/Paths.antt`). No call takes memory.
//!
//! | part | what it has |
//! |---|---|
//! | `resource` | what the board shows |
//! | `path` | the resource that a path names |
//! | `laws` | what follows from the definition of paths |
#![tactic(auto)]

mod laws;
mod path;
mod resource;

pub use laws::paths_name_one_resource;
pub use path::resource_of;
pub use resource::Resource;
