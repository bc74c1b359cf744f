//! What the board shows.
use taf_codes::Railway;
use wagon_number::WagonNumber;

/// What the board shows. What it shows of a railway is what this railway may see.
#[derive(Clone, Copy, Debug, PartialEq, Eq)]
pub enum Resource {
    /// The page, which asks which railway.
    Entry,
    /// The page of a railway.
    Page(Railway),
    /// The wagons that the railway may see.
    Wagons(Railway),
    /// The legs of these wagons.
    Legs(Railway),
    /// A wagon, as the railway may see it.
    Wagon(Railway, WagonNumber),
    /// The legs of a wagon, as the railway may see them.
    WagonLegs(Railway, WagonNumber),
    /// Whether the hub runs.
    Health,
    /// What the hub counts.
    Metrics,
}

impl Resource {
    ghost use Rattle.std.specs.Prelude.{◌≡◌};
    ghost use Rattle.board_paths.specs.Paths.{railway_in};

    /// The railway whose resource it is; None for the entry, the health and the metrics, which are of none.
    pub fn railway(self) -> Option<Railway>
        ensures { result ≡ railway_in self }
    {
        match self {
            Resource::Page(railway)
            | Resource::Wagons(railway)
            | Resource::Legs(railway)
            | Resource::Wagon(railway, _)
            | Resource::WagonLegs(railway, _) => Some(railway),
            Resource::Entry | Resource::Health | Resource::Metrics => None,
        }
    }
}
