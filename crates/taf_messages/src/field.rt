ghost use Rattle.std.specs.Prelude.{◌≡◌};
ghost use Rattle.taf_messages.specs.Names.{field_name};

/// A field of a record, or of an object in a record's list.
#[derive(Clone, Copy, Debug, PartialEq, Eq)]
pub enum Field {
    From,
    No,
    Consignment,
    Load,
    Commit,
    Wagons,
    Legs,
    Units,
    Wagon,
    At,
    Place,
    Delay,
    Leg,
    Minutes,
    Train,
    To,
    Offerer,
    Offer,
    Received,
    Refused,
    Manager,
    Limit,
    Item,
    Unit,
    Ru,
    Origin,
    Target,
}

impl Field {
    /// The key under which the field stands.
    pub fn name(self) -> &'static str
        ensures { result.now ≡ field_name self }
    {
        match self {
            Field::From => "from",
            Field::No => "no",
            Field::Consignment => "consignment",
            Field::Load => "load",
            Field::Commit => "commit",
            Field::Wagons => "wagons",
            Field::Legs => "legs",
            Field::Units => "units",
            Field::Wagon => "wagon",
            Field::At => "at",
            Field::Place => "place",
            Field::Delay => "delay",
            Field::Leg => "leg",
            Field::Minutes => "minutes",
            Field::Train => "train",
            Field::To => "to",
            Field::Offerer => "offerer",
            Field::Offer => "offer",
            Field::Received => "received",
            Field::Refused => "refused",
            Field::Manager => "manager",
            Field::Limit => "limit",
            Field::Item => "item",
            Field::Unit => "unit",
            Field::Ru => "ru",
            Field::Origin => "origin",
            Field::Target => "target",
        }
    }
}
