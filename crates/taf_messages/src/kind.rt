//! The kinds of records and their names.
ghost use Rattle.std.specs.Prelude.{◌≡◌};
ghost use Rattle.taf_messages.specs.Names.{kind_name, body_name, movement_name, kind_named};

/// What a record is about.
#[derive(Clone, Copy, Debug, PartialEq, Eq)]
pub enum Kind {
    Send(BodyName),
    Ask,
    AskUnit,
    Deviation,
    Fetch,
    Ack,
}

/// What a message is about.
#[derive(Clone, Copy, Debug, PartialEq, Eq)]
pub enum BodyName {
    Plan,
    Movement(MovementName),
    EtiAsk,
    LegTime,
    Offer,
    Answer,
    Withdraw,
    Reroute,
}

/// What a message on the movement of one wagon is about.
#[derive(Clone, Copy, Debug, PartialEq, Eq)]
pub enum MovementName {
    Release,
    Departure,
    YardArrival,
    YardDeparture,
    Exception,
    Estimate,
    Arrival,
    Delivery,
}

const KINDS: [Kind; 20] = [
    Kind::Send(BodyName::Movement(MovementName::YardArrival)),
    Kind::Send(BodyName::Movement(MovementName::YardDeparture)),
    Kind::Send(BodyName::Movement(MovementName::Exception)),
    Kind::Send(BodyName::Movement(MovementName::Departure)),
    Kind::Send(BodyName::Movement(MovementName::Release)),
    Kind::Send(BodyName::Movement(MovementName::Arrival)),
    Kind::Send(BodyName::Movement(MovementName::Delivery)),
    Kind::Send(BodyName::Movement(MovementName::Estimate)),
    Kind::Ask,
    Kind::Fetch,
    Kind::Ack,
    Kind::Send(BodyName::Offer),
    Kind::Send(BodyName::Answer),
    Kind::Send(BodyName::Plan),
    Kind::Send(BodyName::EtiAsk),
    Kind::Deviation,
    Kind::Send(BodyName::LegTime),
    Kind::Send(BodyName::Reroute),
    Kind::AskUnit,
    Kind::Send(BodyName::Withdraw),
];

impl Kind {
    /// The name that a record of this kind has in its field `kind`.
    pub fn name(self) -> &'static str
        ensures { result.now ≡ kind_name self }
    {
        match self {
            Kind::Send(name) => name.name(),
            Kind::Ask => "ask",
            Kind::AskUnit => "ask_unit",
            Kind::Deviation => "deviation",
            Kind::Fetch => "fetch",
            Kind::Ack => "ack",
        }
    }

    /// The kind of that name.
    #[tactic(auto, unfolding(crate::specs::Names::kind_named))]
    pub fn named(name: &str) -> Option<Kind>
        ensures { result ≡ kind_named name.now }
    {
        KINDS.iter().copied().find(|kind| kind.name() == name)
    }
}

impl BodyName {
    pub fn name(self) -> &'static str
        ensures { result.now ≡ body_name self }
    {
        match self {
            BodyName::Plan => "plan",
            BodyName::Movement(name) => name.name(),
            BodyName::EtiAsk => "eti_ask",
            BodyName::LegTime => "leg_time",
            BodyName::Offer => "offer",
            BodyName::Answer => "answer",
            BodyName::Withdraw => "withdraw",
            BodyName::Reroute => "reroute",
        }
    }
}

impl MovementName {
    pub fn name(self) -> &'static str
        ensures { result.now ≡ movement_name self }
    {
        match self {
            MovementName::Release => "release",
            MovementName::Departure => "depart",
            MovementName::YardArrival => "yard_in",
            MovementName::YardDeparture => "yard_out",
            MovementName::Exception => "exception",
            MovementName::Estimate => "eti",
            MovementName::Arrival => "arrival",
            MovementName::Delivery => "delivery",
        }
    }
}
