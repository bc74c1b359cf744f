ghost use Rattle.std.specs.Prelude.{◌≡◌};
ghost use Rattle.taf_messages.specs.Details.{stage_name, status_name};

use crate::listed::{EstimateList, RecordEvents, Units};
use crate::number::LegIndex;
use std::alloc::AllocError;
use taf_codes::{ConsignmentId, Place, Railway};
use taf_moment::Moment;
use trip_plan::Load;
use wagon_number::WagonNumber;

/// How far a wagon's journey has come.
#[derive(Clone, Copy, Debug, PartialEq, Eq)]
pub enum Stage {
    Planned,
    Released,
    Running,
    InYard,
    Offered,
    Arrived,
    Delivered,
}

/// The status of a wagon in the operational database (4.2.11).
#[derive(Clone, Copy, Debug, PartialEq, Eq)]
pub enum Status {
    Loading,
    LoadedOnJourney,
    EmptyOnJourney,
    Unloading,
    FleetControl,
}

impl Stage {
    /// The name of the stage in records.
    pub fn name(self) -> &'static str
        ensures { result.now ≡ stage_name self }
    {
        match self {
            Stage::Planned => "planned",
            Stage::Released => "released",
            Stage::Running => "running",
            Stage::InYard => "in_yard",
            Stage::Offered => "offered",
            Stage::Arrived => "arrived",
            Stage::Delivered => "delivered",
        }
    }
}

impl Status {
    /// The name of the status in records.
    pub fn name(self) -> &'static str
        ensures { result.now ≡ status_name self }
    {
        match self {
            Status::Loading => "loading",
            Status::LoadedOnJourney => "loaded_on_journey",
            Status::EmptyOnJourney => "empty_on_journey",
            Status::Unloading => "unloading",
            Status::FleetControl => "fleet_control",
        }
    }
}

/// When a wagon is expected at the end of a leg.
#[derive(Clone, Copy, Debug, PartialEq, Eq)]
pub struct EstimateAt {
    pub leg: LegIndex,
    pub at: Moment,
}

/// What the operational database shows of a wagon (4.2.11).
#[derive(Debug, PartialEq, Eq, Drop)]
pub struct Record {
    pub wagon: WagonNumber,
    pub lead: Railway,
    pub consignment: ConsignmentId,
    pub load: Load,
    pub commit: Moment,
    pub stage: Stage,
    pub status: Status,
    pub leg: LegIndex,
    pub place: Option<Place>,
    pub responsible: Option<Railway>,
    pub estimates: EstimateList,
    pub eta: Option<Moment>,
    pub late: bool,
    pub events: RecordEvents,
    pub units: Units,
}

impl Clone for Record {
    ghost is_clone = { λ a b. b ≡ a };

    fn clone(&self) -> Result<Record, AllocError> {
        Ok(Record {
            wagon: self.wagon,
            lead: self.lead,
            consignment: self.consignment,
            load: self.load,
            commit: self.commit,
            stage: self.stage,
            status: self.status,
            leg: self.leg,
            place: self.place,
            responsible: self.responsible,
            estimates: self.estimates.clone()?,
            eta: self.eta,
            late: self.late,
            events: self.events.clone()?,
            units: self.units.clone()?,
        })
    }
}
