//! Journeys that went on by a message, and how they are taken back.
ghost use Rattle.std.specs.Prelude.{◌≡◌};
ghost use Rattle.journey.specs.TrackStates.{without_newest};
ghost use Rattle.hub_tables.specs.TableStates.{table_state};
ghost use Rattle.hub_tables.specs.Changes.{AreChanges, IsChange, known_before, with_journey};

use crate::tables::Tables;
use crate::wagon::WagonState;
use wagon_number::WagonNumber;

/// A wagon whose journey went on by one event.
#[derive(Drop)]
pub struct Change {
    pub wagon: WagonNumber,
    /// The wagon's position in the fleet, from 0, in the order of first plans.
    pub position: usize,
    /// What was kept beside its events before.
    pub before: WagonState,
}

impl Tables {
    /// Takes these changes of journeys back, the last one first. It takes no memory.
    pub fn take_back(&mut self, changes: &mut Vec<Change>)
        requires changes { AreChanges self.old changes.old.items }
        ensures { table_state self.new ≡ known_before self.old changes.old.items }
    {
        while let Some(change) = changes.pop() {
            self.take_back_one(change);
        }
    }

    // Takes the newest event of a wagon back.
    fn take_back_one(&mut self, change: Change)
        requires { IsChange self.old change }
        ensures { table_state self.new
            ≡ with_journey (table_state self.old) change.wagon without_newest }
    {
        match self.wagons.get_index_mut(change.position) {
            Some(found) => found.take_back(change.before),
            None => unreachable!(),
        }
    }
}
