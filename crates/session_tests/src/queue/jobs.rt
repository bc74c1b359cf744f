//! The jobs of the tests.

use inbox::Job;
use std::test::Fail;
use taf_codes::Railway;
use taf_messages::Call;
use wagon_number::WagonNumber;

/// What all jobs ask: one railway, of one wagon.
#[derive(Drop)]
pub(crate) struct Question {
    by: Railway,
    wagon: WagonNumber,
}

impl Question {
    /// A railway asks of a wagon.
    pub(crate) fn new() -> Result<Question, Fail> {
        Ok(Question {
            by: Railway::read("R100")?,
            wagon: WagonNumber::read("218124712173")?,
        })
    }

    /// The job of this number of a session.
    pub(crate) fn job(&self, session: u32, index: u64) -> Job {
        Job {
            session,
            index,
            call: Call::Ask {
                by: self.by,
                wagon: self.wagon,
            },
        }
    }
}
