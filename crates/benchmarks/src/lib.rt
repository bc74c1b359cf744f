//! Benchmarks of the hub's parts: reading calls, writing replies, journeys, and the report.
//!
//! `bench WHAT [COUNT]` measures one of them on COUNT things made in memory, and prints a line for each
//! measurement: `WHAT: N things, M ms, K per second`. Without words it prints the names, and what one thing is.
//!
//! | WHAT | measures | COUNT, if none is given |
//! |---|---|---|
//! | `parse` | `serde_json` alone on a departure's line | 200,000 |
//! | `read` | `call_reader::CallReader` on the same lines | 200,000 |
//! | `replies` | an accepted reply, written into a buffer that is used again | 1,000,000 |
//! | `record` | a reply that shows a record of sixty events | 10,000 |
//! | `items` | a reply of fifty items | 10,000 |
//! | `copies` | a copy of a plan of sixty wagons that shares what it holds, and the plan made again (`copies made again`) | 100,000 |
//! | `journey` | one exception more on a track of up to 10, 100, 1,000 and 10,000 exceptions, with its checks and estimates | 100,000 |
//! | `hub` | a call of a trip, given to hubs that take an eighteenth of the calls, a quarter, and all | 900,000 |
//! | `report` | a line of the report, made by one thread (`report plain`) and by all (`report`) | 100,000 |
//! | `lane` | a job from one thread to another, through an inbox and through a plain queue (`lane of a plain queue`) | 1,000,000 |
//! | `shift` | a call of one of eight sessions with sixteen on the way, made by one of two workers on one hub | 200,000 |
//!
//! `bench schedules [COUNT [FIRST]]` runs the schedules of COUNT seeds from FIRST on (1,000 from 1 on), and prints how many things were
//! tried. It ends with a fault at a seed in whose schedule a session said something else than in lock step ([`schedules`]).
//!
//! What is made is made before the clock starts. Promised: which name is which benchmark ([`Bench::named`]), and what
//! a duration comes to ([`Measured::per_second`]). No clause says how long anything takes.
#![tactic(auto)]

mod bench;
mod codec;
mod copies;
mod journeys;
mod lanes;
mod measured;
mod measurements;
mod report;
mod samples;
mod shifts;
mod trips;
mod words;

pub use bench::Bench;
pub use measured::Measured;
pub use measurements::perform;
pub use words::{Asked, read_words};
