//! What the board answers to requests of HTTP.
//!
//! [`Board`] is a service of `http_server`. It looks at the hub, and makes no call: nothing that it does is in the history.
//!
//! | asked for | shown |
//! |---|---|
//! | `/`, `/R101/` | the page |
//! | `/R101/wagons.json`, `/R101/legs.json` | the records and the legs of the wagons that R101 may see; 304 where no call came since |
//! | `/R101/wagons/218124712173.json`, `../legs.json` | what R101 is told of the wagon, and its legs; 404 with the reply where it may not see it |
//! | `/health`, `/metrics` | that the board answers; numbers of the hub and of its server |
//!
//! | refused with | where |
//! |---|---|
//! | 421 | the host that is asked for is not the board's: a page of another name may have been led to this machine |
//! | 403 | the page that asks is one of another origin |
//! | 405 | the method is neither GET nor HEAD |
//! | 404 | nothing has this path |
//! | 401 | railways have keys, and the request has not that of the railway |
//! | 503 | the hub has ended |
//!
//! # What is promised
//!
//! `specs/Answers.antt`: an answer is a refusal, for the reason that its status says and with no body, or it shows the resource whose path
//! the request has, by GET or HEAD, at one of the board's hosts and, where railways have keys, with that of the railway. What is shown of
//! wagons are the lines of `board_texts`, for this railway. So an answer to a railway is made of what that railway's own questions are
//! told, and of nothing else. Where memory is refused, there is no answer.
//!
//! | part | what it has |
//! |---|---|
//! | `access` | who may ask: hosts and keys |
//! | `refusal` | why a request is refused |
//! | `admission` | whether a request is answered |
//! | `sending` | answers with their fields |
//! | `tag` | the tag of a list |
//! | `gauges` | numbers of the server |
//! | `metrics` | the text of all numbers |
//! | `board` | each request to its answer |
#![tactic(auto)]

mod access;
mod admission;
mod board;
mod gauges;
mod metrics;
mod refusal;
mod sending;
mod tag;

pub use access::{Access, hosts_of};
pub use board::{Board, ListOf};
pub use gauges::{Gauges, ServerNumbers};
pub use refusal::Refusal;
