//! Tests of `session_serving`.
//!
//! An example is a text: the lines that a session reads, and behind each, after `> `, the line that it says to it. A hub
//! behind the port answers the session's jobs. What is said to a line stands in the rules of the exchange
//! ([docs/RECORDS.md](../../../docs/RECORDS.md)).
//!
//! | part | tests of |
//! |---|---|
//! | `streams` | none: readers, writers and ports |
//! | `ends` | none: a session between them |
//! | `served` | chunks of each kind; readers, writers and ports that fail at each call; how many reads and writes there are |
//! | `scarcity` | each growth refused in turn |

mod ends;
mod scarcity;
mod served;
mod streams;
