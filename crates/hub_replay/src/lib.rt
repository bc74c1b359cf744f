//! Bytes to bytes: the lines of a reader go to a hub as calls, and its replies to a writer.
//!
//! [`run`] reads to the reader's end, gives the call of each line to the hub and writes one line for each line that
//! is not blank: the hub's reply, or a fault line where the line is no call or the hub's history is full. What lines
//! lead to is defined in `specs/Outcomes.antt`, where lines begin and end in `specs/Lines.antt`, and what a line says in
//! `call_lines`.
//!
//! Lines are parsed in batches: while those of a batch are answered, a thread of its own parses those of the next, where the
//! reader gave as many. Of what was read at once the first batch has about 65,536 bytes, and each other half as many
//! more than the one before, up to 1,048,576. The hub is called by the one thread that calls [`run`], in the order of the lines.
//!
//! Of the input no more than 2,162,688 bytes are held at once, beside what the lines of two batches say, and of the output
//! the lines of one call and of the faults before it. Each reply is handed to the writer before the next call goes to the
//! hub, and the writer is flushed before more input is read, so that a program which waits for a reply before it writes
//! its next line gets it.
#![tactic(auto)]

mod answer_line;
mod answering;
mod batch;
mod chunks;
mod counts;
mod fault;
mod line_parser;
mod output;
mod replay;

pub use counts::Counts;
pub use fault::RunFault;
pub use output::write_all;
pub use replay::{MAX_BYTES, move_to_front, read_chunk, run};
