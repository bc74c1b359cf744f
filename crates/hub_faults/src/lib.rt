//! Why a command of the hub did not do what it is for, and the status that the program ends with then.
//!
//! Each [`Fault`] has a line of text, which the program prints among its errors, and a status ([`Fault::status`]):
//!
//! | status | fault |
//! |---|---|
//! | 1 | a text that is no vehicle number |
//! | 2 | arguments of the command line that cannot be read; keys that were refused |
//! | 3 | reading or writing failed, or no end came |
//! | 4 | memory was refused |
//! | 5 | a socket or a thread could not be had |
//! | 6 | the calls of a shift or a service did not settle |
//! | 7 | a call of the journal's file failed |
//! | 8 | the journal is busy, damaged, of another program, or has a wrong line |
//!
//! What goes wrong in the crates below becomes a fault by [`Fault::of_arguments`] and by `From`. The commands stand on this
//! crate, so that what is promised of faults is proved without the reader of the command line.
#![tactic(auto)]

mod fault;

pub use fault::Fault;
