//! The connections of the board: a listener on a port of 127.0.0.1, and up to 64 clients, all on one thread.
//!
//! [`BoardListener::bind`] gives the listener and its end. [`BoardListener::serve`] accepts clients, reads their requests, has a service
//! answer them, and writes the answers, until any thread calls [`ServingEnd::end`]. `mio` says which sockets are ready, and the steps of
//! `http_server` parse requests and write answers; no socket blocks the thread, and after sixteen moves of bytes the next client has its
//! turn. A connection serves one request after another; what is no request is refused as `http_server` does, with 400, 413, 414, 431 or
//! 501, and a body has at most 4096 bytes.
//!
//! # Limits
//!
//! | limit ([`Limits`]) | of the board | what comes of it |
//! |---|---|---|
//! | clients | 64 | a new client takes the place of the one that was silent for longest, whose connection is closed |
//! | answers of any length that wait because their clients do not read | 8 | a request on another connection is answered 503 with `retry-after: 1` and no body ([`LimitedService`]) |
//! | nothing is read of a client, and nothing taken by it | 10 seconds | its connection is closed |
//! | a request that does not come whole, counted from the first bytes that come after the answer before it | 10 seconds | its connection is closed; `http_server` cannot say 408 |
//! | age of a connection | 60 seconds | it is closed, but for an answer that is going out |
//!
//! A time ends up to a second late. Beside these answers there wait for a client 64 KiB of short answers at most, before its next request
//! is read, and its last answer, and of its input one request: a head of at most 16 KiB and a body.
//!
//! # Errors
//!
//! An error of the listener, of the wait for sockets or of the clock ends `serve` with it. An error of a connection ends that connection
//! alone, and so does an answer for which memory is refused. Where files or memory are wanting to accept a client, `serve` goes on, and
//! tries again after a second.
//!
//! # What is promised
//!
//! Whatever the sockets do, the service is changed by calls alone, one after another, and each is answered by the service or refused
//! with the 503 above, which leaves the service as it was (clause of `serve`, `specs/Answers.antt`). Of each connection `http_server`
//! promises, for whatever bytes come and however they are cut, that what goes out is the answers to the requests that came in, in their
//! order, and then the refusal, with its reason, of what is none (its `IsServed`). Of the clients no more have an answer waiting than
//! the limits say. An error of `accept` ends serving exactly where there is no listener any more.
//!
//! # What is not
//!
//! No contract says what a socket gives or takes, that a client is accepted, answered or closed, how long anything takes, which client
//! makes room, or that serving ends when it is told to: a call that waits owes no return. Nor does one bound the bytes that wait.
//! `connection_tests` tries these over loopback.
//!
//! | part | what it has |
//! |---|---|
//! | `limits` | how many clients are connected, and how long anything may take |
//! | `limited` | a service that may be told to refuse |
//! | `client` | one client: its socket, its connection and its times |
//! | `places` | places of clients, and for how many of them an answer waits |
//! | `clients` | all clients, each in its place |
//! | `accept_error` | what an error of `accept` means |
//! | `listener` | the listener, and the thread that serves |
//! | `end` | the end of serving |
#![tactic(auto)]

mod accept_error;
mod client;
mod clients;
mod end;
mod limited;
mod limits;
mod listener;
mod places;

pub use end::ServingEnd;
pub use limited::LimitedService;
pub use limits::Limits;
pub use listener::BoardListener;
