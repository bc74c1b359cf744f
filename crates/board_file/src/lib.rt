//! The page of the board as a file, with the wagons of a finished run inside: a browser opens it without a server (4.2.11).
//!
//! [`board_file`] gives the bytes of the file: the page up to its place for texts, two elements that no browser runs, and the rest of the
//! page.
//!
//! | element | has |
//! |---|---|
//! | `legs` | the legs of the wagons, as the line `legs.json` of the board |
//! | `records` | their records with all events, as the reply `records` |
//!
//! For a railway these are the wagons that it may see, and each element names it, as the page's path does where a server sends the page.
//! With no railway they are all planned wagons.
//!
//! # What is promised
//!
//! `specs/Files.antt`: which wagons are shown, and each byte of the file. In a text `<` is escaped, and
//! [`no_text_ends_its_element`] says that none is left: whatever a text has, a browser finds the end of its element where it is.
//!
//! | part | what it has |
//! |---|---|
//! | `seen` | the wagons that are shown |
//! | `element` | a line of JSON as an element of the page |
//! | `file` | the file |
//! | `law` | what the escape is good for |
#![tactic(auto)]

mod element;
mod file;
mod law;
mod seen;

pub use file::board_file;
pub use law::no_text_ends_its_element;
