//! Tests of `board_connections`, over loopback.
//!
//! A service of a few paths is served by a thread of its own, and clients connect to it. One is answered byte for byte, also where it
//! sends several requests at once; what is no good request is refused by its status. A client that is silent, or slow with its
//! request, is cut off; the ninth for whom an answer would wait is told to ask again; and one more than there are places for takes the
//! place of the one that was silent for longest. An answer for which there is no memory ends its connection alone. Once the end is
//! told, clients are cut off and nobody can connect any more.

mod ending;
mod limits;
mod requests;
mod texts;
