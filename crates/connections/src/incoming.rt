//! What brings connections to a connection handler.
use taf_codes::{Sink, Source};

/// What brings connections to a connection handler, one after another, each as what is read from and what is written to.
///
/// Whatever serves a session takes the two ends, and drops both once the session has ended. It asks for the next connection only then.
pub trait Connections {
    type Reader: Source + Send + Drop;

    type Writer: Sink + Send + Drop;

    /// The two ends of the next connection. It may wait for it. None comes once there are no more, and none comes after that.
    fn next(&mut self) -> Option<(Self::Reader, Self::Writer)>;
}
