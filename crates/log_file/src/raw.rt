//! The calls of a file.
ghost use Rattle.std.specs.Prelude.{◌≤◌, length, IfOk};

/// A call of a file failed. How much of it was done is not known.
#[derive(Clone, Copy, Debug, PartialEq, Eq)]
pub struct Failed;

/// What makes the calls of a file. No contract says what they do: that is trusted.
pub trait RawFile {
    /// Reads the next bytes of the file, from its start on, into the front of the buffer, and gives how many: none only at the end
    /// of the file, or into no room. `Err` where that failed.
    fn read(&mut self, buffer: &mut [u8]) -> Result<usize, Failed>
        ensures { IfOk result (λ count. count ≤ length buffer.new) };

    /// Writes all of these bytes behind the last one of the file, not only some. `Err` where that failed.
    fn append(&mut self, bytes: &[u8]) -> Result<(), Failed>;

    /// Drops what is behind `len` bytes. `Err` where that failed.
    fn cut(&mut self, len: usize) -> Result<(), Failed>;

    /// Ok once all that was written, and the length, is on the disk. `Err` where that failed.
    fn sync(&mut self) -> Result<(), Failed>;
}
