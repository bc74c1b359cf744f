//! The first line of a connection.
ghost use Rattle.std.specs.Prelude.{◌≡◌, OnOk, option_map};
ghost use Rattle.railway_keys.specs.FirstLines.{no_line, with_byte, whole_line};

use call_lines::is_blank_line;
use std::alloc::Global;
use std::marker::Model;
use taf_codes::Memory;

/// The first line that is not blank of the bytes that it took, or the front of this line.
#[derive(Drop)]
pub(crate) struct FirstLine {
    text: Vec<u8>,
    is_whole: bool,
}

impl Model for FirstLine {
    ghost use Rattle.railway_keys.specs.FirstLines.{LineRead};

    ghost Value = { LineRead };

    ghost view = { λ line. record { text = line.text.items; is_whole = line.is_whole } };
}

impl FirstLine {
    /// That of no byte. Takes no memory.
    pub(crate) fn new(alloc: Global) -> FirstLine
        ensures { result ≡ no_line }
    {
        FirstLine {
            text: Vec::new(alloc),
            is_whole: false,
        }
    }

    /// The line, without its newline, once this came.
    pub(crate) fn whole(&self) -> Option<&[u8]>
        ensures { option_map (λ line. line.now) result ≡ whole_line self.now }
    {
        if self.is_whole {
            Some(self.text.as_slice())
        } else {
            None
        }
    }

    /// Whether the newline of the line came.
    pub(crate) fn is_whole(&self) -> bool
        ensures { result ≡ self.now.is_whole }
    {
        self.is_whole
    }

    /// Takes the byte that follows. What is behind the line does not matter.
    pub(crate) fn take(&mut self, byte: u8) -> Result<(), Memory>
        ensures { OnOk result (self.new ≡ with_byte self.old byte) }
    {
        if self.is_whole {
            return Ok(());
        }
        if byte != b'\n' {
            self.text.push(byte)?;
        } else if is_blank_line(&self.text) {
            self.text.clear();
        } else {
            self.is_whole = true;
        }
        Ok(())
    }
}
