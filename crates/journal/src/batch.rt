//! A batch of lines.
ghost use Rattle.std.specs.Prelude.{◌≡◌, ◌+◌, ◌^◌, ◌<◌, ◌==◌, ◌&&◌, not, true, false, vec_len, vec_capacity, ◌≤◌, [], ◌∷◌, ◌++◌, length, OnOk, OnErr, IfOk, List, ℕ};
ghost use Rattle.std.specs.List.{list_all};
ghost use Rattle.journal.specs.Lines.{is_nil, is_line, are_lines, batch_text, HasLast};

use std::alloc::{AllocError, Global};
use std::marker::Model;

/// Lines that are to be on the disk together, as one text. Contracts see the list of the lines.
#[derive(Drop)]
pub struct Batch {
    text: Vec<u8>,
}

impl Model for Batch {
    ghost use Rattle.std.specs.Prelude.{List, ℕ, [], ◌∷◌, ◌++◌, vec_len, vec_capacity};
    ghost use Rattle.journal.specs.Lines.{recovered_lines, IsBatch};

    ghost Value = { List (List ℕ) };

    ghost view = { λ b. recovered_lines (b.text.items ++ 10 ∷ []) };

    ghost invariant = { λ b. IsBatch b.text.items (recovered_lines (b.text.items ++ 10 ∷ []))
        (vec_len b.text) (vec_capacity b.text) };
}

impl Batch {
    /// A batch with no line. Takes no memory.
    pub fn new(alloc: Global) -> Batch
        ensures { result ≡ [] }
    {
        Batch {
            text: Vec::new(alloc),
        }
    }

    /// Adds a line. `Err` where memory is refused: the batch is as it was.
    pub fn push(&mut self, line: &[u8]) -> Result<(), AllocError>
        requires { is_line line.now ≡ true }
        ensures ok { OnOk result (self.new ≡ self.old ++ line.now ∷ []) }
        ensures err { OnErr result (self.new ≡ self.old) }
    {
        push_line(&mut self.text, line)?;
        Ok(())
    }

    /// Drops the last line, which has so many bytes.
    pub fn pop(&mut self, len: usize)
        requires { HasLast self.old len }
        ensures { (line : List ℕ) × (self.old ≡ self.new ++ line ∷ []) }
    {
        let end = self.text.len() - len - 1;
        self.text.truncate(end);
    }

    /// Whether there is no line.
    pub fn is_empty(&self) -> bool
        ensures { result ≡ is_nil self.now }
    {
        self.text.is_empty()
    }

    /// The text of a batch that has a line. Takes no memory.
    pub fn into_text(self) -> Vec<u8>
        requires { is_nil self ≡ false }
        ensures text { result.items ≡ batch_text self }
        ensures lines { are_lines self ≡ true }
    {
        let Batch { text } = self;
        let mut whole = text;
        whole.push_reserved(b'\n');
        whole
    }
}

/// Whether the bytes are a line: there are some, and none is 0 or a newline.
pub fn is_line(line: &[u8]) -> bool
    ensures { result ≡ is_line line.now }
{
    match line {
        [] => false,
        _ => has_line_bytes(line),
    }
}

fn has_line_bytes(line: &[u8]) -> bool
    ensures { result ≡ list_all (λ b. not (b == 0) && not (b == 10)) line.now }
{
    line.iter().all(|b| *b != 0 && *b != b'\n')
}

// Adds a line and its newline, and makes room for one byte more.
fn push_line(text: &mut Vec<u8>, line: &[u8]) -> Result<(), AllocError>
    ensures ok { OnOk result (text.new.items ≡ text.old.items ++ (line.now ++ 10 ∷ [])) }
    ensures room { OnOk result (vec_len text.new + 1 ≤ vec_capacity text.new) }
    ensures err { OnErr result (text.new.items ≡ text.old.items) }
    ensures err_len { OnErr result (vec_len text.new ≡ vec_len text.old) }
    ensures err_room { OnErr result (vec_capacity text.old ≤ vec_capacity text.new) }
{
    text.reserve(line.len() + 2)?;
    text.extend_from_slice(line)?;
    text.push_reserved(b'\n');
    Ok(())
}
