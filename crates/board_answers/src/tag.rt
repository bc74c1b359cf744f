//! The tag of a list.
ghost use Rattle.std.specs.Prelude.{◌≡◌, IfOk};
ghost use Rattle.board_answers.specs.Answers.{tag_of};

use json_tokens::Buffer;
use std::alloc::Global;
use taf_codes::Memory;

// Room for two numbers of twenty digits, and what stands around them.
const ROOM: usize = 64;

/// The tag of what was seen in this run of the hub after so many calls.
#[tactic(auto, using(json_tokens::proofs::DigitLemmas::twenty_digits))]
pub(crate) fn tag_of(alloc: Global, run: u64, calls: usize) -> Result<Vec<u8>, Memory>
    ensures { IfOk result (λ tag. tag.items ≡ tag_of run calls) }
{
    let mut tag = Buffer::new(Vec::new(alloc));
    tag.reserve(ROOM)?;
    tag.put_number(false, b"\"", run, b"-");
    tag.reserve(ROOM)?;
    tag.put_number(false, b"", calls as u64, b"\"");
    Ok(tag.into_vec())
}
