//! The text of the reply to a message that is accepted. Most replies are such, so it is put together from its parts.
ghost use Rattle.std.specs.Prelude.{◌≡◌, ◌++◌, OnOk, OnErr, Some};
ghost use Rattle.serde_json.specs.Read.{read};
ghost use Rattle.serde_json.specs.Written.{compact_text};
ghost use Rattle.reply_writer.specs.ReplyShapes.{reply_data};
ghost use Rattle.taf_messages.specs.declared.reply.Reply.TheVariants.{Accepted};

use json_tokens::Buffer;
use taf_codes::Memory;
use taf_messages::MessageNumber;

// What comes before the digits of the message's number.
const FRONT: &[u8; 6] = b"{\"no\":";

// How many digits that number has at most.
const MAX_DIGITS: usize = 12;

// What comes behind the digits.
const BACK: &[u8; 20] = b",\"reply\":\"accepted\"}";

/// Appends the text of the reply to a message that is accepted. Where memory is refused, nothing is appended.
pub(crate) fn append_accepted(out: &mut Buffer, no: MessageNumber) -> Result<(), Memory>
    ensures ok { OnOk result (out.new.items ≡ out.old.items
        ++ compact_text (reply_data (Accepted no))) }
    ensures read_back { OnOk result (read (compact_text (reply_data (Accepted no)))
        ≡ Some (reply_data (Accepted no))) }
    ensures err { OnErr result (out.new.items ≡ out.old.items) }
{
    out.reserve(FRONT.len() + MAX_DIGITS + BACK.len() + 1)?;
    out.put_number(false, FRONT, no.get(), BACK);
    Ok(())
}
