//! Calls, messages, items and replies that are the same.
ghost use Rattle.std.specs.Prelude.{◌≡◌, ◌↔◌, IsTrue};
ghost use Rattle.taf_messages.specs.Content.{same_message};

use crate::call::Call;
use crate::item::Item;
use crate::message::Message;
use crate::reply::Reply;

/// Whether the two have the same sender, number and content.
pub fn same(message: &Message, other: &Message) -> bool
    ensures test { result ≡ same_message message.now other.now }
    ensures equality { IsTrue result ↔ (message.now ≡ other.now) }
{
    message == other
}

/// Whether the two are the same call, as `==` finds.
pub fn same_call(call: &Call, other: &Call) -> bool
    ensures { IsTrue result ↔ (call.now ≡ other.now) }
{
    call == other
}

/// Whether the two are the same item, as `==` finds.
pub fn same_item(item: &Item, other: &Item) -> bool
    ensures { IsTrue result ↔ (item.now ≡ other.now) }
{
    item == other
}

/// Whether the two are the same reply, as `==` finds.
pub fn same_reply(reply: &Reply, other: &Reply) -> bool
    ensures { IsTrue result ↔ (reply.now ≡ other.now) }
{
    reply == other
}
