//! Copies that are equal to what they copy.
ghost use Rattle.std.specs.Prelude.{◌≡◌, IfOk};

use crate::call::Call;
use crate::item::Item;
use crate::message::Message;
use crate::reply::Reply;
use taf_codes::Memory;

/// The same message. It shares what a plan, a route, an offer or an answer says.
pub fn copy(message: &Message) -> Result<Message, Memory>
    ensures { IfOk result (λ copy. copy ≡ message.now) }
{
    Ok(message.clone()?)
}

/// The same call. It shares the message.
pub fn copy_call(call: &Call) -> Result<Call, Memory>
    ensures { IfOk result (λ copy. copy ≡ call.now) }
{
    Ok(call.clone()?)
}

/// The same item. It shares the message or the sub notice.
pub fn copy_item(item: &Item) -> Result<Item, Memory>
    ensures { IfOk result (λ copy. copy ≡ item.now) }
{
    Ok(item.clone()?)
}

/// The same reply. It shares the refusal, the records and the items.
pub fn copy_reply(reply: &Reply) -> Result<Reply, Memory>
    ensures { IfOk result (λ copy. copy ≡ reply.now) }
{
    Ok(reply.clone()?)
}
