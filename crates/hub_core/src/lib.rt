//! The hub: the calls that it has taken with their replies, and what it replies to a call.
//!
//! [`Hub::apply`] takes a call and gives its position in the history and its reply, which is the one that `hub_model`
//! defines after all calls before it. The history grows by exactly that call and reply. A call that meets a full history
//! is handed back, and where memory is refused all stays as it was.
//!
//! Contracts see a [`Hub`] as its history, the list of its entries. Behind it stands its `State`: the history in
//! pages, the tables of wagons, plans and offers, the first sends by their names, and the outboxes. The state is
//! *consistent*: the history is legal, and each part answers as the model does after it (`specs/States.antt`). No function
//! looks through the history, so a call takes no longer when it is long.
//!
//! A message that is new is checked once there is room for its name, and unless it has a fault the journeys of its wagons go on
//! by it at once. A list of changes gets what was kept of these journeys before: the items are made by it, and the journeys can
//! be taken back.
//!
//! The message is then accepted in two steps. First comes all that may be refused memory: the items, room for them in the
//! outboxes, room in the history, and what else the tables change, which is all or nothing. Where memory is refused, the
//! journeys are taken back, which takes none. Then come steps that cannot fail. So there is no half-taken message. Its changes
//! and items are put into lists that the state keeps from message to message, and the items move on from theirs into the
//! outboxes: so these lists mostly take no memory. What they have between calls means nothing.
//!
//! | part | what it does |
//! |---|---|
//! | `ask` | the replies to questions, and to a fetch of items |
//! | `ack` | acknowledgements |
//! | `send` | messages: each is new, or was sent before |
//! | `repeats` | messages that were sent before |
//! | `refusals` | new messages that are refused |
//! | `acceptance` | new messages that are accepted |
//! | `verdicts` | the reply to a message that is refused |
//! | `delivery` | items on their way into the outboxes |
//! | `applying` | each call to its part |
#![tactic(auto)]

mod acceptance;
mod ack;
mod applying;
mod ask;
mod delivery;
mod hub;
mod refusals;
mod repeats;
mod send;
mod state;
mod verdicts;
mod view;

pub use hub::Hub;
pub use hub_model::Entry;
pub use tallies::HubFault;
pub use view::View;
