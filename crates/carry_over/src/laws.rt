//! The laws of what stays. Each is the contract of a function that does nothing.
ghost use Rattle.carry_over.specs.Acknowledged.{CanGoOn, GoOnAlike};
ghost use Rattle.carry_over.specs.Carried.{OthersAreApart, OthersCanBeLeftBehind, OthersDoNotMatter};

/// A hub that is given the messages of some names alone, in their order, knows the same of these names as the hub that was
/// given all calls: the journey of each wagon, the plan of each consignment and unit, each offer and whether it is open, the
/// first send of each message with its reply. It replies the same to each further message of these names, and to each question
/// for one of them. Each outbox has the items that these messages made, in their order, and none else; the fleet has the wagons
/// of these names in their order, with the same records. The one premise is that each message names things on one side alone.
///
/// Questions, acknowledgements and the messages of the other names are left out, so items are numbered anew.
pub fn others_can_be_left_behind()
    ensures { OthersCanBeLeftBehind }
{}

/// What is known of some names, and the replies to their messages and to questions for them, depend on the messages of these
/// names alone, in their order: whatever other messages, questions and acknowledgements came between.
///
/// Two messages on different sides are apart, so that either may come first (`messages_may_overtake` of `hub_model`).
pub fn others_do_not_matter()
    ensures same { OthersDoNotMatter }
    ensures apart { OthersAreApart }
{}

/// With the messages that stay, and behind them one acknowledgement of each railway, by the number of its acknowledged items that
/// are of messages that stay, all that `others_can_be_left_behind` says still holds. And a railway that has acknowledged all items
/// of the messages that are left behind has the same unacknowledged items, in the same order.
///
/// Whatever calls come then, as long as each message of them names things on one side alone, the hub that went on knows the same
/// of what stays as the hub that left nothing behind, and replies the same to what concerns it.
pub fn hubs_can_go_on()
    ensures at_once { CanGoOn }
    ensures later { GoOnAlike }
{}
