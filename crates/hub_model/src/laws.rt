//! The laws of the definitions. Each is the contract of a function that does nothing.
ghost use Rattle.hub_model.specs.AcceptedMessages.{LookupsAreTheLists};
ghost use Rattle.hub_model.specs.Changes.{
  OthersChangeNothing,
  TakenOnce,
  AnsweredAsAtFirst,
  JudgedByTheAccepted,
};
ghost use Rattle.hub_model.specs.Bounds.{
  JourneysAreAdmitted,
  AlwaysOnLeg,
  ItemsAreFew,
  OutboxesAreBounded,
  AcknowledgedAreThere,
  JourneysAreBounded,
  FirstSendsStand,
};
ghost use Rattle.hub_model.specs.Consent.{CallsByConsent, EntriesByConsent, ResponsibleRunsTheLeg};
ghost use Rattle.hub_model.specs.Laws.{
  AlwaysInOrder,
  EstimatesFit,
  ChecksKeepTheCalendar,
  RepliesAreTheRun,
  KnownByTheCalls,
  OneMoreEntry,
};
ghost use Rattle.hub_model.specs.NeedToKnow.{
  RecordsAreForTheTrip,
  RepliesShowTheirOwn,
  MessagesGetVerdicts,
  ItemsGoToTheConcerned,
  EstimatesStayOnTheTrip,
  ItemsHaveSources,
  OutsidersLearnWhetherKnown,
  RefusalsTellTheStage,
};
ghost use Rattle.hub_model.specs.Overtaking.{
  ApartIsExact,
  MayOvertake,
  StayAlike,
  StayAlikeThrough,
};
ghost use Rattle.hub_model.specs.Responsibility.{LastReceiverAnswers};
ghost use Rattle.hub_model.specs.Senders.{SendersMaySend};

/// The replies of a legal history are the run of its calls, one after another. What is known after
/// it is what is known after its calls; and it stays legal with one more call and its answer.
pub fn histories_are_runs()
    ensures replies { RepliesAreTheRun }
    ensures known { KnownByTheCalls }
    ensures more { OneMoreEntry }
{}

/// What is looked up after calls is what the lists of accepted messages, sends and
/// acknowledgements say.
///
/// A journey is the wagon's events of the accepted messages from its last plan on, each read by the
/// offers of the whole list. An offer is open when no accepted answer or withdrawal names it. An
/// outbox is the items of all accepted messages to its railway, in order. The acknowledged number is
/// the greatest that was not ahead.
pub fn lookups_are_the_lists()
    ensures { LookupsAreTheLists }
{}

/// A new message is judged, and makes its items, by the accepted messages before it alone. Sent
/// again it changes nothing and gets the reply that it got at first. No call that is refused, and
/// none that only asks, changes a journey, an offer, an outbox or an acknowledged number.
pub fn messages_are_taken_once()
    ensures judged { JudgedByTheAccepted }
    ensures once { TakenOnce }
    ensures again { AnsweredAsAtFirst }
    ensures others { OthersChangeNothing }
{}

/// Whatever calls came, the railway that answers for a wagon on its way is the last that received
/// it: the sender of the last accepted message that is its departure notice or an answer that
/// received it (4.2.7, 4.2.8). A wagon that is not on its way has none.
pub fn last_receiver_answers()
    ensures { LastReceiverAnswers }
{}

/// No railway becomes responsible for a wagon but by a message of its own: the departure notice of a
/// wagon that was released and whose first leg it runs, or an answer that received the wagon from the
/// responsible railway, which had asked it in an open offer that has the wagon. And none stops being
/// so but by its own delivery notice of the wagon, or by the answer of the railway that it asked in
/// such an offer (4.2.7, 4.2.8). Whose departure notice or answer is accepted is responsible at once.
/// So it is for one call more, whatever calls came, and for one entry more of a legal history. The
/// responsible railway runs the leg that the wagon is on, after every legal history.
pub fn responsibility_passes_by_consent()
    ensures calls { CallsByConsent }
    ensures histories { EntriesByConsent }
    ensures legs { ResponsibleRunsTheLeg }
{}

/// Whatever calls came, each accepted message is of a railway that may send it: a plan, a release, a
/// reroute or a question for an estimate of the lead; a departure of the railway of the first leg; any
/// other movement of the responsible railway, and an offer of that of each of its wagons; a leg time of
/// the railway of that leg; an answer of the railway that the offer asked; a withdrawal of the railway
/// that made the offer. That a plan comes from its lead is kept by the type of messages.
pub fn senders_may_send()
    ensures { SendersMaySend }
{}

/// Whatever calls came, a wagon is in at most one open offer, every wagon of an open offer is
/// offered (4.2.8), and a wagon has a responsible railway exactly when it is on its way (4.2.7).
pub fn offers_are_in_order()
    ensures { AlwaysInOrder }
{}

/// After a legal history whose messages keep the limits of their lists, as every `Message` does, each
/// wagon with a journey has one that a track can have: it begins with a plan of 1 to 8 legs, and each
/// further event could come next. So its legs are what the newest events that set them say
/// (`journey::legs_are_what_the_newest_event_sets`), and its leg index stays below the number of its
/// legs, which is at most 8.
pub fn wagons_are_on_their_legs()
    ensures admitted { JourneysAreAdmitted }
    ensures on_a_leg { AlwaysOnLeg }
{}

/// No estimate of a wagon passes the calendar (4.2.6), where the moments of the messages that were
/// sent are of the calendar, as every `Moment` is. Nor does one once the journey of a wagon that passed
/// the checks of a message has gone on by it, whether the message is accepted or not.
pub fn estimates_fit()
    ensures histories { EstimatesFit }
    ensures checks { ChecksKeepTheCalendar }
{}

/// Where lists keep their limits, as those of every `Message` do, an accepted message makes at most
/// 1,322 items, and an outbox has at most so many for each entry of the history. What a railway
/// acknowledged is in its outbox. A journey has at most one event for each entry.
pub fn items_and_events_are_bounded()
    ensures items { ItemsAreFew }
    ensures outboxes { OutboxesAreBounded }
    ensures acknowledged { AcknowledgedAreThere }
    ensures journeys { JourneysAreBounded }
{}

/// The first send of a name stands in the history, with its reply, at its position, counted from 0.
/// A name without a position was never sent.
pub fn first_sends_stand_in_the_history()
    ensures { FirstSendsStand }
{}

/// Whatever calls came, each record that a reply shows is the record of its wagon, and the railway
/// that called is the wagon's lead or runs a leg of it; each item that a reply shows is of that
/// railway's own outbox. Deviations are shown to the lead alone (4.2.11), and the reply to a message
/// shows neither. A question for a wagon or a unit shows no record to others in any state.
///
/// Each item of a message goes to a railway that the message concerns: one that it names, that is
/// involved after it in a wagon of the message, or whose leg a reroute takes away. An estimate or an
/// alert goes to a railway that is involved, after the message, in the very wagon that it is of. So,
/// whatever calls came, each item of an outbox is of an accepted message that concerned its railway.
///
/// What an outsider is replied to a question depends on nothing but whether that which it asks for
/// is known. A new message of a single wagon is refused to a railway that is not involved in it, and
/// the refusal depends on nothing but whether the wagon is known, its stage, whether it is on its
/// way, and how many legs it has.
pub fn railways_see_what_concerns_them()
    ensures records { RecordsAreForTheTrip }
    ensures replies { RepliesShowTheirOwn }
    ensures messages { MessagesGetVerdicts }
    ensures items { ItemsGoToTheConcerned }
    ensures estimates { EstimatesStayOnTheTrip }
    ensures outboxes { ItemsHaveSources }
    ensures outsiders { OutsidersLearnWhetherKnown }
    ensures refusals { RefusalsTellTheStage }
{}

/// The test of messages that are apart is exact. Whichever of two such messages comes first, each
/// gets the same reply, and what is known after both is alike; and alike lists of calls stay alike
/// under any call and through any list, and give every call but a fetch the same reply.
pub fn messages_may_overtake()
    ensures apart { ApartIsExact }
    ensures either { MayOvertake }
    ensures alike { StayAlike }
    ensures through { StayAlikeThrough }
{}
