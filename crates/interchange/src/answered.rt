//! The wagons of an offer and of its answer.
ghost use Rattle.std.specs.Prelude.{◌≡◌, ◌≤◌, ◌==◌, ◌++◌, count_by, length};
ghost use Rattle.std.specs.List.{list_all};
ghost use Rattle.trip_plan.specs.Rules.{has};

use wagon_number::WagonNumber;

/// Whether each offered wagon is named exactly once, in either list.
pub(crate) fn are_answered_once(
    offered: &[WagonNumber],
    received: &[WagonNumber],
    refused: &[WagonNumber],
) -> bool
    requires received { length received.now ≤ 60 }
    requires refused { length refused.now ≤ 60 }
    ensures { result ≡ list_all (λ w. count_by (λ v. v == w) (received.now ++ refused.now) == 1)
        offered.now }
{
    offered
        .iter()
        .all(|wagon| is_answered_once(*wagon, received, refused))
}

#[tactic(auto, using(crate::proofs::AnswerLemmas::count_in_both))]
fn is_answered_once(wagon: WagonNumber, received: &[WagonNumber], refused: &[WagonNumber]) -> bool
    requires received { length received.now ≤ 60 }
    requires refused { length refused.now ≤ 60 }
    ensures { result ≡ (count_by (λ v. v == wagon) (received.now ++ refused.now) == 1) }
{
    count_of(wagon, received) + count_of(wagon, refused) == 1
}

/// Whether the wagons of both lists are offered.
#[tactic(auto, using(crate::proofs::AnswerLemmas::all_in_both))]
pub(crate) fn are_among(
    received: &[WagonNumber],
    refused: &[WagonNumber],
    offered: &[WagonNumber],
) -> bool
    ensures { result ≡ list_all (λ w. has offered.now w) (received.now ++ refused.now) }
{
    are_offered(received, offered) && are_offered(refused, offered)
}

fn are_offered(wagons: &[WagonNumber], offered: &[WagonNumber]) -> bool
    ensures { result ≡ list_all (λ w. has offered.now w) wagons.now }
{
    wagons.iter().all(|wagon| offered.contains(wagon))
}

// How often a list names a wagon.
fn count_of(wagon: WagonNumber, wagons: &[WagonNumber]) -> usize
    ensures count { result ≡ count_by (λ v. v == wagon) wagons.now }
    ensures few { result ≤ length wagons.now }
{
    wagons.iter().filter(|named| **named == wagon).count()
}
