//! Numbers of the hub and of its server, as Prometheus reads them.
ghost use Rattle.std.specs.Prelude.{◌≡◌, [], ◌∷◌, ◌++◌, decimal, flat_map, IfOk, OnOk};
ghost use Rattle.board_answers.specs.Metrics.{every_why, kind_line, metric, number_line, metric_if_known, hub_metrics, refusal_line, refusal_lines, refusal_metrics, server_metrics, known_metrics, session_metrics, metrics_of, refused_for};

use crate::gauges::ServerNumbers;
use hub_shared::HubCounts;
use json_tokens::Buffer;
use std::alloc::Global;
use taf_codes::Memory;
use taf_messages::Why;

// Room for a number and its newline.
const ROOM: usize = 32;

const COUNTER: &str = "counter";

const GAUGE: &str = "gauge";

/// Numbers of a hub and of its server.
#[derive(Drop)]
pub(crate) struct Metrics<'a> {
    pub counts: HubCounts,
    /// Why calls were refused.
    pub whys: &'a [Why],
    /// How many microseconds a look at the hub took.
    pub look: u64,
    pub server: ServerNumbers,
}

/// The text of these numbers.
pub(crate) fn metrics_of(alloc: Global, metrics: &Metrics<'_>) -> Result<Vec<u8>, Memory>
    ensures { let m = metrics.now in
        IfOk result (λ text. text.items ≡ metrics_of m.counts m.whys.now m.look m.server) }
{
    let mut text = Buffer::new(Vec::new(alloc));
    put_hub(&mut text, metrics.counts)?;
    put_refusals(&mut text, metrics.whys)?;
    put_server(&mut text, metrics.look, metrics.server)?;
    Ok(text.into_vec())
}

// Puts how many calls the hub has taken, and how many wagons were planned.
#[tactic(auto, unfolding(crate::specs::Metrics::hub_metrics))]
fn put_hub(text: &mut Buffer, counts: HubCounts) -> Result<(), Memory>
    ensures { OnOk result (text.new.items ≡ text.old.items ++ hub_metrics counts) }
{
    put_metric(text, "taf_hub_calls_total", COUNTER, counts.calls as u64)?;
    put_metric(text, "taf_hub_wagons", GAUGE, counts.wagons as u64)
}

// Puts for each reason how many calls were refused for it.
#[tactic(auto, unfolding(crate::specs::Metrics::refusal_metrics))]
fn put_refusals(text: &mut Buffer, whys: &[Why]) -> Result<(), Memory>
    ensures { OnOk result (text.new.items ≡ text.old.items ++ refusal_metrics whys.now) }
{
    put_kind_line(text, "taf_hub_refusals_total", COUNTER)?;
    put_refusal_lines(text, whys)
}

// Puts a line for each reason.
#[tactic(auto, unfolding(crate::specs::Metrics::refusal_lines))]
fn put_refusal_lines(text: &mut Buffer, whys: &[Why]) -> Result<(), Memory>
    ensures { OnOk result (text.new.items ≡ text.old.items ++ refusal_lines whys.now) }
{
    let every = every_why();
    put_each_refusal(text, whys, &every)
}

// Each reason for which a call is refused.
#[tactic(auto, unfolding(crate::specs::Metrics::every_why))]
fn every_why() -> [Why; 20]
    ensures { result ≡ every_why }
{
    [
        Why::UnknownWagon,
        Why::UnknownConsignment,
        Why::UnknownOffer,
        Why::UnknownUnit,
        Why::ConsignmentTaken,
        Why::WagonBusy,
        Why::UnitBusy,
        Why::WrongStage,
        Why::NotYours,
        Why::WrongPlace,
        Why::WrongNext,
        Why::TooManyLegs,
        Why::NoSuchLeg,
        Why::LegStarted,
        Why::NotLastLeg,
        Why::OfferClosed,
        Why::ListsDiffer,
        Why::BeyondCalendar,
        Why::NumberReused,
        Why::AckAhead,
    ]
}

// Puts for each of these reasons how many calls were refused for it.
fn put_each_refusal(text: &mut Buffer, whys: &[Why], every: &[Why]) -> Result<(), Memory>
    ensures { OnOk result (text.new.items
        ≡ text.old.items ++ flat_map (refusal_line whys.now) every.now) }
{
    for why in every {
        put_refusal(text, whys, *why)?;
    }
    Ok(())
}

// Puts how many calls were refused for this reason.
#[tactic(auto, unfolding(crate::specs::Metrics::refusal_line))]
fn put_refusal(text: &mut Buffer, whys: &[Why], why: Why) -> Result<(), Memory>
    ensures { OnOk result (text.new.items ≡ text.old.items ++ refusal_line whys.now why) }
{
    text.push_text(b"taf_hub_refusals_total{why=\"")?;
    text.push_text(why.name().as_bytes())?;
    text.push_text(b"\"} ")?;
    put_number(text, refused_for(whys, why) as u64)
}

// How many calls were refused for this reason.
fn refused_for(whys: &[Why], why: Why) -> usize
    ensures { result ≡ refused_for whys.now why }
{
    let name = why.name();
    whys.iter().filter(|other| other.name() == name).count()
}

// Puts how long a look took, and what is known of the server.
#[tactic(auto, unfolding(crate::specs::Metrics::server_metrics))]
fn put_server(text: &mut Buffer, look: u64, server: ServerNumbers) -> Result<(), Memory>
    ensures { OnOk result (text.new.items ≡ text.old.items ++ server_metrics look server) }
{
    put_metric(text, "taf_hub_look_microseconds", GAUGE, look)?;
    put_known(text, server)
}

// Puts what is known of the server.
#[tactic(auto, unfolding(crate::specs::Metrics::known_metrics))]
fn put_known(text: &mut Buffer, server: ServerNumbers) -> Result<(), Memory>
    ensures { OnOk result (text.new.items ≡ text.old.items ++ known_metrics server) }
{
    put_sessions(text, server)?;
    put_if_known(text, "process_resident_memory_bytes", server.memory)
}

// Puts how many sessions are under way, and how many connections wait.
#[tactic(auto, unfolding(crate::specs::Metrics::session_metrics))]
fn put_sessions(text: &mut Buffer, server: ServerNumbers) -> Result<(), Memory>
    ensures { OnOk result (text.new.items ≡ text.old.items ++ session_metrics server) }
{
    put_if_known(text, "taf_hub_sessions", server.sessions)?;
    put_if_known(text, "taf_hub_connections_waiting", server.waiting)
}

// Puts a gauge, where its number is known.
#[tactic(auto, unfolding(crate::specs::Metrics::metric_if_known))]
fn put_if_known(text: &mut Buffer, name: &str, number: Option<u64>) -> Result<(), Memory>
    ensures { OnOk result
        (text.new.items ≡ text.old.items ++ metric_if_known name.now number) }
{
    match number {
        Some(number) => put_metric(text, name, GAUGE, number),
        None => Ok(()),
    }
}

// Puts a number with its name and its kind.
#[tactic(auto, unfolding(crate::specs::Metrics::metric))]
fn put_metric(text: &mut Buffer, name: &str, kind: &str, number: u64) -> Result<(), Memory>
    ensures { OnOk result
        (text.new.items ≡ text.old.items ++ metric name.now kind.now number) }
{
    put_kind_line(text, name, kind)?;
    put_number_line(text, name, number)
}

// Puts of which kind a number is.
#[tactic(auto, unfolding(crate::specs::Metrics::kind_line))]
fn put_kind_line(text: &mut Buffer, name: &str, kind: &str) -> Result<(), Memory>
    ensures { OnOk result (text.new.items ≡ text.old.items ++ kind_line name.now kind.now) }
{
    text.push_text(b"# TYPE ")?;
    text.push_text(name.as_bytes())?;
    text.push_text(b" ")?;
    text.push_text(kind.as_bytes())?;
    Ok(text.push_text(b"\n")?)
}

// Puts a number with its name.
#[tactic(auto, unfolding(crate::specs::Metrics::number_line))]
fn put_number_line(text: &mut Buffer, name: &str, number: u64) -> Result<(), Memory>
    ensures { OnOk result (text.new.items ≡ text.old.items ++ number_line name.now number) }
{
    text.push_text(name.as_bytes())?;
    text.push_text(b" ")?;
    put_number(text, number)
}

// Puts a number and a newline.
#[tactic(auto, using(json_tokens::proofs::DigitLemmas::twenty_digits))]
fn put_number(text: &mut Buffer, number: u64) -> Result<(), Memory>
    ensures { OnOk result (text.new.items ≡ text.old.items ++ decimal number ++ 10 ∷ []) }
{
    text.reserve(ROOM)?;
    text.put_number(false, b"", number, b"\n");
    Ok(())
}
