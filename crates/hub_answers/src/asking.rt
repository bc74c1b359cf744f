//! Answers to a railway that asks for a wagon or an intermodal unit (4.2.11).
ghost use Rattle.std.specs.Prelude.{◌≡◌, IfOk, is_some, true};
ghost use Rattle.wimo.specs.Records.{record_of};
ghost use Rattle.hub_model.specs.Replies as of;
ghost use Rattle.hub_model.specs.Units.{unit_wagon};
ghost use Rattle.hub_tables.specs.TableStates.{table_state};

use hub_tables::{Tables, Wagon};
use std::alloc::Global;
use taf_codes::{Memory, Railway, UnitCode};
use taf_messages::{Refusal, Reply, Shared, Why};
use wagon_number::WagonNumber;

// How a question is refused: why, where there is no such wagon, and the wagon that each refusal names.
#[derive(Clone, Copy)]
struct Refusals {
    unknown: Why,
    wagon: Option<WagonNumber>,
}

/// The reply to a railway that asks for a wagon: its record, or why it gets none. A refusal names
/// the wagon. The only error is that memory was refused.
pub fn ask(alloc: Global, tables: &Tables, by: Railway, wagon: WagonNumber) -> Result<Reply, Memory>
    ensures { IfOk result (λ r. r ≡ of.ask_reply (table_state tables.now) by wagon) }
{
    let refusals = Refusals {
        unknown: Why::UnknownWagon,
        wagon: Some(wagon),
    };
    record_reply(alloc, tables, by, wagon, refusals)
}

/// The reply to a railway that asks for an intermodal unit: the record of its wagon, or why it gets
/// none. A refusal names no wagon. The only error is that memory was refused.
pub fn ask_unit(
    alloc: Global,
    tables: &Tables,
    by: Railway,
    unit: UnitCode,
) -> Result<Reply, Memory>
    ensures { let s = table_state tables.now in
        IfOk result (λ r. r ≡ of.unit_reply s by (unit_wagon s unit)) }
{
    match tables.unit_wagon(unit) {
        Some(wagon) => {
            let refusals = Refusals {
                unknown: Why::UnknownUnit,
                wagon: None,
            };
            record_reply(alloc, tables, by, wagon, refusals)
        }
        None => refusal_reply(alloc, Why::UnknownUnit, None),
    }
}

// The record of the wagon for a railway that may see it. It is refused where there is no such wagon, and else as not the
// railway's own.
fn record_reply(
    alloc: Global,
    tables: &Tables,
    by: Railway,
    wagon: WagonNumber,
    refusals: Refusals,
) -> Result<Reply, Memory>
    ensures { let events = (table_state tables.now).journey wagon in
        let unseen = of.refusal_reply Why.NotYours refusals.wagon in
        let unknown = of.refusal_reply refusals.unknown refusals.wagon in
        IfOk result (λ r. r ≡ of.record_reply by events (record_of wagon events) unknown unseen) }
{
    let Some(found) = tables.wagon(wagon) else {
        return refusal_reply(alloc, refusals.unknown, refusals.wagon);
    };
    if wimo::may_see(found.track(), by) {
        let shown = wimo::record_with(alloc, found.track(), &found.estimates())?;
        Ok(Reply::One(Shared::new(alloc, shown)?))
    } else {
        has_record(found);
        refusal_reply(alloc, Why::NotYours, refusals.wagon)
    }
}

// A wagon of the tables has a record: its journey has a plan and a stage.
fn has_record(wagon: &Wagon)
    ensures { is_some (record_of wagon.now.wagon wagon.now.events) ≡ true }
{
    let _plan = wagon.track().plan();
    let _stage = wagon.track().stage();
}

/// The refusal of a question.
pub(crate) fn refusal_reply(
    alloc: Global,
    why: Why,
    wagon: Option<WagonNumber>,
) -> Result<Reply, Memory>
    ensures { IfOk result (λ r. r ≡ of.refusal_reply why wagon) }
{
    let refusal = Refusal {
        no: None,
        why,
        wagon,
        last: None,
    };
    Ok(Reply::Refused(Shared::new(alloc, refusal)?))
}
