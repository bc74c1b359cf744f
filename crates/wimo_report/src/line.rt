//! The line of one wagon.
ghost use Rattle.std.specs.Prelude.{◌≡◌, ◌-◌, ◌≤◌, ◌++◌, ◌∷◌, IfOk, OnOk, string_bytes};
ghost use Rattle.std.specs.List.{join_with_byte};
ghost use Rattle.wimo_report.specs.Report.{first_columns, last_columns, line_of, minutes_late, place_column, railway_column, time_column};

use crate::column::{put, put_left, put_right, put_units};
use itoa::Buffer;
use std::alloc::{AllocError, Global};
use taf_codes::{Place, Railway};
use taf_messages::Record;
use taf_moment::Moment;

// No line without units is longer.
const USUAL_LENGTH: usize = 96;

/// The line of a record.
pub(crate) fn line(alloc: Global, shown: &Record) -> Result<String, AllocError>
    ensures { IfOk result (λ text. string_bytes text ≡ line_of shown.now) }
{
    let mut line = String::with_capacity(alloc, USUAL_LENGTH)?;
    put_head(&mut line, shown)?;
    put_tail(&mut line, shown)?;
    put_units(&mut line, shown.units.as_slice())?;
    Ok(line)
}

// Appends the wagon, who is in charge, and the leg.
fn put_head(line: &mut String, shown: &Record) -> Result<(), AllocError>
    ensures { OnOk result (string_bytes line.new ≡ string_bytes line.old
        ++ join_with_byte 32 (first_columns shown.now)) }
{
    let wagon = shown.wagon.text();
    let mut digits = Buffer::new();
    line.push_str(wagon.as_str())?;
    put(line, shown.lead.as_str())?;
    put_railway(line, shown.responsible)?;
    put(line, digits.format(shown.leg.get()))?;
    Ok(())
}

// Appends how far the journey has come, the place, the times and the status.
fn put_tail(line: &mut String, shown: &Record) -> Result<(), AllocError>
    ensures { OnOk result (string_bytes line.new ≡ string_bytes line.old
        ++ (32 ∷ join_with_byte 32 (last_columns shown.now))) }
{
    let mut digits = Buffer::new();
    put_left(line, shown.stage.name())?;
    put_place(line, shown.place)?;
    put_time(line, shown.eta)?;
    put_right(line, digits.format(late_by(shown.eta, shown.commit)))?;
    put(line, shown.status.name())?;
    Ok(())
}

fn put_railway(line: &mut String, railway: Option<Railway>) -> Result<(), AllocError>
    ensures { OnOk result (string_bytes line.new ≡ string_bytes line.old
        ++ (32 ∷ railway_column railway)) }
{
    match railway {
        Some(railway) => put(line, railway.as_str()),
        None => put(line, "----"),
    }
}

fn put_place(line: &mut String, place: Option<Place>) -> Result<(), AllocError>
    ensures { OnOk result (string_bytes line.new ≡ string_bytes line.old
        ++ (32 ∷ place_column place)) }
{
    match place {
        Some(place) => put(line, place.as_str()),
        None => put(line, "-------"),
    }
}

fn put_time(line: &mut String, at: Option<Moment>) -> Result<(), AllocError>
    ensures { OnOk result (string_bytes line.new ≡ string_bytes line.old ++ (32 ∷ time_column at)) }
{
    match at {
        Some(at) => put(line, at.text().as_str()),
        None => put(line, "-----------------"),
    }
}

// The minutes by which the wagon is expected after the commitment, 0 where it is not late.
fn late_by(eta: Option<Moment>, commit: Moment) -> u32
    ensures { result ≡ minutes_late eta commit }
{
    match eta {
        Some(eta) => eta.minutes().saturating_sub(commit.minutes()),
        None => 0,
    }
}
