//! Reading calls and writing replies.

use crate::journeys::Run;
use crate::measured::Measured;
use crate::samples;
use anyhow::{Result, bail};
use call_reader::{CallReader, FlatRecord};
use reply_writer::{Buffer, append_reply};
use serde_json::Value;
use std::alloc::Global;
use std::time::{Clock, Instant};
use taf_messages::{Call, Reply, Shared};

/// The lines of departures, read by `serde_json` alone.
pub(crate) fn parse(clock: &impl Clock, alloc: Global, count: u64) -> Result<Measured> {
    let lines = samples::departures(alloc, count)?;
    let start = Instant::now(clock)?;
    for line in &lines {
        let value = Value::from_slice(alloc, line.as_bytes())?;
        if !value.is_object() {
            bail!("the sample is no object");
        }
    }
    Measured::since(clock, start, count)
}

/// The same lines, read as calls.
pub(crate) fn read(clock: &impl Clock, alloc: Global, count: u64) -> Result<Measured> {
    let lines = samples::departures(alloc, count)?;
    let mut reader = CallReader::new(alloc);
    let mut record = FlatRecord::new(alloc);
    let start = Instant::now(clock)?;
    for line in &lines {
        let call = reader.read(&mut record, line.as_bytes())?;
        if !matches!(&call, Call::Send(_)) {
            bail!("the sample is no message");
        }
    }
    Measured::since(clock, start, count)
}

/// Accepted replies, written.
pub(crate) fn replies(clock: &impl Clock, alloc: Global, count: u64) -> Result<Measured> {
    let no = samples::number(123_456)?;
    written(clock, alloc, &Reply::Accepted { no }, count)
}

/// Replies with a record of sixty events, written.
pub(crate) fn shown(clock: &impl Clock, alloc: Global, count: u64) -> Result<Measured> {
    let run = Run::grown(alloc, &samples::plan(alloc)?, 60)?;
    written(
        clock,
        alloc,
        &Reply::One(Shared::new(alloc, run.shown(alloc)?)?),
        count,
    )
}

/// Replies of fifty items, written.
pub(crate) fn items(clock: &impl Clock, alloc: Global, count: u64) -> Result<Measured> {
    let items = samples::estimates(alloc, 50)?;
    written(
        clock,
        alloc,
        &Reply::Items(Shared::new(alloc, items)?),
        count,
    )
}

// The reply, written many times into one buffer.
fn written(clock: &impl Clock, alloc: Global, reply: &Reply, count: u64) -> Result<Measured> {
    let mut out = Buffer::new(Vec::new(alloc));
    let start = Instant::now(clock)?;
    for _ in 0..count {
        out.clear();
        append_reply(alloc, &mut out, reply)?;
    }
    Measured::since(clock, start, count)
}
