//! Each growth refused in turn: of a hub that takes the calls of an interchange, and of a view of it.

use crate::play::{INTERCHANGE, new_hub, no_difference, plays_on};
use crate::trains::AFTER_INTERCHANGE;
use call_reader::read_call;
use hub_core::{Hub, View};
use memory_limit::MemoryLimit;
use reply_writer::{Buffer, append_reply};
use std::alloc::Global;
use std::test::Fail;
use std::thread::Threads;
use taf_messages::{Call, Reply};
use test_scripts::Script;

static AFTERWARDS: &[&str] = &[AFTER_INTERCHANGE];

// The reply of the hub, if memory isn't refused.
fn reply_of(hub: &mut Hub, call: Call) -> Option<Reply> {
    match hub.apply(call) {
        Ok((_, reply)) => Some(reply),
        Err(_) => None,
    }
}

// How much is left for each call, and how often that wasn't enough.
#[derive(Drop)]
struct Scarcity {
    memory_limit: MemoryLimit,
    left: usize,
    refused: u32,
}

impl Scarcity {
    fn new(alloc: Global) -> Result<Scarcity, Fail> {
        let memory_limit = MemoryLimit::new(alloc)?;
        Ok(Scarcity {
            memory_limit,
            left: 0,
            refused: 0,
        })
    }

    fn apply(&mut self, hub: &mut Hub, call: Call) -> Result<Option<Reply>, Fail> {
        self.memory_limit.limit_to(self.left)?;
        let reply = reply_of(hub, call);
        self.memory_limit.release();
        Ok(reply)
    }

    // The reply to the call of a line, which is made again where memory is refused.
    fn reply(&mut self, alloc: Global, hub: &mut Hub, line: &str) -> Result<Reply, Fail> {
        let before = hub.len();
        if let Some(reply) = self.apply(hub, read_call(alloc, line.as_bytes())?)? {
            return Ok(reply);
        }
        if hub.len() != before {
            return Err(Fail::new("changed without memory"));
        }
        self.refused = self.refused.saturating_add(1);
        let again = read_call(alloc, line.as_bytes())?;
        reply_of(hub, again).ok_or_else(|| Fail::new("refused with ample memory"))
    }

    fn add_reply(
        &mut self,
        alloc: Global,
        hub: &mut Hub,
        line: &str,
        lines: &mut Buffer,
    ) -> Result<(), Fail> {
        let reply = self.reply(alloc, hub, line)?;
        append_reply(alloc, lines, &reply)?;
        lines.push_text(b"\n")?;
        Ok(())
    }

    // Adds the lines of the replies to the calls of a part.
    fn add_replies(
        &mut self,
        alloc: Global,
        hub: &mut Hub,
        part: &str,
        lines: &mut Buffer,
    ) -> Result<(), Fail> {
        for line in part.lines() {
            if !line.starts_with("> ") {
                self.add_reply(alloc, hub, line, lines)?;
            }
        }
        Ok(())
    }

    fn replies(&mut self, alloc: Global, hub: &mut Hub) -> Result<Buffer, Fail> {
        let mut lines = Buffer::new(Vec::new(alloc));
        for part in INTERCHANGE {
            self.add_replies(alloc, hub, part, &mut lines)?;
        }
        Ok(lines)
    }

    // Fails unless the calls of the interchange have the replies that they ever have.
    fn interchange(&mut self, alloc: Global, hub: &mut Hub) -> Result<(), Fail> {
        let lines = self.replies(alloc, hub)?;
        let script = Script::of(alloc, INTERCHANGE)?;
        no_difference(lines.as_slice(), &script.wanted)
    }

    // The view of the hub, which is asked for again where memory is refused.
    fn view(&mut self, hub: &Hub) -> Result<View, Fail> {
        self.memory_limit.limit_to(self.left)?;
        let view = hub.view();
        self.memory_limit.release();
        if let Ok(view) = view {
            return Ok(view);
        }
        self.refused = self.refused.saturating_add(1);
        Ok(hub.view()?)
    }

    // The view after the interchange. Fails unless the railways have the records and items then that they ever have.
    fn view_after(
        &mut self,
        rt: &impl Threads,
        alloc: Global,
        hub: &mut Hub,
    ) -> Result<View, Fail> {
        self.interchange(alloc, hub)?;
        plays_on(rt, alloc, hub, AFTERWARDS)?;
        self.view(hub)
    }

    // The same of a new hub, where so many bytes are left for each call.
    fn seen(&mut self, rt: &impl Threads, alloc: Global, left: usize) -> Result<View, Fail> {
        self.left = left;
        self.refused = 0;
        let mut hub = new_hub(alloc)?;
        self.view_after(rt, alloc, &mut hub)
    }

    // Whether so many bytes are enough. Fails unless the view is this one.
    fn is_enough(
        &mut self,
        rt: &impl Threads,
        alloc: Global,
        left: usize,
        wanted: &View,
    ) -> Result<bool, Fail> {
        let view = self.seen(rt, alloc, left)?;
        if view.records() != wanted.records() {
            return Err(Fail::new("other records"));
        }
        Ok(self.refused == 0)
    }

    // How many budgets aren't enough, each of sixteen bytes more than the one before.
    fn budgets(&mut self, rt: &impl Threads, alloc: Global, wanted: &View) -> Result<usize, Fail> {
        for step in 0..100_000usize {
            if self.is_enough(rt, alloc, step * 16, wanted)? {
                return Ok(step);
            }
        }
        Err(Fail::new("always refused"))
    }

    fn check(&mut self, rt: &impl Threads, alloc: Global) -> Result<(), Fail> {
        let view = self.seen(rt, alloc, 1 << 20)?;
        if self.refused > 0 || view.records().len() != 2 {
            return Err(Fail::new("refused, or not both wagons"));
        }
        if self.budgets(rt, alloc, &view)? > 20 {
            Ok(())
        } else {
            Err(Fail::new("refused too seldom"))
        }
    }
}

#[test]
fn each_growth_is_refused_in_turn(rt: HostRuntime) -> Result<(), Fail> {
    let mut scarcity = Scarcity::new(rt.alloc())?;
    scarcity.check(&rt, rt.alloc())
}
