//! The report of the wagons: by one thread and by many, of a view and of a hub, of many wagons, and with each growth refused in
//! turn.

use crate::changes::WITH_UNIT;
use crate::many::{MOST_WAGONS_AND_LEGS, NINE_LEGS, WAGONS_61, delays};
use crate::play::{DEPARTED, new_hub, no_difference, output_of};
use hub_core::{Hub, View};
use memory_limit::MemoryLimit;
use std::alloc::Global;
use std::test::Fail;
use std::thread::Threads;
use taf_codes::Memory;
use taf_messages::Record;
use test_scripts::{Script, add_line, count_lines};
use wagon_number::WagonNumber;
use wimo_report::{hub_lines, lines, plain_lines};

const OF_TWO: &str = "wagons 2
218124712173 R100 R101 0 running   ------- 2025-03-01T15:00Z         0 loaded_on_journey
338478961232 R100 ---- 0 planned   DE00001 -----------------         0 loading
";

const OF_A_UNIT: &str = "wagons 2
218124712173 R100 ---- 0 planned   DE00001 -----------------         0 loading CSQU3054383
338478961232 R100 ---- 0 planned   DE00001 -----------------         0 loading
";

// A wagon with a unit, which is expected a day and a minute after its commitment.
const LATE: &str =
    r#"{"at":"2025-03-01T05:30Z","from":"R100","kind":"release","no":2,"wagon":"218124712173"}
{"at":"2025-03-01T06:00Z","from":"R101","kind":"depart","no":1,"wagon":"218124712173"}
{"at":"2025-03-02T11:31Z","from":"R101","kind":"eti","no":2,"wagon":"218124712173"}"#;

const OF_A_LATE_WAGON: &str = "wagons 2
218124712173 R100 R101 0 running   ------- 2025-03-02T15:31Z      1441 loaded_on_journey CSQU3054383
338478961232 R100 ---- 0 planned   DE00001 -----------------         0 loading
";

// A wagon with two units, which was to come in the first minute of the calendar and comes in the last.
const LATEST: &str =
    r#"{"commit":"1970-01-01T00:00Z","consignment":"C-1","from":"R100","kind":"plan","legs":[{"minutes":300,"origin":"DE00001","ru":"R101","target":"IT00003"}],"load":"loaded","no":1,"units":[{"unit":"AAAU0000060","wagon":"218124712173"},{"unit":"CSQU3054383","wagon":"218124712173"}],"wagons":["218124712173"]}
{"at":"2025-03-01T05:30Z","from":"R100","kind":"release","no":2,"wagon":"218124712173"}
{"at":"2025-03-01T06:00Z","from":"R101","kind":"depart","no":1,"wagon":"218124712173"}
{"at":"2199-12-31T23:59Z","from":"R101","kind":"arrival","no":2,"wagon":"218124712173"}
{"at":"2199-12-31T23:59Z","from":"R101","kind":"delivery","no":3,"wagon":"218124712173"}"#;

const OF_THE_LATEST_WAGON: &str = "wagons 1
218124712173 R100 ---- 0 delivered IT00003 2199-12-31T23:59Z 120968639 unloading AAAU0000060,CSQU3054383
";

static AFTER_DELAYS: &str = "wagons 2
218124712173 R100 R101 0 running   ------- 2025-03-15T12:20Z     19970 loaded_on_journey
";

// Calls, how many lines the report after them has, and its first ones.
static REPORTS: &[(&[&str], usize, &str)] = &[
    (&[], 1, "wagons 0\n"),
    (&[DEPARTED], 3, OF_TWO),
    (&[WITH_UNIT], 3, OF_A_UNIT),
    (&[WITH_UNIT, LATE], 3, OF_A_LATE_WAGON),
    (&[LATEST], 2, OF_THE_LATEST_WAGON),
    (&[MOST_WAGONS_AND_LEGS], 61, "wagons 60\n"),
    (&[NINE_LEGS], 1, "wagons 0\n"),
    (&[WAGONS_61], 1, "wagons 0\n"),
];

// A hub after these calls.
fn hub_after(rt: &impl Threads, alloc: Global, input: &[u8]) -> Result<Box<Hub>, Fail> {
    let mut hub = new_hub(alloc)?;
    output_of(rt, alloc, &mut hub, input)?;
    Ok(hub)
}

fn joined(alloc: Global, lines: &[String]) -> Result<Vec<u8>, Fail> {
    let mut text = Vec::new(alloc);
    for line in lines {
        add_line(&mut text, line.as_bytes())?;
    }
    Ok(text)
}

// The report of the view. Fails unless it is the same by one thread and by many.
fn report_of_view(rt: &(impl Threads + Sync), alloc: Global, view: &View) -> Result<Vec<u8>, Fail> {
    let plain = plain_lines(alloc, view)?;
    let parallel = lines(rt, alloc, view)?;
    if plain == parallel {
        joined(alloc, &plain)
    } else {
        Err(Fail::new("threads make other lines"))
    }
}

// The report of the hub. Fails unless it is that of its view.
fn report_of(rt: &(impl Threads + Sync), alloc: Global, hub: &Hub) -> Result<Vec<u8>, Fail> {
    let whole = report_of_view(rt, alloc, &hub.view()?)?;
    let report = joined(alloc, &hub_lines(rt, alloc, hub)?)?;
    if report == whole {
        Ok(report)
    } else {
        Err(Fail::new("a hub makes other lines than its view"))
    }
}

// Fails unless the report after these calls has so many lines, of which these are the first.
fn reports(
    rt: &(impl Threads + Sync),
    alloc: Global,
    input: &[u8],
    count: usize,
    wanted: &str,
) -> Result<(), Fail> {
    let hub = hub_after(rt, alloc, input)?;
    let report = report_of(rt, alloc, &hub)?;
    let front = report.get(..wanted.len()).unwrap_or(&report);
    no_difference(front, wanted.as_bytes())?;
    if count_lines(&report) == count {
        Ok(())
    } else {
        Err(Fail::new("more lines, or fewer"))
    }
}

// The same after the calls of an example.
fn reports_after(
    rt: &(impl Threads + Sync),
    alloc: Global,
    example: &[&str],
    count: usize,
    wanted: &str,
) -> Result<(), Fail> {
    let script = Script::of(alloc, example)?;
    reports(rt, alloc, &script.input, count, wanted)
}

fn reports_each(rt: &(impl Threads + Sync), alloc: Global) -> Result<(), Fail> {
    for (example, count, wanted) in REPORTS {
        reports_after(rt, alloc, example, *count, wanted)?;
    }
    Ok(())
}

#[test]
fn each_wagon_has_its_line(rt: HostRuntime) -> Result<(), Fail> {
    reports_each(&rt, rt.alloc())
}

#[test]
fn a_wagon_that_is_late_by_many_delays(rt: HostRuntime) -> Result<(), Fail> {
    let script = delays(rt.alloc())?;
    reports(&rt, rt.alloc(), &script.input, 3, AFTER_DELAYS)
}

// Adds the records, each as of a wagon that is expected so many minutes after its commitment.
fn add_expected(records: &mut Vec<Record>, shown: &[Record], minutes: u32) -> Result<(), Memory> {
    for one in shown {
        let mut record = one.clone()?;
        record.eta = one.commit.plus(minutes);
        records.push(record)?;
    }
    Ok(())
}

static A_UNIT: &[&str] = &[WITH_UNIT];

// A view of twice so many wagons, every other one with a unit.
fn many_wagons(rt: &impl Threads, alloc: Global, times: u32) -> Result<View, Fail> {
    let script = Script::of(alloc, A_UNIT)?;
    let view = hub_after(rt, alloc, &script.input)?.view()?;
    let mut records = Vec::new(alloc);
    for minutes in 0..times {
        add_expected(&mut records, view.records(), minutes)?;
    }
    Ok(View::from_vec(records))
}

#[test]
fn threads_make_the_plain_lines(rt: HostRuntime) -> Result<(), Fail> {
    let view = many_wagons(&rt, rt.alloc(), 1_500)?;
    let report = report_of_view(&rt, rt.alloc(), &view)?;
    assert!(rt; report.starts_with(b"wagons 3000\n"));
    assert_eq!(rt; count_lines(&report), 3_001);
    Ok(())
}

// A plan of a wagon alone, in pieces: between them come its number, its number again, and the wagon.
const CONSIGNMENT: &str = r#"{"commit":"2025-03-01T15:00Z","consignment":"C-"#;

const LEGS: &str =
    r#"","from":"R100","kind":"plan","legs":[{"minutes":300,"origin":"DE00001","ru":"R101","target":"IT00003"}],"load":"loaded","no":"#;

const WAGONS: &str = r#","wagons":[""#;

const END: &str = "\"]}\n";

fn add(input: &mut Vec<u8>, text: &str) -> Result<(), Fail> {
    input.extend_from_slice(text.as_bytes())?;
    Ok(())
}

// Adds a plan of a wagon alone.
fn add_plan(alloc: Global, input: &mut Vec<u8>, number: u32, wagon: &str) -> Result<(), Fail> {
    let digits = format!(in alloc; "{number}")?;
    add(input, CONSIGNMENT)?;
    add(input, &digits)?;
    add(input, LEGS)?;
    add(input, &digits)?;
    add(input, WAGONS)?;
    add(input, wagon)?;
    add(input, END)
}

// Plans of the wagons among so many numbers in a row, each alone. Of ten numbers one has its check digit.
fn plans(alloc: Global, numbers: u32) -> Result<Vec<u8>, Fail> {
    let mut input = Vec::new(alloc);
    for number in 0..numbers {
        let wagon = format!(in alloc; "3384{number:08}")?;
        if WagonNumber::read(&wagon).is_ok() {
            add_plan(alloc, &mut input, number + 1, &wagon)?;
        }
    }
    Ok(input)
}

#[test]
fn the_parts_of_a_hub_make_the_lines_of_its_view(rt: HostRuntime) -> Result<(), Fail> {
    let hub = hub_after(&rt, rt.alloc(), &plans(rt.alloc(), 50_000)?)?;
    let report = report_of(&rt, rt.alloc(), &hub)?;
    assert!(rt; report.starts_with(b"wagons 5000\n"));
    assert_eq!(rt; count_lines(&report), 5_001);
    Ok(())
}

// A view, its lines, and what takes up memory while they are made.
#[derive(Drop)]
struct Scarcity {
    memory_limit: MemoryLimit,
    view: View,
    whole: Vec<String>,
}

impl Scarcity {
    fn new(alloc: Global, view: View) -> Result<Scarcity, Fail> {
        let whole = plain_lines(alloc, &view)?;
        let memory_limit = MemoryLimit::new(alloc)?;
        Ok(Scarcity {
            memory_limit,
            view,
            whole,
        })
    }

    // Whether the lines were made. Fails where they are others.
    fn is_made(&self, told: Result<Vec<String>, Memory>) -> Result<bool, Fail> {
        match told {
            Ok(lines) if lines == self.whole => Ok(true),
            Ok(_) => Err(Fail::new("other lines")),
            Err(Memory) => Ok(false),
        }
    }

    // Whether so many bytes are enough, for one thread and for many.
    fn is_enough(
        &mut self,
        rt: &(impl Threads + Sync),
        alloc: Global,
        left: usize,
    ) -> Result<bool, Fail> {
        self.memory_limit.limit_to(left)?;
        let plain = plain_lines(alloc, &self.view);
        let parallel = lines(rt, alloc, &self.view);
        self.memory_limit.release();
        let is_plain = self.is_made(plain)?;
        let is_parallel = self.is_made(parallel)?;
        Ok(is_plain && is_parallel)
    }

    // How many budgets aren't enough, each of 64 bytes more than the one before.
    fn budgets(&mut self, rt: &(impl Threads + Sync), alloc: Global) -> Result<usize, Fail> {
        for step in 0..4_000usize {
            if self.is_enough(rt, alloc, step * 64)? {
                return Ok(step);
            }
        }
        Err(Fail::new("always refused"))
    }
}

#[test]
fn each_growth_of_a_report_is_refused_in_turn(rt: HostRuntime) -> Result<(), Fail> {
    let view = many_wagons(&rt, rt.alloc(), 10)?;
    let mut scarcity = Scarcity::new(rt.alloc(), view)?;
    assert!(rt; scarcity.budgets(&rt, rt.alloc())? > 20);
    Ok(())
}
