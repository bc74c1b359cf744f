use benchmarks::{Asked, Bench, Measured, perform, read_words};
use std::alloc::Global;
use std::random::RandomSource;
use std::sync::Wait;
use std::test::Fail;
use std::thread::Threads;
use std::time::Clock;

fn strings(alloc: Global, words: &[&str]) -> Result<Vec<String>, Fail> {
    let mut strings = Vec::new(alloc);
    for word in words {
        strings.push(word.to_string(alloc)?)?;
    }
    Ok(strings)
}

// What the words ask for.
fn asked(alloc: Global, words: &[&str]) -> Result<Asked, Fail> {
    let words = strings(alloc, words)?;
    Ok(read_words(&words)?)
}

// What is printed where this is asked for.
fn printed(
    rt: &(impl Threads + Wait + Clock + RandomSource + Sync),
    alloc: Global,
    words: &[&str],
) -> Result<Vec<u8>, Fail> {
    let asked = asked(alloc, words)?;
    let mut output = Vec::new(alloc);
    perform(rt, alloc, &mut output, asked)?;
    Ok(output)
}

// The benchmarks, and how many lines each prints.
static BENCHMARKS: [(&str, usize); 11] = [
    ("parse", 1),
    ("read", 1),
    ("replies", 1),
    ("record", 1),
    ("items", 1),
    ("copies", 2),
    ("journey", 4),
    ("hub", 3),
    ("report", 2),
    ("lane", 2),
    ("shift", 1),
];

// Whether so many lines are printed, of which the first begins with the name.
fn is_printed(output: &[u8], name: &str, lines: usize) -> bool {
    let newlines = output.iter().filter(|byte| **byte == b'\n').count();
    output.starts_with(name.as_bytes()) && newlines == lines
}

#[test]
fn each_benchmark_runs(rt: HostRuntime) -> Result<(), Fail> {
    for (name, lines) in &BENCHMARKS {
        let output = printed(&rt, rt.alloc(), &[*name, "3"])?;
        if !is_printed(&output, name, *lines) {
            return Err(Fail::new(*name));
        }
    }
    Ok(())
}

// Whether the words ask for so many readings.
fn asks_for(alloc: Global, words: &[&str], count: u64) -> Result<bool, Fail> {
    let bench = Bench::Read;
    Ok(asked(alloc, words)? == Asked::Run { bench, count })
}

// The usual count, and one that is given.
#[test]
fn words_are_read(rt: HostRuntime) -> Result<(), Fail> {
    assert!(rt; asks_for(rt.alloc(), &["read"], 200_000)?);
    assert!(rt; asks_for(rt.alloc(), &["read", "12"], 12)?);
    assert!(rt; asked(rt.alloc(), &[])? == Asked::Names);
    let words = strings(rt.alloc(), &["read", "12x"])?;
    assert!(rt; read_words(&words).is_err());
    Ok(())
}

#[test]
fn a_measurement_is_shown(rt: HostRuntime) -> Result<(), Fail> {
    let mut measured = Measured {
        count: 1_000,
        nanos: 3_000_000,
    };
    measured.add(Measured {
        count: 500,
        nanos: 2_000_000,
    });
    let text = format!(in rt.alloc(); "{measured}")?;
    assert!(rt; text.as_str() == "1500 things, 5 ms, 300000 per second");
    Ok(())
}
