ghost use Rattle.std.specs.Prelude.{◌≡◌, None, IfOk, slice_get, string_bytes, option_map, option_and_then};
ghost use Rattle.benchmarks.specs.Names.{bench_named};
ghost use Rattle.benchmarks.specs.Words.{bench_in};

use crate::bench::Bench;
use anyhow::{Result, bail};

/// What the words ask for.
#[derive(Clone, Copy, Debug, PartialEq, Eq)]
pub enum Asked {
    Names,
    Run { bench: Bench, count: u64 },
    /// The schedules of so many seeds, from the first one on.
    Schedules { count: u64, first: u64 },
}

// How many schedules are run where no count is given.
const USUAL_SCHEDULES: u64 = 1_000;

/// What the words after the program's name ask for.
pub fn read_words(words: &[String]) -> Result<Asked>
    ensures { IfOk result (λ asked. bench_in asked
        ≡ option_and_then bench_named (option_map string_bytes (slice_get words.now 0))) }
{
    let Some(name) = words.get(0) else {
        return Ok(Asked::Names);
    };
    match Bench::named(name.as_str()) {
        Some(bench) => Ok(Asked::Run {
            bench,
            count: read_number(words.get(1), bench.usual_count())?,
        }),
        None => read_schedules(name.as_str(), words),
    }
}

// The schedules that are asked for by this name, if they are.
fn read_schedules(name: &str, words: &[String]) -> Result<Asked>
    ensures { IfOk result (λ asked. bench_in asked ≡ None) }
{
    if name != "schedules" {
        bail!("no benchmark of that name");
    }
    Ok(Asked::Schedules {
        count: read_number(words.get(1), USUAL_SCHEDULES)?,
        first: read_number(words.get(2), 1)?,
    })
}

// The number that a word says, or the usual one where there is no word.
fn read_number(word: Option<&String>, usual: u64) -> Result<u64> {
    match word {
        Some(word) => Ok(word.as_str().parse::<u64>()?),
        None => Ok(usual),
    }
}
