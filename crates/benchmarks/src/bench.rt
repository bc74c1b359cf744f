//! The benchmarks and their names.
ghost use Rattle.std.specs.Prelude.{◌≡◌};
ghost use Rattle.benchmarks.specs.Names.{bench_name, bench_named};

/// What is measured.
#[derive(Clone, Copy, Debug, PartialEq, Eq)]
pub enum Bench {
    Parse,
    Read,
    Replies,
    Record,
    Items,
    Copies,
    Journey,
    Hub,
    Report,
    Lane,
    Shift,
}

pub(crate) const ALL: [Bench; 11] = [
    Bench::Parse,
    Bench::Read,
    Bench::Replies,
    Bench::Record,
    Bench::Items,
    Bench::Copies,
    Bench::Journey,
    Bench::Hub,
    Bench::Report,
    Bench::Lane,
    Bench::Shift,
];

impl Bench {
    pub fn name(self) -> &'static str
        ensures { result.now ≡ bench_name self }
    {
        match self {
            Bench::Parse => "parse",
            Bench::Read => "read",
            Bench::Replies => "replies",
            Bench::Record => "record",
            Bench::Items => "items",
            Bench::Copies => "copies",
            Bench::Journey => "journey",
            Bench::Hub => "hub",
            Bench::Report => "report",
            Bench::Lane => "lane",
            Bench::Shift => "shift",
        }
    }

    /// The benchmark of that name.
    #[tactic(auto, unfolding(crate::specs::Names::bench_named))]
    pub fn named(name: &str) -> Option<Bench>
        ensures { result ≡ bench_named name.now }
    {
        ALL.iter().copied().find(|bench| bench.name() == name)
    }

    /// What is counted.
    pub fn thing(self) -> &'static str {
        match self {
            Bench::Parse => "lines that serde_json reads",
            Bench::Read => "lines that are read as calls",
            Bench::Replies => "accepted replies",
            Bench::Record => "replies with a record of sixty events",
            Bench::Items => "replies of fifty items",
            Bench::Copies => "copies of a plan of sixty wagons, shared and made again",
            Bench::Journey => "events on tracks of several lengths",
            Bench::Hub => "calls of whole trips, to hubs of several lengths",
            Bench::Report => "lines of the report, by one thread and by all",
            Bench::Lane => "jobs from one thread to another, by an inbox and by a plain queue",
            Bench::Shift => "calls of eight sessions to one hub, made by two workers",
        }
    }

    /// How many things are measured where no count is given.
    pub fn usual_count(self) -> u64 {
        match self {
            Bench::Parse | Bench::Read | Bench::Shift => 200_000,
            Bench::Replies | Bench::Lane => 1_000_000,
            Bench::Record | Bench::Items => 10_000,
            Bench::Copies | Bench::Journey | Bench::Report => 100_000,
            Bench::Hub => 900_000,
        }
    }
}
