//! The version, and how each help ends. `docs/taf_hub.1` says the same, and `docs/check_man` compares them.

/// The version of the program: `CHANGELOG.md` says what its numbers mean.
pub(crate) const VERSION: &str = "0.1.0";

pub(crate) static PROGRAM: &str = "Example:
  taf_hub replay < records.jsonl > answers.txt

Statuses:
  0  all was done; refused messages and fault lines are answers
  1  TEXT is no vehicle number
  2  the arguments name no command, or cannot be read; or the keys were refused
  3  reading or writing failed, or the input has no end
  4  memory was refused
  5  a port, a connection or a thread could not be had
  6  the answers that the sessions got are not those of the history
  7  a call of the journal's file failed
  8  the journal is in use, damaged or of another program";

pub(crate) static REPLAY: &str = "Example:
  taf_hub replay < records.jsonl > answers.txt
  taf_hub replay --journal hub.journal < records.jsonl > answers.txt

Statuses: 0, 2, 3, 4, 7, 8";

pub(crate) static BOARD: &str = "Example:
  taf_hub board < records.jsonl > board.html
  taf_hub board --for R101 < hub.journal > board.html

Statuses: 0, 2, 3, 4";

pub(crate) static CHECK: &str = "Example:
  taf_hub check hub.journal

Statuses: 0, 2, 3, 4, 7, 8";

pub(crate) static CARRY: &str = "Reads JOURNAL as check does, and changes nothing of it. NEXT gets
the messages of all trips that are not closed, in their order, and an
acknowledgement for each railway. A trip is closed once all its wagons are
delivered, no offer of it is open and all its items are acknowledged. Use
NEXT only if the status is 0.

Example:
  taf_hub carry hub.journal next.journal

Statuses: 0, 2, 3, 4, 7, 8";

pub(crate) static NUMBER: &str = "Example:
  taf_hub number 218124712173

Statuses: 0, 1, 2, 3, 4";

pub(crate) static SERVE: &str = "Example:
  taf_hub serve --port 7000 --sessions 3
  taf_hub serve --port 7000 --sessions 3 --journal hub.journal
  taf_hub serve --port 7000 --sessions 3 --board 7080

Statuses: 0, 2, 3, 4, 5, 6, 7, 8";

pub(crate) static OPEN: &str = "Example:
  taf_hub open --port 7000
  taf_hub open --port 7000 --journal hub.journal --silence-seconds 3600
  taf_hub open --port 7000 --keys railways.keys
  taf_hub open --port 7000 --board 7080

Statuses: 0, 2, 3, 4, 5, 6, 7, 8";
