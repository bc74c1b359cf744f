//! Tests of keys, of their files, of guards and of the writers behind them. Each digest is what `printf %s KEY | sha256sum` gives.
use connections::Connections;
use railway_keys::{
    Admission, HelloWriter, KeyDigest, KeyFileFault, KeyGuard, KeyLineFault, KeyTable,
    KeyedConnections,
};
use std::alloc::Global;
use std::test::Fail;
use taf_codes::{Failed, Failures, Railway, Sink, Source, Std};

// The file of two railways, whose keys are `green-signal-101` and `green-signal-202`.
pub(crate) static KEYS: &str = "# winter

R101 edc77e5b0841753cfaf348c4f1c08a3d8dd80d2a5e6cab9bb7201d1aae433dfa
#R303 nothing
R202 F08CB15AEB2C6C55014A5EAFE641D8BA0B5DEAA914135823369279EEFC1E2D2D";

static DIGESTS: [(&str, &str); 4] = [
    (
        "green-signal-101",
        "edc77e5b0841753cfaf348c4f1c08a3d8dd80d2a5e6cab9bb7201d1aae433dfa",
    ),
    (
        "green-signal-202",
        "f08cb15aeb2c6c55014a5eafe641d8ba0b5deaa914135823369279eefc1e2d2d",
    ),
    (
        "schlüssel",
        "ccec7a8e3e039f0b6b308a81f438e1d07a59c8c896b4f237d10c3eecb8375ef7",
    ),
    (
        "",
        "e3b0c44298fc1c149afbf4c8996fb92427ae41e4649b934ca495991b7852b855",
    ),
];

// A railway, a key and whether it is the railway's.
static PAIRS: [(&str, &str, bool); 7] = [
    ("R101", "green-signal-101", true),
    ("R202", "green-signal-202", true),
    ("R101", "green-signal-202", false),
    ("R202", "green-signal-101", false),
    ("R303", "green-signal-101", false),
    ("R101", "green-signal-10", false),
    ("R101", "", false),
];

// Files with a fault, the line of it and what is wrong there.
static FAULTS: [(&str, usize, KeyLineFault); 12] = [
    ("R101", 1, KeyLineFault::NoForm),
    ("\n# c\nR101\n", 3, KeyLineFault::NoForm),
    (
        "R101\tedc77e5b0841753cfaf348c4f1c08a3d8dd80d2a5e6cab9bb7201d1aae433dfa",
        1,
        KeyLineFault::NoForm,
    ),
    (
        "\n\nr101 edc77e5b0841753cfaf348c4f1c08a3d8dd80d2a5e6cab9bb7201d1aae433dfa\n",
        3,
        KeyLineFault::NoRailway,
    ),
    (
        " R101 edc77e5b0841753cfaf348c4f1c08a3d8dd80d2a5e6cab9bb7201d1aae433dfa",
        1,
        KeyLineFault::NoRailway,
    ),
    (
        "R1011 edc77e5b0841753cfaf348c4f1c08a3d8dd80d2a5e6cab9bb7201d1aae433dfa",
        1,
        KeyLineFault::NoRailway,
    ),
    ("R101 ", 1, KeyLineFault::NoDigest),
    (
        "R101 edc77e5b0841753cfaf348c4f1c08a3d8dd80d2a5e6cab9bb7201d1aae433df\n",
        1,
        KeyLineFault::NoDigest,
    ),
    (
        "R101  edc77e5b0841753cfaf348c4f1c08a3d8dd80d2a5e6cab9bb7201d1aae433dfa\n",
        1,
        KeyLineFault::NoDigest,
    ),
    (
        "R101 edc77e5b0841753cfaf348c4f1c08a3d8dd80d2a5e6cab9bb7201d1aae433dfa\r\n",
        1,
        KeyLineFault::NoDigest,
    ),
    (
        "R101 gdc77e5b0841753cfaf348c4f1c08a3d8dd80d2a5e6cab9bb7201d1aae433dfa\n",
        1,
        KeyLineFault::NoDigest,
    ),
    (
        "R101 edc77e5b0841753cfaf348c4f1c08a3d8dd80d2a5e6cab9bb7201d1aae433dfa\n\nR202 f08cb15aeb2c6c55014a5eafe641d8ba0b5deaa914135823369279eefc1e2d2d\nR101 f08cb15aeb2c6c55014a5eafe641d8ba0b5deaa914135823369279eefc1e2d2d\n",
        4,
        KeyLineFault::Twice,
    ),
];

// What a client sends, and what comes of it: the railway that is admitted, or `wrong`, or `none` where no line came.
static CONNECTIONS: [(&str, &str); 20] = [
    (
        "{\"kind\":\"hello\",\"from\":\"R101\",\"key\":\"green-signal-101\"}\n{\"kind\":\"fetch\"}\n",
        "R101",
    ),
    (
        " \t\r\n\n{\"key\":\"green-signal-202\",\"kind\":\"hello\",\"from\":\"R202\"}\r\nx",
        "R202",
    ),
    (
        "{\"kind\":\"hello\",\"from\":\"R101\",\"key\":\"\\u0067reen-signal-101\"}\n",
        "R101",
    ),
    (
        "{\"kind\":\"hello\",\"from\":\"R202\",\"from\":\"R101\",\"key\":\"x\",\"key\":\"green-signal-101\"}\n",
        "R101",
    ),
    (
        "{\"kind\":\"hello\",\"from\":\"R101\",\"key\":\"green-signal-101\",\"key\":\"x\"}\n",
        "wrong",
    ),
    (
        "{\"kind\":\"hello\",\"from\":\"R101\",\"from\":\"R202\",\"key\":\"green-signal-101\"}\n",
        "wrong",
    ),
    (
        "{\"kind\":\"hello\",\"from\":\"R101\",\"key\":\"green-signal-202\"}\n{\"kind\":\"fetch\"}\n",
        "wrong",
    ),
    (
        "{\"kind\":\"hello\",\"from\":\"R303\",\"key\":\"green-signal-101\"}\n",
        "wrong",
    ),
    ("{\"kind\":\"hello\",\"from\":\"R101\"}\n", "wrong"),
    (
        "{\"kind\":\"hello\",\"from\":\"R101\",\"key\":101}\n",
        "wrong",
    ),
    (
        "{\"kind\":\"hello\",\"from\":\"R101\",\"key\":[\"green-signal-101\"]}\n",
        "wrong",
    ),
    (
        "{\"kind\":\"hello\",\"key\":\"green-signal-101\"}\n",
        "wrong",
    ),
    (
        "{\"kind\":\"fetch\",\"from\":\"R101\",\"limit\":1,\"key\":\"green-signal-101\"}\n",
        "wrong",
    ),
    (
        "x\n{\"kind\":\"hello\",\"from\":\"R101\",\"key\":\"green-signal-101\"}\n",
        "wrong",
    ),
    (
        "{\"kind\":\"hello\",\"from\":\"R101\",\"key\":\"green-signal-101\"}{}\n",
        "wrong",
    ),
    (
        "POST / HTTP/1.1\r\n\r\n{\"kind\":\"hello\",\"from\":\"R101\",\"key\":\"green-signal-101\"}\n",
        "wrong",
    ),
    (
        "{\"kind\":\"hello\",\"from\":\"R101\",\"key\":\"green-signal-101\"}",
        "none",
    ),
    (
        "\n{\"kind\":\"hello\",\"from\":\"R101\",\"key\":\"green-signal-101\"} ",
        "none",
    ),
    ("\n \n\t\r\n", "none"),
    ("", "none"),
];

// A reader that gives so many bytes at once at most, and fails at the end of them where it is to.
#[derive(Drop)]
struct Pieces<'a> {
    rest: &'a [u8],
    size: usize,
    fails: bool,
    failed: Failures,
}

impl Source for Pieces<'_> {
    ghost use Rattle.std.specs.Prelude.{None};
    ghost use Rattle.taf_codes.specs.Counting.{count};

    ghost remaining = { λ _. None };

    ghost failures = { λ pieces. count pieces.failed };

    fn pull(&mut self, buf: &mut [u8]) -> Result<usize, Failed> {
        if self.fails && self.rest.is_empty() {
            self.failed.add_one();
            return Err(Failed);
        }
        let count = self.rest.len().min(self.size).min(buf.len());
        buf[..count].copy_from_slice(&self.rest[..count]);
        self.rest = &self.rest[count..];
        Ok(count)
    }
}

// What a client sends, how many bytes of it a read gives at most, whether the reader fails behind it, and what its session says first.
#[derive(Clone, Copy)]
struct Client<'a> {
    sends: &'a [u8],
    size: usize,
    fails: bool,
    said: &'a str,
}

// One connection, and none after it.
#[derive(Drop)]
struct OneConnection<'a> {
    reader: Option<Pieces<'a>>,
    writer: Option<Std<&'a mut Vec<u8>>>,
}

impl<'a> Connections for OneConnection<'a> {
    type Reader = Pieces<'a>;

    type Writer = Std<&'a mut Vec<u8>>;

    fn next(&mut self) -> Option<(Pieces<'a>, Std<&'a mut Vec<u8>>)> {
        let reader = self.reader.take()?;
        let writer = self.writer.take()?;
        Some((reader, writer))
    }
}

// What came of a client: of its first line, what it was told, and what its session was given.
#[derive(Drop)]
struct Outcome {
    admission: Admission,
    told: Vec<u8>,
    given: Vec<u8>,
}

// What is wanted of it, with the admission as in the table above.
#[derive(Clone, Copy)]
struct Wanted<'a> {
    admission: &'a str,
    told: &'a [u8],
    given: &'a [u8],
}

fn outcome_of(alloc: Global, keys: Option<&KeyTable>, client: Client<'_>) -> Result<Outcome, Fail> {
    let mut told = Vec::new(alloc);
    let one = OneConnection {
        reader: Some(Pieces {
            rest: client.sends,
            size: client.size,
            fails: client.fails,
            failed: Failures::new(),
        }),
        writer: Some(Std::new(&mut told)),
    };
    let mut given = Vec::new(alloc);
    let connections = KeyedConnections::new(alloc, keys, one);
    let admission = serve_one(connections, client.said.as_bytes(), &mut given)?;
    Ok(Outcome {
        admission,
        told,
        given,
    })
}

// Gives a session that says this to its first read and then nothing, and ends where it cannot say it, what comes.
fn serve_one<S, C>(connections: C, said: &[u8], given: &mut Vec<u8>) -> Result<Admission, Fail>
where
    S: Source + Drop,
    C: Connections<Reader = KeyGuard<S>> + Drop,
{
    let mut connections = connections;
    let Some((mut reader, mut writer)) = connections.next() else {
        return Err(Fail::new("no connection"));
    };
    let mut text = said;
    let mut piece = [0; 100];
    for _ in 0..1_000_000 {
        let Ok(count) = reader.pull(&mut piece) else {
            break;
        };
        given.extend_from_slice(&piece[..count])?;
        if count == 0 || !says(&mut writer, text) {
            break;
        }
        text = b"";
    }
    Ok(reader.admission())
}

// Writes a text and sends it on, as a session does before it reads again.
fn says<K: Sink>(writer: &mut K, text: &[u8]) -> bool {
    writer.push(text).is_ok() && writer.flush().is_ok()
}

// Whether what comes of a client is what is wanted.
fn is_served(
    alloc: Global,
    keys: Option<&KeyTable>,
    client: Client<'_>,
    wanted: Wanted<'_>,
) -> Result<bool, Fail> {
    let outcome = outcome_of(alloc, keys, client)?;
    Ok(
        is_admission(wanted.admission, outcome.admission)
            && outcome.told.as_slice() == wanted.told
            && outcome.given.as_slice() == wanted.given,
    )
}

// What the client is told of an admission in the table above.
fn told(wanted: &str) -> &'static [u8] {
    if wanted == "wrong" {
        b"{\"fault\":\"wrong_key\"}\n"
    } else {
        b""
    }
}

// What its session is given of this then, if it says nothing.
fn given<'a>(wanted: &str, sent: &'a [u8]) -> &'a [u8] {
    if wanted.starts_with('R') { sent } else { b"" }
}

// How an admission is written in the table above.
fn is_admission(wanted: &str, admission: Admission) -> bool {
    match admission {
        Admission::Admitted(railway) => railway.as_str() == wanted,
        Admission::WrongKey => wanted == "wrong",
        Admission::NoLine => wanted == "none",
        Admission::NotAsked => wanted == "not asked",
        Admission::NoMemory => false,
    }
}

// Whether what comes of a client that sends this is what the table above says of it, where its session says nothing.
fn is_as_said(alloc: Global, sends: &[u8], size: usize, wanted: &str) -> Result<bool, Fail> {
    let keys = KeyTable::read(alloc, KEYS)?;
    let client = Client {
        sends,
        size,
        fails: false,
        said: "",
    };
    let wanted = Wanted {
        admission: wanted,
        told: told(wanted),
        given: given(wanted, sends),
    };
    is_served(alloc, Some(&keys), client, wanted)
}

#[test]
fn digests(rt: HostRuntime) {
    for (key, digits) in &DIGESTS {
        let digest = KeyDigest::of(key.as_bytes());
        let read = KeyDigest::read(digits);
        assert!(rt; read.is_some_and(|read| read.is_same(&digest)), "{key}");
    }
    for (key, _) in &DIGESTS[1..] {
        let first = KeyDigest::of(b"green-signal-101");
        assert!(rt; !first.is_same(&KeyDigest::of(key.as_bytes())), "{key}");
    }
}

#[test]
fn tables(rt: HostRuntime) -> Result<(), Fail> {
    let keys = KeyTable::read(rt.alloc(), KEYS)?;
    assert_eq!(rt; keys.railway_count(), 2);
    for (code, key, is_own) in &PAIRS {
        let railway = Railway::read(code)?;
        assert_eq!(rt;
            keys.admits(railway, key.as_bytes()),
            *is_own,
            "{code} {key}"
        );
    }
    Ok(())
}

#[test]
fn faulty_files(rt: HostRuntime) {
    for (text, line, fault) in &FAULTS {
        let read = KeyTable::read(rt.alloc(), text);
        assert_eq!(rt;
            read.err(),
            Some(KeyFileFault::Line(*line, *fault)),
            "{text}"
        );
    }
}

// A file of as many railways as there may be, and one of one more.
#[test]
fn many_railways(rt: HostRuntime) -> Result<(), Fail> {
    let mut text = String::new(rt.alloc());
    for number in 0..1000 {
        let line = format!(in rt.alloc(); "{number:04} {}\n", DIGESTS[0].1)?;
        text.push_str(line.as_str())?;
    }
    assert_eq!(rt;
        KeyTable::read(rt.alloc(), text.as_str())?.railway_count(),
        1000
    );
    text.push_str("R101 edc77e5b0841753cfaf348c4f1c08a3d8dd80d2a5e6cab9bb7201d1aae433dfa")?;
    let fault = KeyTable::read(rt.alloc(), text.as_str()).err();
    assert_eq!(rt;
        fault,
        Some(KeyFileFault::Line(1001, KeyLineFault::TooMany))
    );
    Ok(())
}

// What may be printed has no digest.
#[test]
fn printed(rt: HostRuntime) -> Result<(), Fail> {
    let keys = KeyTable::read(rt.alloc(), KEYS)?;
    let digest = KeyDigest::of(b"green-signal-101");
    let fault = KeyFileFault::Line(3, KeyLineFault::NoDigest);
    assert_eq!(rt;
        format!(in rt.alloc(); "{keys:?}")?.as_str(),
        "KeyTable of 2 railways"
    );
    assert_eq!(rt; format!(in rt.alloc(); "{digest:?}")?.as_str(), "KeyDigest");
    assert_eq!(rt;
        format!(in rt.alloc(); "{fault}")?.as_str(),
        "line 3 of the keys: it ends in no digest of 64 hexadecimal digits"
    );
    Ok(())
}

#[test]
fn connections(rt: HostRuntime) -> Result<(), Fail> {
    for (sent, wanted) in &CONNECTIONS {
        for size in [1, 7, 100_000] {
            let as_said = is_as_said(rt.alloc(), sent.as_bytes(), size, wanted)?;
            assert!(rt; as_said, "{sent} in {size}");
        }
    }
    Ok(())
}

// The hello of R101 with blanks in it, so many bytes long without its newline.
fn long_hello(alloc: Global, len: usize) -> Result<Vec<u8>, Fail> {
    let mut line = Vec::new(alloc);
    line.extend_from_slice(b"{\"kind\":\"hello\",\"from\":\"R101\",")?;
    for _ in 0..len.saturating_sub(55) {
        line.push(b' ')?;
    }
    line.extend_from_slice(b"\"key\":\"green-signal-101\"}\n")?;
    Ok(line)
}

#[test]
fn long_lines(rt: HostRuntime) -> Result<(), Fail> {
    for (len, wanted) in [(65_536, "R101"), (65_537, "wrong"), (100_000, "wrong")] {
        let sent = long_hello(rt.alloc(), len)?;
        assert_eq!(rt; sent.len(), len + 1);
        assert!(rt; is_as_said(rt.alloc(), &sent, 1000, wanted)?, "{len}");
    }
    Ok(())
}

// A reader that fails before the end of the line: nothing is told, and nothing given.
#[test]
fn failing_readers(rt: HostRuntime) -> Result<(), Fail> {
    let keys = KeyTable::read(rt.alloc(), KEYS)?;
    let client = Client {
        sends: b"{\"kind\":\"hello\",\"from\":\"R101\"",
        size: 3,
        fails: true,
        said: "",
    };
    let wanted = Wanted {
        admission: "none",
        told: b"",
        given: b"",
    };
    assert!(rt; is_served(rt.alloc(), Some(&keys), client, wanted)?);
    Ok(())
}

// What a client sends: a hello with its key, and two lines more; the hello alone, and these lines alone.
const SENT: &str =
    "{\"kind\":\"hello\",\"from\":\"R101\",\"key\":\"green-signal-101\"}\n{\"kind\":\"hello\",\"from\":\"R202\"}\n{\"kind\":\"fetch\"}\n";

const HELLO: &str = "{\"kind\":\"hello\",\"from\":\"R101\",\"key\":\"green-signal-101\"}\n";

const LATER: &str = "{\"kind\":\"hello\",\"from\":\"R202\"}\n{\"kind\":\"fetch\"}\n";

// What a session says to its first read, and what it is given where there are keys.
static FIRST_ANSWERS: [(&str, &str); 4] = [
    ("{\"hello\":\"R101\"}\n", SENT),
    ("", SENT),
    ("{\"fault\":\"no_memory\"}\n", HELLO),
    ("{\"hello", HELLO),
];

// Whether a client that sends this is told what its session says to its first read, and the session is given this.
fn is_told_what_is_said(
    alloc: Global,
    keys: Option<&KeyTable>,
    client: (&str, &str),
    wanted: (&str, &str),
) -> Result<bool, Fail> {
    let (sends, said) = client;
    let (admission, given) = wanted;
    let client = Client {
        sends: sends.as_bytes(),
        size: 1000,
        fails: false,
        said,
    };
    let wanted = Wanted {
        admission,
        told: said.as_bytes(),
        given: given.as_bytes(),
    };
    is_served(alloc, keys, client, wanted)
}

// A session whose first answer is none to a hello is given nothing behind its first line, where there are keys.
#[test]
fn first_answers(rt: HostRuntime) -> Result<(), Fail> {
    let keys = KeyTable::read(rt.alloc(), KEYS)?;
    for (said, given) in &FIRST_ANSWERS {
        let (client, wanted) = ((SENT, *said), ("R101", *given));
        assert!(rt;
            is_told_what_is_said(rt.alloc(), Some(&keys), client, wanted)?,
            "{said}"
        );
    }
    Ok(())
}

// Without keys it is given all, whatever it says, and whatever came first.
#[test]
fn without_keys(rt: HostRuntime) -> Result<(), Fail> {
    for (said, _) in &FIRST_ANSWERS {
        let (client, wanted) = ((LATER, *said), ("not asked", LATER));
        assert!(rt;
            is_told_what_is_said(rt.alloc(), None, client, wanted)?,
            "{said}"
        );
    }
    Ok(())
}

// What a session writes, or none where it sends on, and whether that succeeds: once a flush has failed for the first answer, each call
// fails.
static CALLS: [(Option<&str>, bool); 8] = [
    (None, true),
    (Some(""), true),
    (None, true),
    (Some("{\"fault\":"), true),
    (Some("\"stranger\"}\n"), true),
    (None, false),
    (Some("{\"hello\":\"R101\"}\n"), false),
    (None, false),
];

#[test]
fn refused_answers(rt: HostRuntime) {
    let mut told = Vec::new(rt.alloc());
    let mut writer = HelloWriter::new(Std::new(&mut told));
    for (text, succeeds) in &CALLS {
        let succeeded = match text {
            Some(text) => writer.push(text.as_bytes()).is_ok(),
            None => writer.flush().is_ok(),
        };
        assert_eq!(rt; succeeded, *succeeds);
    }
    drop(writer);
    assert!(rt; told.as_slice() == "{\"fault\":\"stranger\"}\n".as_bytes());
}
