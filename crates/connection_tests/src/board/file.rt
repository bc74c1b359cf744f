//! The page of a finished run, as a file.
use crate::board::asked::two_railways;
use board_file::board_file;
use board_page::{HEAD, TAIL};
use std::str;
use std::test::*;
use taf_codes::Railway;

// What R200 sees: between the two parts of the page.
const OF_R200: &str =
    r#"<script type="application/json" id="legs" data-railway="R200">{"legs":[{"legs":[{"minutes":300,"origin":"DE00001","ru":"R201","target":"AT00002"}],"wagon":"338478961232"}]}
</script>
<script type="application/json" id="records" data-railway="R200">{"records":[{"commit":"2025-03-01T15:30Z","consignment":"C-2","estimates":[{"at":"2025-03-01T10:30Z","leg":0}],"eta":"2025-03-01T10:30Z","events":[{"by":"R200","kind":"plan","no":1},{"at":"2025-03-01T05:30Z","by":"R200","kind":"release","no":2}],"late":false,"lead":"R200","leg":0,"load":"loaded","place":"DE00001","responsible":null,"stage":"released","status":"loading","wagon":"338478961232"}],"reply":"records"}
</script>
"#;

const OF_NO_TRIP: &str =
    r#"<script type="application/json" id="legs" data-railway="R999">{"legs":[]}
</script>
<script type="application/json" id="records" data-railway="R999">{"records":[],"reply":"records"}
</script>
"#;

// All wagons, those of R100 before those of R200.
const OF_ALL: &str =
    r#"<script type="application/json" id="legs">{"legs":[{"legs":[{"minutes":300,"origin":"DE00001","ru":"R101","target":"AT00002"},{"minutes":240,"origin":"AT00002","ru":"R102","target":"IT00003"}],"wagon":"218124712173"},{"legs":[{"minutes":300,"origin":"DE00001","ru":"R201","target":"AT00002"}],"wagon":"338478961232"}]}
</script>
<script type="application/json" id="records">{"records":[{"commit":"2025-03-01T15:30Z","consignment":"C-1","estimates":[{"at":"2025-03-01T10:30Z","leg":0},{"at":"2025-03-01T14:30Z","leg":1}],"eta":"2025-03-01T14:30Z","events":[{"by":"R100","kind":"plan","no":1},{"at":"2025-03-01T05:30Z","by":"R100","kind":"release","no":2}],"late":false,"lead":"R100","leg":0,"load":"loaded","place":"DE00001","responsible":null,"stage":"released","status":"loading","wagon":"218124712173"},{"commit":"2025-03-01T15:30Z","consignment":"C-2","estimates":[{"at":"2025-03-01T10:30Z","leg":0}],"eta":"2025-03-01T10:30Z","events":[{"by":"R200","kind":"plan","no":1},{"at":"2025-03-01T05:30Z","by":"R200","kind":"release","no":2}],"late":false,"lead":"R200","leg":0,"load":"loaded","place":"DE00001","responsible":null,"stage":"released","status":"loading","wagon":"338478961232"}],"reply":"records"}
</script>
"#;

// The railway, if there is one, and what stands between the two parts of its page.
static FILES: [(Option<&str>, &str); 3] = [
    (Some("R200"), OF_R200),
    (Some("R999"), OF_NO_TRIP),
    (None, OF_ALL),
];

#[test]
fn a_file_has_the_wagons_inside(rt: HostRuntime) -> Result<(), Fail> {
    let alloc = rt.alloc();
    let hub = two_railways(&rt, alloc)?;
    for (code, inside) in FILES {
        let railway = match code {
            Some(code) => Some(Railway::read(code)?),
            None => None,
        };
        let file = board_file(alloc, &hub, railway)?;
        let text = str::from_utf8(&file).unwrap_or("");
        let rest = text.strip_prefix(HEAD).unwrap_or("");
        assert!(rt; rest.strip_prefix(inside) == Some(TAIL));
    }
    Ok(())
}
