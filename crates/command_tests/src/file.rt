//! `board`: the page of a finished run.

use crate::commands::end_of;
use board_page::{HEAD, TAIL};
use std::str;
use std::test::*;

// A plan and a release as the lines of a journal, and between them a line that is no record.
const LINES: &str =
    r#"{"_sum":"0000000000000000","commit":"2025-03-01T15:30Z","consignment":"C-1","from":"R100","kind":"plan","legs":[{"minutes":300,"origin":"DE00001","ru":"R101","target":"AT00002"}],"load":"loaded","no":1,"wagons":["218124712173"]}

{"no":1,"reply":"accepted"}
{"_sum":"0000000000000000","at":"2025-03-01T05:30Z","from":"R100","kind":"release","no":2,"wagon":"218124712173"}
"#;

const ALL: &str =
    r#"<script type="application/json" id="legs">{"legs":[{"legs":[{"minutes":300,"origin":"DE00001","ru":"R101","target":"AT00002"}],"wagon":"218124712173"}]}
</script>
<script type="application/json" id="records">{"records":[{"commit":"2025-03-01T15:30Z","consignment":"C-1","estimates":[{"at":"2025-03-01T10:30Z","leg":0}],"eta":"2025-03-01T10:30Z","events":[{"by":"R100","kind":"plan","no":1},{"at":"2025-03-01T05:30Z","by":"R100","kind":"release","no":2}],"late":false,"lead":"R100","leg":0,"load":"loaded","place":"DE00001","responsible":null,"stage":"released","status":"loading","wagon":"218124712173"}],"reply":"records"}
</script>
"#;

const NOTHING: &str = r#"<script type="application/json" id="legs" data-railway="R200">{"legs":[]}
</script>
<script type="application/json" id="records" data-railway="R200">{"records":[],"reply":"records"}
</script>
"#;

// The arguments, and what stands between the two parts of the page.
static PAGES: [(&str, &str); 2] = [
    ("taf_hub|board", ALL),
    ("taf_hub|board|--for|R200", NOTHING),
];

#[test]
fn the_page_has_the_wagons_of_the_records(rt: HostRuntime) -> Result<(), Fail> {
    for (line, inside) in PAGES {
        let ended = end_of(&rt, line, LINES)?;
        let text = str::from_utf8(&ended.output).unwrap_or("");
        let rest = text.strip_prefix(HEAD).unwrap_or("");
        assert!(rt; ended.status == 0 && ended.errors.is_empty());
        assert!(rt; rest.strip_prefix(inside) == Some(TAIL));
    }
    Ok(())
}
