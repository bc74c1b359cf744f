/// What a railway sends of its wagon.
pub const FIRST: &str =
    r#"{"kind":"plan","from":"R100","no":1,"consignment":"C-1","load":"loaded","commit":"2025-03-01T15:30Z","wagons":["218124712173"],"legs":[{"ru":"R101","origin":"DE00001","target":"AT00002","minutes":300},{"ru":"R102","origin":"AT00002","target":"IT00003","minutes":240}]}
> {"no":1,"reply":"accepted"}
{"from":"R100","kind":"ask","wagon":"218124712173"}
> {"record":{"commit":"2025-03-01T15:30Z","consignment":"C-1","estimates":[],"eta":null,"events":[{"by":"R100","kind":"plan","no":1}],"late":false,"lead":"R100","leg":0,"load":"loaded","place":"DE00001","responsible":null,"stage":"planned","status":"loading","wagon":"218124712173"},"reply":"record"}
{"at":"2025-03-01T05:30Z","from":"R100","kind":"release","no":2,"wagon":"218124712173"}
> {"no":2,"reply":"accepted"}
{"from":"R100","kind":"ask","wagon":"218124712173"}
> {"record":{"commit":"2025-03-01T15:30Z","consignment":"C-1","estimates":[{"at":"2025-03-01T10:30Z","leg":0},{"at":"2025-03-01T14:30Z","leg":1}],"eta":"2025-03-01T14:30Z","events":[{"by":"R100","kind":"plan","no":1},{"at":"2025-03-01T05:30Z","by":"R100","kind":"release","no":2}],"late":false,"lead":"R100","leg":0,"load":"loaded","place":"DE00001","responsible":null,"stage":"released","status":"loading","wagon":"218124712173"},"reply":"record"}
{"from":"R100","kind":"fetch","limit":10}
> {"items":[],"reply":"items"}"#;

/// What another sends of its own.
pub const SECOND: &str =
    r#"{"kind":"plan","from":"R200","no":1,"consignment":"C-2","load":"loaded","commit":"2025-03-01T15:30Z","wagons":["338478961232"],"legs":[{"ru":"R201","origin":"DE00001","target":"AT00002","minutes":300}]}
> {"no":1,"reply":"accepted"}
{"from":"R200","kind":"ask","wagon":"338478961232"}
> {"record":{"commit":"2025-03-01T15:30Z","consignment":"C-2","estimates":[],"eta":null,"events":[{"by":"R200","kind":"plan","no":1}],"late":false,"lead":"R200","leg":0,"load":"loaded","place":"DE00001","responsible":null,"stage":"planned","status":"loading","wagon":"338478961232"},"reply":"record"}
{"at":"2025-03-01T05:30Z","from":"R200","kind":"release","no":2,"wagon":"338478961232"}
> {"no":2,"reply":"accepted"}
{"from":"R200","kind":"ask","wagon":"338478961232"}
> {"record":{"commit":"2025-03-01T15:30Z","consignment":"C-2","estimates":[{"at":"2025-03-01T10:30Z","leg":0}],"eta":"2025-03-01T10:30Z","events":[{"by":"R200","kind":"plan","no":1},{"at":"2025-03-01T05:30Z","by":"R200","kind":"release","no":2}],"late":false,"lead":"R200","leg":0,"load":"loaded","place":"DE00001","responsible":null,"stage":"released","status":"loading","wagon":"338478961232"},"reply":"record"}
{"from":"R200","kind":"fetch","limit":10}
> {"items":[],"reply":"items"}"#;
