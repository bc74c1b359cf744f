//! Lines of plans, their intermodal units and routes: the faults of their lists, and the rules that they break.

/// A value that is not good for a plan's lists is a fault of the field, before any rule of plans. At most
/// 120 units are read.
pub(crate) static LISTS: &str = r#"={"fault":"bad_field","field":"wagons"}
{"kind":"plan","from":"R100","no":1,"consignment":"C-1","load":"loaded","commit":"2025-03-01T15:30Z","wagons":null,"legs":[]}
{"kind":"plan","from":"R100","no":1,"consignment":"C-1","load":"loaded","commit":"2025-03-01T15:30Z","wagons":"218124712173","legs":[{"ru":"R101","origin":"DE00001","target":"AT00002","minutes":300},{"ru":"R102","origin":"AT00002","target":"IT00003","minutes":240}]}
{"kind":"plan","from":"R100","no":1,"consignment":"C-1","load":"loaded","commit":"2025-03-01T15:30Z","wagons":["218124712173",null],"legs":[{"ru":"R101","origin":"DE00001","target":"AT00002","minutes":300},{"ru":"R102","origin":"AT00002","target":"IT00003","minutes":240}]}
={"fault":"bad_field","field":"legs"}
{"kind":"plan","from":"R100","no":1,"consignment":"C-1","load":"loaded","commit":"2025-03-01T15:30Z","wagons":[],"legs":{}}
{"kind":"plan","from":"R100","no":1,"consignment":"C-1","load":"loaded","commit":"2025-03-01T15:30Z","wagons":[],"legs":[[]],"units":[{"unit":"CSQU3054384","wagon":"218124712173"}]}
{"kind":"plan","from":"R100","no":1,"consignment":"C-1","load":"loaded","commit":"2025-03-01T15:30Z","wagons":[],"legs":[{"ru":"R101","origin":"DE00001","target":"AT00002","minutes":4294967296}],"units":[{"unit":"CSQU3054384","wagon":"218124712173"}]}
{"kind":"plan","from":"R100","no":1,"consignment":"C-1","load":"loaded","commit":"2025-03-01T15:30Z","wagons":[],"legs":[{"ru":"R101","origin":"DE00001","target":"AT00002","minutes":0.5}]}
{"kind":"plan","from":"R100","no":1,"consignment":"C-1","load":"loaded","commit":"2025-03-01T15:30Z","wagons":[],"legs":[{"ru":"r101","origin":"DE00001","target":"AT00002","minutes":300}]}
={"fault":"bad_field","field":"units"}
{"kind":"plan","from":"R100","no":1,"consignment":"C-1","load":"loaded","commit":"2025-03-01T15:30Z","wagons":[],"legs":[],"units":[{"unit":"CSQU3054384","wagon":"218124712173"}]}
{"kind":"plan","from":"R100","no":1,"consignment":"C-1","load":"loaded","commit":"2025-03-01T15:30Z","wagons":[],"legs":[],"units":[{"unit":"CSQU3054383"}]}
{"kind":"plan","from":"R100","no":1,"consignment":"C-1","load":"loaded","commit":"2025-03-01T15:30Z","wagons":[],"legs":[],"units":{}}
{"kind":"plan","from":"R100","no":1,"consignment":"C-1","load":"loaded","commit":"2025-03-01T15:30Z","wagons":[],"legs":[],"units":false}
{"kind":"plan","from":"R100","no":1,"consignment":"C-1","load":"loaded","commit":"2025-03-01T15:30Z","wagons":["218124712173","338478961232"],"legs":[],"units":<121 {"unit":"CSQU3054383","wagon":"218124712173"}>}"#;

/// Plans of as many wagons and legs as there may be, and plans that break a rule. Any number of wagons and
/// legs is read.
pub(crate) static PLANS: &str = r#"=good
{"kind":"plan","from":"R100","no":1,"consignment":"C-1","load":"loaded","commit":"2025-03-01T15:30Z","wagons":<60 wagons>,"legs":[{"ru":"R101","origin":"DE00001","target":"DE00002","minutes":100000},{"ru":"R102","origin":"DE00002","target":"DE00003","minutes":100000},{"ru":"R103","origin":"DE00003","target":"DE00004","minutes":100000},{"ru":"R104","origin":"DE00004","target":"DE00005","minutes":100000},{"ru":"R105","origin":"DE00005","target":"DE00006","minutes":100000},{"ru":"R106","origin":"DE00006","target":"DE00007","minutes":100000},{"ru":"R107","origin":"DE00007","target":"DE00008","minutes":100000},{"ru":"R108","origin":"DE00008","target":"DE00009","minutes":100000}]}
={"code":1,"fault":"bad_plan"}
{"kind":"plan","from":"R100","no":1,"consignment":"C-1","load":"loaded","commit":"2025-03-01T15:30Z","wagons":<60 wagons>,"legs":[{"ru":"R101","origin":"DE00001","target":"DE00002","minutes":100000},{"ru":"R102","origin":"DE00002","target":"DE00003","minutes":100000},{"ru":"R103","origin":"DE00003","target":"DE00004","minutes":100000},{"ru":"R104","origin":"DE00004","target":"DE00005","minutes":100000},{"ru":"R105","origin":"DE00005","target":"DE00006","minutes":100000},{"ru":"R106","origin":"DE00006","target":"DE00007","minutes":100000},{"ru":"R107","origin":"DE00007","target":"DE00008","minutes":100000},{"ru":"R108","origin":"DE00008","target":"DE00009","minutes":100000},{"ru":"R109","origin":"DE00009","target":"DE00010","minutes":100000}]}
{"kind":"plan","from":"R100","no":1,"consignment":"C-1","load":"loaded","commit":"2025-03-01T15:30Z","wagons":["218124712173","338478961232"],"legs":<9 {"ru":"R101","origin":"DE00001","target":"DE00001","minutes":300}>}
{"kind":"plan","from":"R100","no":1,"consignment":"C-1","load":"loaded","commit":"2025-03-01T15:30Z","wagons":[],"legs":[]}
={"code":2,"fault":"bad_plan"}
{"kind":"plan","from":"R100","no":1,"consignment":"C-1","load":"loaded","commit":"2025-03-01T15:30Z","wagons":[],"legs":[{"ru":"R101","origin":"DE00001","target":"AT00002","minutes":0},{"ru":"R101","origin":"AT00009","target":"IT00003","minutes":240}]}
={"code":3,"fault":"bad_plan"}
{"kind":"plan","from":"R100","no":1,"consignment":"C-1","load":"loaded","commit":"2025-03-01T15:30Z","wagons":[],"legs":[{"ru":"R101","origin":"DE00001","target":"AT00002","minutes":0},{"ru":"R101","origin":"AT00002","target":"IT00003","minutes":240}]}
={"code":4,"fault":"bad_plan"}
{"kind":"plan","from":"R100","no":1,"consignment":"C-1","load":"loaded","commit":"2025-03-01T15:30Z","wagons":<61 wagons>,"legs":[{"ru":"R101","origin":"DE00001","target":"DE00002","minutes":100000},{"ru":"R102","origin":"DE00002","target":"DE00003","minutes":100000},{"ru":"R103","origin":"DE00003","target":"DE00004","minutes":100000},{"ru":"R104","origin":"DE00004","target":"DE00005","minutes":100000},{"ru":"R105","origin":"DE00005","target":"DE00006","minutes":100000},{"ru":"R106","origin":"DE00006","target":"DE00007","minutes":100000},{"ru":"R107","origin":"DE00007","target":"DE00008","minutes":100000},{"ru":"R108","origin":"DE00008","target":"DE00009","minutes":100000}]}
{"kind":"plan","from":"R100","no":1,"consignment":"C-1","load":"loaded","commit":"2025-03-01T15:30Z","wagons":<61 "218124712173">,"legs":[{"ru":"R101","origin":"DE00001","target":"AT00002","minutes":300},{"ru":"R102","origin":"AT00002","target":"IT00003","minutes":240}]}
{"kind":"plan","from":"R100","no":1,"consignment":"C-1","load":"loaded","commit":"2025-03-01T15:30Z","wagons":[],"legs":[{"ru":"R101","origin":"DE00001","target":"AT00002","minutes":0}]}
={"code":5,"fault":"bad_plan"}
{"kind":"plan","from":"R100","no":1,"consignment":"C-1","load":"loaded","commit":"2025-03-01T15:30Z","wagons":["218124712173","218124712173"],"legs":[{"ru":"R101","origin":"DE00001","target":"AT00002","minutes":0}]}
={"code":6,"fault":"bad_plan"}
{"kind":"plan","from":"R100","no":1,"consignment":"C-1","load":"loaded","commit":"2025-03-01T15:30Z","wagons":["218124712173","338478961232"],"legs":[{"ru":"R101","origin":"DE00001","target":"AT00002","minutes":0}],"units":[{"unit":"CSQU3054383","wagon":"318066552148"},{"unit":"CSQU3054383","wagon":"218124712173"}]}
{"kind":"plan","from":"R100","no":1,"consignment":"C-1","load":"loaded","commit":"2025-03-01T15:30Z","wagons":["218124712173","338478961232"],"legs":[{"ru":"R101","origin":"DE00001","target":"AT00002","minutes":4294967295}]}
={"code":7,"fault":"bad_plan"}
{"kind":"plan","from":"R100","no":1,"consignment":"C-1","load":"loaded","commit":"2025-03-01T15:30Z","wagons":["218124712173","338478961232"],"legs":[{"ru":"R101","origin":"DE00001","target":"AT00002","minutes":300},{"ru":"R102","origin":"AT00002","target":"IT00003","minutes":240}],"units":<120 {"unit":"CSQU3054383","wagon":"218124712173"}>}
{"kind":"plan","from":"R100","no":1,"consignment":"C-1","load":"loaded","commit":"2025-03-01T15:30Z","wagons":["218124712173","338478961232"],"legs":[{"ru":"R101","origin":"DE00001","target":"AT00002","minutes":300},{"ru":"R102","origin":"AT00002","target":"IT00003","minutes":240}],"units":[{"unit":"CSQU3054383","wagon":"318066552148"},{"unit":"CSQU3054383","wagon":"218124712173"}]}
={"code":8,"fault":"bad_plan"}
{"kind":"plan","from":"R100","no":1,"consignment":"C-1","load":"loaded","commit":"2025-03-01T15:30Z","wagons":["218124712173","338478961232"],"legs":[{"ru":"R101","origin":"DE00001","target":"AT00002","minutes":300},{"ru":"R102","origin":"AT00002","target":"IT00003","minutes":240}],"units":[{"unit":"CSQU3054383","wagon":"318066552148"}]}"#;

/// Routes that break a rule, and others that are none.
pub(crate) static ROUTES: &str = r#"={"code":1,"fault":"bad_plan"}
{"kind":"reroute","from":"R100","no":6,"wagon":"218124712173","legs":[]}
{"kind":"reroute","from":"R100","no":6,"wagon":"218124712173","legs":<8 {"ru":"R103","origin":"AT00002","target":"CH00004","minutes":180}>}
={"code":2,"fault":"bad_plan"}
{"kind":"reroute","from":"R100","no":6,"wagon":"218124712173","legs":[{"ru":"R103","origin":"AT00002","target":"CH00004","minutes":180},{"ru":"R103","origin":"CH00005","target":"IT00003","minutes":0}]}
={"code":3,"fault":"bad_plan"}
{"kind":"reroute","from":"R100","no":6,"wagon":"218124712173","legs":[{"ru":"R103","origin":"AT00002","target":"CH00004","minutes":180},{"ru":"R103","origin":"CH00004","target":"IT00003","minutes":0}]}
={"code":6,"fault":"bad_plan"}
{"kind":"reroute","from":"R100","no":6,"wagon":"218124712173","legs":[{"ru":"R103","origin":"AT00002","target":"CH00004","minutes":180},{"ru":"R104","origin":"CH00004","target":"IT00003","minutes":0}]}
={"fault":"bad_field","field":"legs"}
{"kind":"reroute","from":"R100","no":6,"wagon":"218124712173","legs":[{"ru":"R103","origin":"AT00002","target":"CH00004","minutes":180},7]}
{"kind":"reroute","from":"R100","no":6,"wagon":"218124712173","legs":{"ru":"R103","origin":"AT00002","target":"CH00004","minutes":180}}"#;
