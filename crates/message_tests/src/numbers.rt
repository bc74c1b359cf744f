//! Numbers of records: what is a whole one within its limits.
use std::test::Fail;
use taf_messages::FetchLimit;

/// The numbers at a field's limits and those beside them; at the end what is no number of JSON.
pub(crate) static NUMBERS: &str = r#"=good
{"kind":"fetch","from":"R100","limit":1}
{"kind":"fetch","from":"R100","limit":50}
{"kind":"ack","from":"R100","item":0}
{"kind":"ack","from":"R100","item":999999999999}
{"kind":"eti_ask","from":"R100","wagon":"218124712173","no":1}
{"kind":"eti_ask","from":"R100","wagon":"218124712173","no":999999999999}
{"kind":"exception","from":"R101","no":2,"wagon":"218124712173","at":"2025-03-01T07:00Z","delay":0}
{"kind":"exception","from":"R101","no":2,"wagon":"218124712173","at":"2025-03-01T07:00Z","delay":100000}
{"kind":"leg_time","from":"R102","no":1,"wagon":"218124712173","minutes":200,"leg":0}
{"kind":"leg_time","from":"R102","no":1,"wagon":"218124712173","minutes":200,"leg":7}
{"kind":"leg_time","from":"R102","no":1,"wagon":"218124712173","leg":1,"minutes":1}
{"kind":"leg_time","from":"R102","no":1,"wagon":"218124712173","leg":1,"minutes":100000}
{"kind":"withdraw","from":"R101","no":7,"at":"2025-03-01T11:00Z","offer":1}
{"kind":"withdraw","from":"R101","no":7,"at":"2025-03-01T11:00Z","offer":999999999999}
={"fault":"bad_field","field":"limit"}
{"kind":"fetch","from":"R100","limit":1.0}
{"kind":"fetch","from":"R100","limit":1e0}
{"kind":"fetch","from":"R100","limit":-1}
{"kind":"fetch","from":"R100","limit":0}
{"kind":"fetch","from":"R100","limit":51}
{"kind":"fetch","from":"R100","limit":null}
{"kind":"fetch","from":"R100","limit":-0}
{"kind":"fetch","from":"R100","limit":5.0}
{"kind":"fetch","from":"R100","limit":"5"}
{"kind":"fetch","from":"R100","limit":true}
{"kind":"fetch","from":"R100","limit":[5]}
{"kind":"fetch","from":"R100","limit":{}}
{"kind":"fetch","from":"R100","limit":18446744073709551615}
{"kind":"fetch","from":"R100","limit":18446744073709551616}
{"kind":"fetch","from":"R100","limit":1e300}
={"fault":"bad_field","field":"item"}
{"kind":"ack","from":"R100","item":1000000000000}
{"kind":"ack","from":"R100","item":-1}
{"kind":"ack","from":"R100","item":-0}
={"fault":"bad_field","field":"no"}
{"kind":"eti_ask","from":"R100","wagon":"218124712173","no":0}
{"kind":"eti_ask","from":"R100","wagon":"218124712173","no":1000000000000}
{"kind":"eti_ask","from":"R100","wagon":"218124712173","no":null}
={"fault":"bad_field","field":"delay"}
{"kind":"exception","from":"R101","no":2,"wagon":"218124712173","at":"2025-03-01T07:00Z","delay":100001}
{"kind":"exception","from":"R101","no":2,"wagon":"218124712173","at":"2025-03-01T07:00Z","delay":-1}
{"kind":"exception","from":"R101","no":2,"wagon":"218124712173","at":"2025-03-01T07:00Z","delay":1.5}
={"fault":"bad_field","field":"leg"}
{"kind":"leg_time","from":"R102","no":1,"wagon":"218124712173","minutes":200,"leg":8}
{"kind":"leg_time","from":"R102","no":1,"wagon":"218124712173","minutes":200,"leg":-1}
={"fault":"bad_field","field":"minutes"}
{"kind":"leg_time","from":"R102","no":1,"wagon":"218124712173","leg":1,"minutes":0}
{"kind":"leg_time","from":"R102","no":1,"wagon":"218124712173","leg":1,"minutes":100001}
={"fault":"bad_field","field":"offer"}
{"kind":"withdraw","from":"R101","no":7,"at":"2025-03-01T11:00Z","offer":0}
{"kind":"withdraw","from":"R101","no":7,"at":"2025-03-01T11:00Z","offer":1000000000000}
={"fault":"bad_json"}
{"kind":"fetch","from":"R100","limit":01}
{"kind":"fetch","from":"R100","limit":+1}
{"kind":"fetch","from":"R100","limit":1e400}
{"kind":"fetch","from":"R100","limit":0x1}
{"kind":"fetch","from":"R100","limit":.5}
{"kind":"fetch","from":"R100","limit":1.}
{"kind":"fetch","from":"R100","limit":NaN}
{"kind":"fetch","from":"R100","limit":}"#;

static LIMITS: [(u64, bool); 5] = [
    (0, false),
    (1, true),
    (50, true),
    (51, false),
    (u64::MAX, false),
];

#[test]
fn numbers_within_limits() -> Result<(), Fail> {
    for (number, good) in &LIMITS {
        let limit = FetchLimit::new(*number).map(|limit| limit.get());
        let wanted = if *good { Some(*number) } else { None };
        if limit != wanted {
            return Err(Fail::new(*number));
        }
    }
    Ok(())
}
