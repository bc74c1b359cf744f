//! The numbers of a hub and of its server.
use crate::board::asked::{answer_to, body_of, hub_after, status_of};
use std::test::*;
use test_scripts::FIRST;

// What is refused, once for one reason and twice for another.
const REFUSED: &str = r#"{"from":"R200","kind":"ask","wagon":"218124712173"}
> {"reply":"refused","wagon":"218124712173","why":"not_yours"}
{"from":"R100","kind":"ask","wagon":"318066552148"}
> {"reply":"refused","wagon":"318066552148","why":"unknown_wagon"}
{"from":"R200","kind":"ask","wagon":"318066552148"}
> {"reply":"refused","wagon":"318066552148","why":"unknown_wagon"}"#;

// Of eight calls, one wagon and three refusals, beside three sessions.
const SHOWN: &str = r#"# TYPE taf_hub_calls_total counter
taf_hub_calls_total 8
# TYPE taf_hub_wagons gauge
taf_hub_wagons 1
# TYPE taf_hub_refusals_total counter
taf_hub_refusals_total{why="unknown_wagon"} 2
taf_hub_refusals_total{why="unknown_consignment"} 0
taf_hub_refusals_total{why="unknown_offer"} 0
taf_hub_refusals_total{why="unknown_unit"} 0
taf_hub_refusals_total{why="consignment_taken"} 0
taf_hub_refusals_total{why="wagon_busy"} 0
taf_hub_refusals_total{why="unit_busy"} 0
taf_hub_refusals_total{why="wrong_stage"} 0
taf_hub_refusals_total{why="not_yours"} 1
taf_hub_refusals_total{why="wrong_place"} 0
taf_hub_refusals_total{why="wrong_next"} 0
taf_hub_refusals_total{why="too_many_legs"} 0
taf_hub_refusals_total{why="no_such_leg"} 0
taf_hub_refusals_total{why="leg_started"} 0
taf_hub_refusals_total{why="not_last_leg"} 0
taf_hub_refusals_total{why="offer_closed"} 0
taf_hub_refusals_total{why="lists_differ"} 0
taf_hub_refusals_total{why="beyond_calendar"} 0
taf_hub_refusals_total{why="number_reused"} 0
taf_hub_refusals_total{why="ack_ahead"} 0
# TYPE taf_hub_look_microseconds gauge
taf_hub_look_microseconds 0
# TYPE taf_hub_sessions gauge
taf_hub_sessions 3
# TYPE taf_hub_connections_waiting gauge
taf_hub_connections_waiting 0
"#;

#[test]
fn numbers_are_shown(rt: HostRuntime) -> Result<(), Fail> {
    let alloc = rt.alloc();
    let hub = hub_after(&rt, alloc, &[FIRST, REFUSED])?;
    let lines = "GET /metrics HTTP/1.1\r\nhost: localhost:7080\r\n";
    let answer = answer_to(&rt, alloc, &hub, None, lines)?;
    assert!(rt; status_of(&answer) == "200");
    assert!(rt; body_of(&answer) == SHOWN);
    Ok(())
}
