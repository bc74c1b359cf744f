use std::alloc::Global;
use std::test::Fail;
use taf_codes::{ConsignmentId, Place, Railway, UnitCode};
use taf_moment::Moment;
use trip_plan::{Leg, Load, Plan, PlanFault, Route, UnitLoad};
use wagon_number::WagonNumber;

// The wagons whose first eleven digits are 21812471000 to 21812471059, and the one behind them.
const SIXTY: &str = "218124710003 218124710011 218124710029 218124710037 218124710045 218124710052 \
    218124710060 218124710078 218124710086 218124710094 218124710102 218124710110 \
    218124710128 218124710136 218124710144 218124710151 218124710169 218124710177 \
    218124710185 218124710193 218124710201 218124710219 218124710227 218124710235 \
    218124710243 218124710250 218124710268 218124710276 218124710284 218124710292 \
    218124710300 218124710318 218124710326 218124710334 218124710342 218124710359 \
    218124710367 218124710375 218124710383 218124710391 218124710409 218124710417 \
    218124710425 218124710433 218124710441 218124710458 218124710466 218124710474 \
    218124710482 218124710490 218124710508 218124710516 218124710524 218124710532 \
    218124710540 218124710557 218124710565 218124710573 218124710581 218124710599";

const ONE_MORE: &str = "218124710607";

fn wagons(alloc: Global, texts: &str) -> Result<Vec<WagonNumber>, Fail> {
    let mut wagons = Vec::new(alloc);
    for text in texts.split_ascii_whitespace() {
        wagons.push(WagonNumber::read(text)?)?;
    }
    Ok(wagons)
}

// Legs by their letters. Of two legs of a plan: the first, the last, and in its place one from elsewhere, one of the same
// railway again and one that takes no time; a first one that takes too long. Of a route: its leg, and behind it one from
// elsewhere, one of the same railway again and one that takes too long. Nine legs in a row, each as long as a leg may be.
const LEGS: &str = "f R101 DE00001 AT00002 300
l R102 AT00002 IT00003 240
e R102 AT00009 IT00003 240
a R101 AT00002 IT00003 240
n R102 AT00002 IT00003 0
s R101 DE00001 AT00002 100001
R R103 AT00002 CH00004 180
E R104 CH00005 IT00003 0
A R103 CH00004 IT00003 0
S R104 CH00004 IT00003 100001
1 R101 DE00001 DE00002 100000
2 R102 DE00002 DE00003 100000
3 R103 DE00003 DE00004 100000
4 R104 DE00004 DE00005 100000
5 R105 DE00005 DE00006 100000
6 R106 DE00006 DE00007 100000
7 R107 DE00007 DE00008 100000
8 R108 DE00008 DE00009 100000
9 R109 DE00009 DE00010 100000";

fn leg(words: &str) -> Result<Leg, Fail> {
    let mut words = words.split_ascii_whitespace();
    let ru = Railway::read(words.next().unwrap_or(""))?;
    let origin = Place::read(words.next().unwrap_or(""))?;
    let target = Place::read(words.next().unwrap_or(""))?;
    let minutes = words.next().unwrap_or("").parse::<u32>()?;
    Ok(Leg {
        ru,
        origin,
        target,
        minutes,
    })
}

fn leg_of(letter: char) -> Result<Leg, Fail> {
    for line in LEGS.lines() {
        if let Some(words) = line.strip_prefix(letter) {
            return leg(words);
        }
    }
    Err(Fail::new("no such leg"))
}

fn legs_of(alloc: Global, letters: &str) -> Result<Vec<Leg>, Fail> {
    let mut legs = Vec::new(alloc);
    for letter in letters.chars() {
        legs.push(leg_of(letter)?)?;
    }
    Ok(legs)
}

// The first wagon, the second, or another.
fn wagon_of(letter: char) -> Result<WagonNumber, Fail> {
    let text = match letter {
        '1' => "218124712173",
        '2' => "338478961232",
        _ => "318066552148",
    };
    Ok(WagonNumber::read(text)?)
}

fn wagons_of(alloc: Global, letters: &str) -> Result<Vec<WagonNumber>, Fail> {
    let mut wagons = Vec::new(alloc);
    for letter in letters.chars() {
        wagons.push(wagon_of(letter)?)?;
    }
    Ok(wagons)
}

// A unit on the first wagon, on the second or on another, and a small one on the first.
fn unit_of(letter: char) -> Result<UnitLoad, Fail> {
    let (unit, wagon) = match letter {
        's' => ("AAAU0000060", '1'),
        _ => ("CSQU3054383", letter),
    };
    Ok(UnitLoad {
        unit: UnitCode::read(unit)?,
        wagon: wagon_of(wagon)?,
    })
}

fn units_of(alloc: Global, letters: &str) -> Result<Vec<UnitLoad>, Fail> {
    let mut units = Vec::new(alloc);
    for letter in letters.chars() {
        units.push(unit_of(letter)?)?;
    }
    Ok(units)
}

fn with_units(
    alloc: Global,
    wagons: &[WagonNumber],
    legs: &[Leg],
    units: &[UnitLoad],
) -> Result<Result<Plan, PlanFault>, Fail> {
    let lead = Railway::read("R100")?;
    let consignment = ConsignmentId::read("C-1")?;
    let commit = Moment::read("2025-03-01T15:30Z")?;
    let units = if units.len() <= 120 { units } else { &[] };
    let load = Load::Loaded;
    Ok(Plan::with_units(alloc, lead, consignment, load, wagons, legs, units, commit))
}

// The plan of the wagons, legs and units that these letters stand for.
fn plan_of(
    alloc: Global,
    wagons: &str,
    legs: &str,
    units: &str,
) -> Result<Result<Plan, PlanFault>, Fail> {
    let wagons = wagons_of(alloc, wagons)?;
    let legs = legs_of(alloc, legs)?;
    let units = units_of(alloc, units)?;
    with_units(alloc, &wagons, &legs, &units)
}

fn longest(alloc: Global, wagons: &[WagonNumber], legs: &[Leg]) -> Result<Plan, Fail> {
    let lead = Railway::read("R100")?;
    let consignment = ConsignmentId::read("C-1")?;
    let commit = Moment::read("2025-03-01T15:30Z")?;
    Ok(Plan::new(alloc, lead, consignment, Load::Empty, wagons, legs, commit)?)
}

fn terms(alloc: Global, plan: &Plan) -> Result<String, Fail> {
    let (lead, consignment) = (plan.lead(), plan.consignment());
    let (load, commit) = (plan.load(), plan.commit());
    Ok(format!(in alloc; "{lead} {consignment} {load:?} {commit}")?)
}

// Whether the plan is of these wagons and legs, and of no unit.
fn holds(plan: &Plan, wagons: &[WagonNumber], legs: &[Leg]) -> bool {
    let are_lists = plan.wagons() == wagons && plan.legs() == legs;
    are_lists && wagons.len() == 60 && legs.len() == 8 && plan.units().is_empty()
}

// Whether the plan has each of these legs under its number, and no other behind them.
fn has_legs(plan: &Plan, legs: &[Leg]) -> bool {
    for i in 0..9 {
        if plan.leg(i).copied() != legs.get(i).copied() {
            return false;
        }
    }
    true
}

#[test]
fn the_longest_plan(rt: HostRuntime) -> Result<(), Fail> {
    let wagons = wagons(rt.alloc(), SIXTY)?;
    let legs = legs_of(rt.alloc(), "12345678")?;
    let plan = longest(rt.alloc(), &wagons, &legs)?;
    assert!(rt; holds(&plan, &wagons, &legs));
    assert!(rt; has_legs(&plan, &legs));
    assert!(rt; plan.copy()? == plan);
    let terms = terms(rt.alloc(), &plan)?;
    assert!(rt; terms.as_str() == "R100 C-1 Empty 2025-03-01T15:30Z");
    Ok(())
}

// Whether wagons on these legs are too many, or the legs are, by this rule.
fn are_too_many(
    alloc: Global,
    wagons: &[WagonNumber],
    letters: &str,
    code: u8,
) -> Result<bool, Fail> {
    let legs = legs_of(alloc, letters)?;
    let refused = with_units(alloc, wagons, &legs, &[])?;
    Ok(refused == Err(PlanFault::BadPlan(code)))
}

#[test]
fn longer_plans(rt: HostRuntime) -> Result<(), Fail> {
    let mut wagons = wagons(rt.alloc(), SIXTY)?;
    assert!(rt; are_too_many(rt.alloc(), &wagons, "123456789", 1)?);
    wagons.push(WagonNumber::read(ONE_MORE)?)?;
    assert!(rt; are_too_many(rt.alloc(), &wagons, "12345678", 4)?);
    Ok(())
}

fn good_plan(alloc: Global, units: &str) -> Result<Plan, Fail> {
    match plan_of(alloc, "12", "fl", units)? {
        Ok(plan) => Ok(plan),
        Err(_) => Err(Fail::new("a plan that breaks a rule")),
    }
}

#[test]
fn a_plan_with_units(rt: HostRuntime) -> Result<(), Fail> {
    let units = units_of(rt.alloc(), "1s")?;
    let good = good_plan(rt.alloc(), "1s")?;
    assert!(rt; good.units() == units.as_slice());
    assert!(rt; good.copy()? == good);
    let bare = good_plan(rt.alloc(), "")?;
    assert!(rt; bare != good);
    Ok(())
}

// Each rule alone, and then together with the rules behind it: wagons, legs, units and the rule that is told.
const BROKEN: [(&str, &str, &str, u8); 16] = [
    ("12", "", "", 1),
    ("12", "fe", "", 2),
    ("12", "fa", "", 3),
    ("", "fl", "", 4),
    ("121", "fl", "", 5),
    ("12", "fn", "", 6),
    ("12", "sl", "", 6),
    ("12", "fl", "12", 7),
    ("12", "fl", "3", 8),
    ("", "", "3", 1),
    ("", "fee", "", 2),
    ("", "fan", "1", 2),
    ("", "sa", "", 3),
    ("11", "fn", "11", 5),
    ("1", "s", "33", 6),
    ("2", "f", "11", 7),
];

// Whether the plan that these letters stand for breaks this rule.
fn breaks(alloc: Global, letters: (&str, &str, &str), code: u8) -> Result<bool, Fail> {
    let (wagons, legs, units) = letters;
    let refused = plan_of(alloc, wagons, legs, units)?;
    Ok(refused == Err(PlanFault::BadPlan(code)))
}

#[test]
fn plans_that_break_a_rule(rt: HostRuntime) -> Result<(), Fail> {
    for (wagons, legs, units, code) in &BROKEN {
        if !breaks(rt.alloc(), (*wagons, *legs, *units), *code)? {
            return Err(Fail::new(*code));
        }
    }
    Ok(())
}

#[test]
fn faults_in_words(rt: HostRuntime) -> Result<(), Fail> {
    let text = format!(in rt.alloc(); "{}, {}", PlanFault::BadPlan(8), PlanFault::Memory)?;
    assert!(rt; text.as_str() == "breaks rule 8 of a plan, memory was refused");
    Ok(())
}

// Whether a route of these legs has them, and equals its copy and not the other route.
fn is_route(alloc: Global, letters: &str, other: &Route) -> Result<bool, Fail> {
    let legs = legs_of(alloc, letters)?;
    let route = Route::new(alloc, &legs)?;
    Ok(route.legs() == legs.as_slice() && route.copy()? == route && route != *other)
}

#[test]
fn routes(rt: HostRuntime) -> Result<(), Fail> {
    let other = Route::new(rt.alloc(), &legs_of(rt.alloc(), "1")?)?;
    assert!(rt; is_route(rt.alloc(), "R", &other)?);
    assert!(rt; is_route(rt.alloc(), "1234567", &other)?);
    Ok(())
}

// The legs of a route, and the rule that they break.
const NO_ROUTES: [(&str, u8); 5] = [("", 1), ("12345678", 1), ("RE", 2), ("RA", 3), ("RS", 6)];

#[test]
fn routes_that_break_a_rule(rt: HostRuntime) -> Result<(), Fail> {
    for (letters, code) in &NO_ROUTES {
        let legs = legs_of(rt.alloc(), letters)?;
        if Route::new(rt.alloc(), &legs) != Err(PlanFault::BadPlan(*code)) {
            return Err(Fail::new(*code));
        }
    }
    Ok(())
}
