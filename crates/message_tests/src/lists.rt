//! Lists of wagons: of an offer 1 to 60, all different, and of an answer at most 60.
use crate::parts::{ONE, TWO, wagons};
use std::alloc::Global;
use std::test::Fail;
use taf_messages::{Listed, OfferedWagons, Wagons};
use wagon_number::WagonNumber;

/// Offers, good and bad.
pub(crate) static OFFERS: &str = r#"=good
{"kind":"offer","from":"R101","no":6,"at":"2025-03-01T10:50Z","train":"T-77","place":"AT00002","to":"R102","wagons":<60 wagons>}
{"kind":"offer","from":"R101","no":6,"at":"2025-03-01T10:50Z","train":"T-77","place":"AT00002","to":"R102","wagons":["218124712173"]}
{"kind":"offer","from":"R101","no":6,"at":"2025-03-01T10:50Z","train":"T-77","place":"AT00002","to":"R102","wagons":["338478961232","218124712173"]}
={"fault":"bad_field","field":"wagons"}
{"kind":"offer","from":"R101","no":6,"at":"2025-03-01T10:50Z","train":"T-77","place":"AT00002","to":"R102","wagons":<61 wagons>}
{"kind":"offer","from":"R101","no":6,"at":"2025-03-01T10:50Z","train":"T-77","place":"AT00002","to":"R102","wagons":[]}
{"kind":"offer","from":"R101","no":6,"at":"2025-03-01T10:50Z","train":"T-77","place":"AT00002","to":"R102","wagons":["218124712173","218124712173"]}
{"kind":"offer","from":"R101","no":6,"at":"2025-03-01T10:50Z","train":"T-77","place":"AT00002","to":"R102","wagons":["218124712173","338478961232","218124712173"]}
{"kind":"offer","from":"R101","no":6,"at":"2025-03-01T10:50Z","train":"T-77","place":"AT00002","to":"R102","wagons":["218124712174"]}
{"kind":"offer","from":"R101","no":6,"at":"2025-03-01T10:50Z","train":"T-77","place":"AT00002","to":"R102","wagons":["218124712173",218124712173]}
{"kind":"offer","from":"R101","no":6,"at":"2025-03-01T10:50Z","train":"T-77","place":"AT00002","to":"R102","wagons":["21 81 2471 217-3"]}
{"kind":"offer","from":"R101","no":6,"at":"2025-03-01T10:50Z","train":"T-77","place":"AT00002","to":"R102","wagons":{"wagon":"218124712173"}}
{"kind":"offer","from":"R101","no":6,"at":"2025-03-01T10:50Z","train":"T-77","place":"AT00002","to":"R102","wagons":null}"#;

/// Answers, good and bad. A wagon may stand twice in their lists.
pub(crate) static ANSWERS: &str = r#"=good
{"kind":"answer","from":"R102","no":1,"at":"2025-03-01T11:10Z","offerer":"R101","offer":6,"received":<60 wagons>,"refused":<60 wagons>}
{"kind":"answer","from":"R102","no":1,"at":"2025-03-01T11:10Z","offerer":"R101","offer":6,"received":[],"refused":[]}
{"kind":"answer","from":"R102","no":1,"at":"2025-03-01T11:10Z","offerer":"R101","offer":6,"received":["218124712173","218124712173"],"refused":["218124712173","218124712173"]}
={"fault":"bad_field","field":"received"}
{"kind":"answer","from":"R102","no":1,"at":"2025-03-01T11:10Z","offerer":"R101","offer":6,"received":<61 wagons>,"refused":[]}
{"kind":"answer","from":"R102","no":1,"at":"2025-03-01T11:10Z","offerer":"R101","offer":6,"received":null,"refused":null}
={"fault":"bad_field","field":"refused"}
{"kind":"answer","from":"R102","no":1,"at":"2025-03-01T11:10Z","offerer":"R101","offer":6,"received":[],"refused":<61 wagons>}
{"kind":"answer","from":"R102","no":1,"at":"2025-03-01T11:10Z","offerer":"R101","offer":6,"received":[],"refused":null}
{"kind":"answer","from":"R102","no":1,"at":"2025-03-01T11:10Z","offerer":"R101","offer":6,"received":[],"refused":["218124712174"]}"#;

fn some_wagons(alloc: Global) -> Result<Wagons, Fail> {
    match Wagons::new(wagons(alloc, &[ONE, TWO])?) {
        Some(wagons) => Ok(wagons),
        None => Err(Fail::new("two wagons")),
    }
}

fn some_offered(alloc: Global) -> Result<OfferedWagons, Fail> {
    match OfferedWagons::new(wagons(alloc, &[ONE, TWO])?) {
        Some(wagons) => Ok(wagons),
        None => Err(Fail::new("two wagons")),
    }
}

// Whether a list of two wagons gives back these.
fn some_give_back(alloc: Global, two: &[WagonNumber]) -> Result<bool, Fail> {
    let some = some_wagons(alloc)?;
    Ok(some.as_slice() == two && some.into_vec().as_slice() == two)
}

// Whether a list of two offered wagons gives back these.
fn some_offered_give_back(alloc: Global, two: &[WagonNumber]) -> Result<bool, Fail> {
    let some = some_offered(alloc)?;
    Ok(some.as_slice() == two && some.into_vec().as_slice() == two)
}

#[test]
fn wagons_are_given_back(rt: HostRuntime) -> Result<(), Fail> {
    let two = wagons(rt.alloc(), &[ONE, TWO])?;
    assert!(rt; some_give_back(rt.alloc(), &two)?);
    assert!(rt; some_offered_give_back(rt.alloc(), &two)?);
    Ok(())
}

#[test]
fn no_offer(rt: HostRuntime) -> Result<(), Fail> {
    assert!(rt; OfferedWagons::new(wagons(rt.alloc(), &[ONE, ONE])?).is_none());
    assert!(rt; OfferedWagons::new(wagons(rt.alloc(), &[])?).is_none());
    Ok(())
}

fn listed(alloc: Global, texts: &[&str]) -> Result<Listed<WagonNumber>, Fail> {
    Ok(Listed::from_vec(wagons(alloc, texts)?))
}

#[test]
fn lists_give_back_what_they_hold(rt: HostRuntime) -> Result<(), Fail> {
    let two = wagons(rt.alloc(), &[ONE, TWO])?;
    let listed_two = listed(rt.alloc(), &[ONE, TWO])?;
    assert!(rt; listed_two.as_slice() == two.as_slice());
    assert!(rt; listed(rt.alloc(), &[TWO, ONE])? != listed_two);
    assert!(rt; listed_two.into_vec() == two);
    Ok(())
}
