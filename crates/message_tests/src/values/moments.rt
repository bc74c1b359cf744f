use std::alloc::Global;
use std::test::Fail;
use taf_moment::{BadMoment, Moment};

const MOMENTS: [(&str, u32); 6] = [
    ("1970-01-01T00:00Z", 0),
    ("1972-02-29T12:34Z", 1_136_914),
    ("2000-02-29T23:59Z", 15_864_479),
    ("2025-03-01T06:00Z", 29_013_480),
    ("2100-02-28T00:00Z", 68_457_600),
    ("2199-12-31T23:59Z", 120_968_639),
];

// Whether the moment that is read from the text is so many minutes, and has that text.
fn is_printed(alloc: Global, text: &str, minutes: u32) -> Result<bool, Fail> {
    let moment = Moment::read(text)?;
    let is_number = moment.minutes() == minutes && Moment::from_minutes(minutes) == Some(moment);
    let is_text = moment.text().as_str() == text;
    Ok(is_number && is_text && moment.to_string(alloc)?.as_str() == text)
}

#[test]
fn moments_are_read_and_printed(rt: HostRuntime) -> Result<(), Fail> {
    for (text, minutes) in &MOMENTS {
        if !is_printed(rt.alloc(), text, *minutes)? {
            return Err(Fail::new(*text));
        }
    }
    Ok(())
}

const NO_MOMENTS: [&str; 20] = [
    "2025-02-29T00:00Z",
    "2100-02-29T00:00Z",
    "2025-04-31T00:00Z",
    "2025-13-01T00:00Z",
    "2025-00-01T00:00Z",
    "2025-01-00T00:00Z",
    "2025-01-01T24:00Z",
    "2025-01-01T00:60Z",
    "1969-12-31T23:59Z",
    "2200-01-01T00:00Z",
    "2025-03-01t06:00Z",
    "2025-03-01T06:00z",
    "2025-03-01T06:00:00Z",
    "2025-03-01T06:00Z ",
    "2025-03-01 06:00Z",
    "2025-03-01T06:00",
    "+025-03-01T06:00Z",
    "2５-03-01T06:00Z",
    "٢٠-03-01T06:00Z",
    "",
];

#[test]
fn other_texts_are_refused() -> Result<(), Fail> {
    for text in &NO_MOMENTS {
        if Moment::read(text) != Err(BadMoment) {
            return Err(Fail::new(*text));
        }
    }
    Ok(())
}

#[test]
fn minutes_are_added(rt: HostRuntime) -> Result<(), Fail> {
    let last = Moment::read("2199-12-31T23:59Z")?;
    let hour_before = Moment::read("2199-12-31T22:59Z")?;
    assert!(rt; hour_before.plus(60) == Some(last));
    assert!(rt; hour_before.plus(61).is_none());
    assert!(rt; last.plus(0) == Some(last));
    assert!(rt; last.plus(u32::MAX).is_none());
    assert!(rt; Moment::from_minutes(120_968_640).is_none());
    Ok(())
}

#[test]
fn the_fault_has_a_text(rt: HostRuntime) -> Result<(), Fail> {
    let text = BadMoment.to_string(rt.alloc())?;
    assert!(rt; text.as_str() == "not a moment of the form YYYY-MM-DDThh:mmZ");
    Ok(())
}
