use std::alloc::{AllocError, AllocFailed};
use std::mem::size_of;
use std::test::Fail;
use taf_codes::{
    BadCode, ConsignmentId, Failed, Failures, Memory, Place, Railway, TrainId, UnitCode, UnitFault,
};

const RAILWAYS: [&str; 3] = ["R101", "0080", "ZZ9A"];

const NO_RAILWAYS: [&str; 8] = [
    "",
    "ABC",
    "ABCDE",
    "r101",
    "R-10",
    "ABC ",
    "ÄBC",
    "AB\u{661}",
];

#[test]
fn railways() -> Result<(), Fail> {
    for text in &RAILWAYS {
        if Railway::read(text)?.as_str() != *text {
            return Err(Fail::new(*text));
        }
    }
    for text in &NO_RAILWAYS {
        if Railway::read(text) != Err(BadCode) {
            return Err(Fail::new(*text));
        }
    }
    Ok(())
}

const PLACES: [&str; 3] = ["IT00003", "DE12345", "AZ99999"];

const NO_PLACES: [&str; 8] = [
    "", "IT0000", "IT000033", "it00003", "IT000A3", "I000003", "ITA0003", "Ä00003",
];

#[test]
fn places() -> Result<(), Fail> {
    for text in &PLACES {
        if Place::read(text)?.as_str() != *text {
            return Err(Fail::new(*text));
        }
    }
    for text in &NO_PLACES {
        if Place::read(text) != Err(BadCode) {
            return Err(Fail::new(*text));
        }
    }
    Ok(())
}

const UNITS: [&str; 2] = ["CSQU3054383", "AAAU0000060"];

const NO_UNITS: [(&str, UnitFault); 8] = [
    ("CSQU3054384", UnitFault::BadUnitDigit),
    ("AAAU000006A", UnitFault::NotAUnitCode),
    ("CSQ3054383", UnitFault::NotAUnitCode),
    ("CSQU30543833", UnitFault::NotAUnitCode),
    ("csqu3054383", UnitFault::NotAUnitCode),
    ("CSQ33054383", UnitFault::NotAUnitCode),
    ("", UnitFault::NotAUnitCode),
    ("ÄSQ3054383", UnitFault::NotAUnitCode),
];

#[test]
fn units() -> Result<(), Fail> {
    for text in &UNITS {
        if UnitCode::read(text)?.as_str() != *text {
            return Err(Fail::new(*text));
        }
    }
    for (text, fault) in &NO_UNITS {
        if UnitCode::read(text) != Err(*fault) {
            return Err(Fail::new(*text));
        }
    }
    Ok(())
}

const NAMES: [&str; 4] = ["W", "CIM-2024-17", "-", "A2345678901234567890"];

const NO_NAMES: [&str; 7] = [
    "",
    "A23456789012345678901",
    "cim",
    "CIM 17",
    "CIM_17",
    "Ä",
    "W\0",
];

#[test]
fn names() -> Result<(), Fail> {
    for text in &NAMES {
        let consignment = ConsignmentId::read(text)?;
        let train = TrainId::read(text)?;
        if consignment.as_str() != *text || train.as_str() != *text {
            return Err(Fail::new(*text));
        }
    }
    for text in &NO_NAMES {
        if ConsignmentId::read(text) != Err(BadCode) || TrainId::read(text) != Err(BadCode) {
            return Err(Fail::new(*text));
        }
    }
    Ok(())
}

#[test]
fn codes_are_small(rt: HostRuntime) {
    assert!(rt; size_of::<Railway>() == 4);
    assert!(rt; size_of::<Place>() == 7);
    assert!(rt; size_of::<UnitCode>() == 11);
    assert!(rt; size_of::<ConsignmentId>() == 21);
    assert!(rt; size_of::<TrainId>() == 21);
    assert!(rt; size_of::<Failures>() == 1);
}

#[test]
fn names_are_ordered(rt: HostRuntime) -> Result<(), Fail> {
    let short = ConsignmentId::read("A")?;
    let long = ConsignmentId::read("A-")?;
    let last = ConsignmentId::read("B")?;
    assert!(rt; short < long && long < last && short == short);
    Ok(())
}

#[test]
fn codes_are_printed(rt: HostRuntime) -> Result<(), Fail> {
    let railway = Railway::read("R101")?;
    let place = Place::read("IT00003")?;
    let unit = UnitCode::read("CSQU3054383")?;
    let consignment = ConsignmentId::read("CIM-17")?;
    let train = TrainId::read("T-77")?;
    let codes = format!(in rt.alloc(); "{railway} {place} {unit} {consignment:>8} {train}")?;
    assert!(rt; codes.as_str() == "R101 IT00003 CSQU3054383   CIM-17 T-77");
    Ok(())
}

const ERRORS: &str = "the text is no code of this kind
the text is not four capital letters and seven digits
the last digit is not the check digit of the unit's code
memory was refused
a reader or a writer failed";

#[test]
fn errors_are_printed(rt: HostRuntime) -> Result<(), Fail> {
    let form = UnitFault::NotAUnitCode;
    let digit = UnitFault::BadUnitDigit;
    let errors = format!(in rt.alloc(); "{BadCode}\n{form}\n{digit}\n{Memory}\n{Failed}")?;
    assert!(rt; errors.as_str() == ERRORS);
    Ok(())
}

#[test]
fn memory_comes_from_the_errors_of_std(rt: HostRuntime) {
    assert_eq!(rt; Memory::from(AllocError), Memory);
    assert_eq!(rt; Memory::from(AllocFailed { value: 7 }), Memory);
}
