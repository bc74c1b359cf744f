use std::alloc::Global;
use std::test::Fail;
use wagon_number::{NumberFault, WagonNumber, check_digit};

const DIGITS: [(&str, u8); 10] = [
    ("31800691235", 2),
    ("33877881004", 8),
    ("37847840962", 6),
    ("82514953604", 7),
    ("43564079185", 9),
    ("27761508325", 4),
    ("60953720840", 5),
    ("74038256195", 0),
    ("99999999999", 1),
    ("11111111111", 3),
];

// The digits of a text.
fn digits_of(eleven: &str) -> [u8; 11] {
    let mut digits = [0; 11];
    for (place, letter) in digits.iter_mut().zip(eleven.bytes()) {
        *place = letter.saturating_sub(b'0');
    }
    digits
}

// The last digit of the number that is read from these digits and their check digit.
fn last_digit(alloc: Global, eleven: &str, digit: u8) -> Result<u8, Fail> {
    let text = format!(in alloc; "{eleven}{digit}")?;
    Ok(WagonNumber::read(&text)?.digits()[11])
}

#[test]
fn check_digits_go_by_the_rule(rt: HostRuntime) -> Result<(), Fail> {
    for (eleven, digit) in &DIGITS {
        let digits = digits_of(eleven);
        assert!(rt; digits.iter().all(|digit| *digit <= 9));
        let is_last = last_digit(rt.alloc(), eleven, *digit)? == *digit;
        if check_digit(digits) != *digit || !is_last {
            return Err(Fail::new(*eleven));
        }
    }
    Ok(())
}

const NUMBERS: [(&str, &str); 4] = [
    ("218124712173", "21 81 2471 217-3"),
    ("338478961232", "33 84 7896 123-2"),
    ("318066552148", "31 80 6655 214-8"),
    ("000000000000", "00 00 0000 000-0"),
];

// Whether the number that is read from the text has that text and this marked one, from which it is read too.
fn is_printed(alloc: Global, text: &str, marked: &str) -> Result<bool, Fail> {
    let wagon = WagonNumber::read(text)?;
    let is_text = wagon.text().as_str() == text;
    let is_marked = wagon.to_string(alloc)?.as_str() == marked;
    Ok(is_text && is_marked && WagonNumber::read_marked(marked) == Ok(wagon))
}

#[test]
fn numbers_are_read_and_printed(rt: HostRuntime) -> Result<(), Fail> {
    for (text, marked) in &NUMBERS {
        if !is_printed(rt.alloc(), text, marked)? {
            return Err(Fail::new(*text));
        }
    }
    Ok(())
}

const NO_NUMBERS: [(&str, NumberFault); 10] = [
    ("218124712174", NumberFault::BadCheckDigit),
    ("21812471217", NumberFault::NotTwelveDigits),
    ("2181247121733", NumberFault::NotTwelveDigits),
    ("+18124712173", NumberFault::NotTwelveDigits),
    ("218124712173 ", NumberFault::NotTwelveDigits),
    ("21812471217a", NumberFault::NotTwelveDigits),
    ("２１８１", NumberFault::NotTwelveDigits),
    ("٢١٨١٢٤", NumberFault::NotTwelveDigits),
    ("21 81 2471 217-3", NumberFault::NotTwelveDigits),
    ("", NumberFault::NotTwelveDigits),
];

const NO_MARKED_NUMBERS: [(&str, NumberFault); 7] = [
    ("21 81 2471 217-4", NumberFault::BadCheckDigit),
    ("218124712173", NumberFault::NotTwelveDigits),
    ("21 81 2471 217 3", NumberFault::NotTwelveDigits),
    ("21-81 2471 217-3", NumberFault::NotTwelveDigits),
    ("218 1 2471 217-3", NumberFault::NotTwelveDigits),
    ("21 81 2471 21 7-3", NumberFault::NotTwelveDigits),
    ("21 81 2471 2173-", NumberFault::NotTwelveDigits),
];

#[test]
fn other_texts_are_refused() -> Result<(), Fail> {
    for (text, fault) in &NO_NUMBERS {
        if WagonNumber::read(text) != Err(*fault) {
            return Err(Fail::new(*text));
        }
    }
    Ok(())
}

#[test]
fn other_marked_texts_are_refused() -> Result<(), Fail> {
    for (text, fault) in &NO_MARKED_NUMBERS {
        if WagonNumber::read_marked(text) != Err(*fault) {
            return Err(Fail::new(*text));
        }
    }
    Ok(())
}

#[test]
fn faults_have_texts(rt: HostRuntime) -> Result<(), Fail> {
    let shape = NumberFault::NotTwelveDigits.to_string(rt.alloc())?;
    let digit = NumberFault::BadCheckDigit.to_string(rt.alloc())?;
    assert!(rt; shape.as_str() == "not twelve digits");
    assert!(rt; digit.as_str() == "bad check digit");
    Ok(())
}
