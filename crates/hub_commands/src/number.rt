use hub_faults::Fault;
use std::io::Write;
use wagon_number::{NumberFault, WagonNumber};

/// Prints the vehicle number of the text, twelve digits or the marked form, in the marked form.
pub fn perform<W: Write + Drop>(mut output: W, text: &str) -> Result<u8, Fault> {
    let number = number_of(text)?;
    match output.write_fmt(format_args!("{number}\n")) {
        Ok(()) => Ok(0),
        Err(_failed) => Err(Fault::Write),
    }
}

fn number_of(text: &str) -> Result<WagonNumber, NumberFault> {
    match WagonNumber::read(text) {
        Err(NumberFault::NotTwelveDigits) => WagonNumber::read_marked(text),
        read => read,
    }
}
