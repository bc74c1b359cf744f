//! The program `taf_hub`: standard input, standard output, standard error and the status. What its arguments mean is told
//! in `hub_commands`.
#![tactic(auto)]

use hub_commands::{arguments, perform, report_fault};
use std::io;
use std::process::ExitCode;

fn main(rt: HostRuntime) -> ExitCode {
    let mut errors = rt.stderr();
    let status = match arguments(&rt) {
        Ok(arguments) => perform(&rt, &arguments, rt.reader(), io::writer(&rt), &mut errors),
        Err(fault) => report_fault(fault, &mut errors),
    };
    ExitCode::from(status)
}
