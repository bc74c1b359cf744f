use hub_faults::Fault;
use std::env;
use std::env::Env;

/// The arguments of the command line, the program's name first.
pub fn arguments(rt: &(impl Env + AllocGlobal)) -> Result<Vec<String>, Fault> {
    let arguments = env::args(rt).map_err(Fault::of_arguments)?;
    Ok(arguments.collect(rt.alloc())?)
}
