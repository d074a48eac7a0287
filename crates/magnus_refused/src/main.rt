//! The same program as `magnus`. Its stored run is a script that is refused, and so shows that the program ends with the
//! status of the top call.
#![tactic(auto)]

use mg_top::start;
use std::process::ExitCode;

fn main(rt: HostRuntime) -> ExitCode {
    start(&rt)
}
