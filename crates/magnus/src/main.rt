//! The Magnus workbench: reads a session script on standard input, searches for answers to its
//! questions about finitely presented groups, and prints reports whose answers can be checked again.
#![tactic(auto)]

use mg_top::start;
use std::process::ExitCode;

fn main(rt: HostRuntime) -> ExitCode {
    start(&rt)
}
