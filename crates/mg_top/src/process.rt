//! From the process to the top call and back.

use crate::gate::NoGate;
use crate::messages::message;
use crate::status::{Status, code};
use crate::top::magnus;
use mg_command::UsageCause;
use mg_io::{InputSource, OutputSink};
use std::process::ExitCode;
use std::rt::Env;
use std::sync::Wait;
use std::thread::Threads;
use std::{env, io, str};

/// What a program does: calls the top call on its command words, standard input and standard output, says on standard
/// error how that ended, where there is something to say, and ends with the exit status for it.
pub fn start<R: Env + Input + Print + Eprint + AllocGlobal + Threads + Wait + Sync>(
    rt: &R,
) -> ExitCode {
    let status = run(rt);
    tell(rt, &status);
    ExitCode::from(code(&status))
}

/// Says on standard error how the program ended, where there is something to say.
fn tell<R: Eprint + AllocGlobal>(rt: &R, status: &Status) {
    let Ok(text) = message(rt.alloc(), status) else {
        return;
    };
    let Ok(line) = str::from_utf8(text.as_slice()) else {
        return;
    };
    if !line.is_empty() {
        let _ = rt.eprintln(line);
    }
}

/// Calls the top call on the command words, standard input and standard output. Words that are no text are bad ones.
fn run<R: Env + Input + Print + AllocGlobal + Threads + Wait + Sync>(rt: &R) -> Status {
    let Ok(args) = env::args(rt) else {
        return Status::Usage(UsageCause::BadWords);
    };
    let Ok(args) = args.skip(1).collect::<Vec<String>>(rt.alloc()) else {
        return Status::NoMemory;
    };
    let mut words = Vec::new(rt.alloc());
    for word in &args {
        if words.push(word.as_str()).is_err() {
            return Status::NoMemory;
        }
    }
    let mut source = InputSource::new(rt.reader());
    let mut sink = OutputSink::new(io::writer(rt));
    magnus(
        rt,
        rt.alloc(),
        words.as_slice(),
        &mut source,
        &mut sink,
        &NoGate,
    )
}
