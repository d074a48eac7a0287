//! The top call, which does all that the program does.
ghost use Rattle.std.specs.Prelude.{◌≡◌, ◌≢◌, ◌⊎◌, ℕ, ◌<◌, ◌-◌, ◌≤◌, ◌^◌, List, [], Some, Err, take, IfOk, IfSome, length};
ghost use Rattle.std.specs.Io.KnownBytes.{Appends};
ghost use Rattle.mg_io.specs.Causes.{Rose};
ghost use Rattle.mg_command.specs.Words.{Lacks, texts};
ghost use Rattle.mg_policy.specs.Sizes.{IsEven, IsDoubling};
ghost use Rattle.mg_session.specs.Scripts.{IsRefused, IsOutput};
ghost use Rattle.mg_top.specs.Command.{AsRun, IsRunCommand, IsOtherForm, HasMeaning, HasRun, HasRead, IsAnswered, params_of};

use crate::gate::Gate;
use crate::status::{MOST_SCRIPT_BYTES, Status};
use mg_command::{Command, PolicyName, UsageCause, WordsRefused, read_words};
use mg_io::{ReadRefused, Sink, Source, read_all, write_all};
use mg_lex::{Refused, Text};
use mg_policy::{Policy, doubling, even};
use mg_session::{SessionRefused, run_script};
use std::alloc::Global;
use std::sync::Wait;
use std::thread::Threads;

/// Does what the command words ask for: `run` reads a script from the source, runs it with the workers and by the policy
/// that the words name, and writes its output to the sink. As yet one worker makes all turns, whatever their number.
pub fn magnus<X: Threads + Wait + Sync, S: Source, K: Sink, G: Gate + Sync>(
    _rt: &X,
    alloc: Global,
    words: &[&str],
    source: &mut S,
    sink: &mut K,
    _gate: &G,
) -> Status
    // Where all went well, the source was read to its end, and what was written is a legal output of
    // the script that it gave.
    ensures headline { result ≡ Status.Done →
        AsRun words.now (λ workers policy. IfSome (S.left source.old) (λ script.
        (S.left source.new ≡ Some [])
        × (output : List ℕ) × IsOutput script (params_of workers policy) output ×
        Appends (K.taken sink.old) (K.taken sink.new) output)) }

    // A fault is answered only where it was counted, and after a fault of the sink it has taken the
    // beginning of a legal output.
    ensures read_fault { result ≡ Status.ReadFault →
        Rose (S.faults source.old) (S.faults source.new) }
    ensures write_fault { result ≡ Status.WriteFault →
        Rose (K.faults sink.old) (K.faults sink.new) }
    ensures written { result ≡ Status.WriteFault →
        AsRun words.now (λ workers policy. IfSome (S.left source.old) (λ script.
        (output : List ℕ) × IsOutput script (params_of workers policy) output
        × (n : ℕ) × (n ≤ length output) ×
        Appends (K.taken sink.old) (K.taken sink.new) (take n output))) }
    ensures unwritten { result ≢ Status.Done → result ≢ Status.WriteFault → sink.new ≡ sink.old }
    ensures quiet_source { result ≢ Status.ReadFault → S.faults source.new ≡ S.faults source.old }
    ensures quiet_sink { result ≢ Status.WriteFault → K.faults sink.new ≡ K.faults sink.old }

    // A script is refused exactly at the first cause that stands in it, and one that is too long isn't read further.
    ensures refused { (r : Refused) → result ≡ Status.ScriptRefused r →
        IfSome (S.left source.old) (λ script. IsRefused script r) }
    ensures too_long { result ≡ Status.TooLong →
        IfSome (S.left source.old) (λ script. MOST_SCRIPT_BYTES < length script) }
    ensures whole { IsRunCommand words.now → HasRead result → IfSome (S.left source.old) (λ script.
        (length script ≤ MOST_SCRIPT_BYTES) × (S.left source.new ≡ Some [])) }

    // Words that ask for nothing are told their cause, exactly where they have it, or that memory was wanting, and
    // nothing is read for them.
    ensures usage { (cause : UsageCause) → result ≡ Status.Usage cause →
        Lacks (texts words.now) cause }
    ensures lacks { (cause : UsageCause) → Lacks (texts words.now) cause →
        ((result ≡ Status.Usage cause) ⊎ (result ≡ Status.NoMemory)) × (source.new ≡ source.old) }

    // What isn't built is told of the forms of other commands alone, with line 0, and nothing is read for them. A script
    // is run only where it has a meaning.
    ensures not_built { (line : ℕ) → result ≡ Status.NotBuilt line →
        IsOtherForm words.now × (line ≡ 0) }
    ensures meaning { HasRun result → IfSome (S.left source.old) HasMeaning }
    ensures other_form { IsOtherForm words.now →
        ((result ≡ Status.NotBuilt 0) ⊎ (result ≡ Status.NoMemory)) × (source.new ≡ source.old) }

    // A script that isn't too long and has a meaning is answered: all went well, or a fault was counted, or memory was
    // wanting.
    ensures complete { IsRunCommand words.now →
        IfSome (S.left source.old) (λ script. length script ≤ MOST_SCRIPT_BYTES → HasMeaning script →
        IsAnswered result (Rose (S.faults source.old) (S.faults source.new))
        (Rose (K.faults sink.old) (K.faults sink.new))) }
{
    match read_words(alloc, words) {
        Ok(Command::Run { workers, policy }) => run_command(alloc, workers, policy, source, sink),
        Ok(Command::Check) => Status::NotBuilt { line: 0 },
        Ok(Command::Sample { .. }) => Status::NotBuilt { line: 0 },
        Err(WordsRefused::Usage(cause)) => Status::Usage(cause),
        Err(WordsRefused::NoMemory) => Status::NoMemory,
    }
}

/// Reads a script from the source, runs it with so many workers by the policy of this name, and writes its output to the
/// sink.
fn run_command<S: Source, K: Sink>(
    alloc: Global,
    workers: u64,
    policy: PolicyName,
    source: &mut S,
    sink: &mut K,
) -> Status
    requires some { 1 ≤ workers }
    requires few { workers ≤ 64 }
    ensures headline { result ≡ Status.Done → IfSome (S.left source.old) (λ script.
        (S.left source.new ≡ Some [])
        × (output : List ℕ) × IsOutput script (params_of workers policy) output ×
        Appends (K.taken sink.old) (K.taken sink.new) output) }
    ensures read_fault { result ≡ Status.ReadFault →
        Rose (S.faults source.old) (S.faults source.new) }
    ensures write_fault { result ≡ Status.WriteFault →
        Rose (K.faults sink.old) (K.faults sink.new) }
    ensures written { result ≡ Status.WriteFault → IfSome (S.left source.old) (λ script.
        (output : List ℕ) × IsOutput script (params_of workers policy) output
        × (n : ℕ) × (n ≤ length output) ×
        Appends (K.taken sink.old) (K.taken sink.new) (take n output)) }
    ensures unwritten { result ≢ Status.Done → result ≢ Status.WriteFault → sink.new ≡ sink.old }
    ensures quiet_source { result ≢ Status.ReadFault → S.faults source.new ≡ S.faults source.old }
    ensures quiet_sink { result ≢ Status.WriteFault → K.faults sink.new ≡ K.faults sink.old }
    ensures usage { (cause : UsageCause) → result ≢ Status.Usage cause }
    ensures refused { (r : Refused) → result ≡ Status.ScriptRefused r →
        IfSome (S.left source.old) (λ script. IsRefused script r) }
    ensures too_long { result ≡ Status.TooLong →
        IfSome (S.left source.old) (λ script. MOST_SCRIPT_BYTES < length script) }
    ensures whole { HasRead result → IfSome (S.left source.old) (λ script.
        (length script ≤ MOST_SCRIPT_BYTES) × (S.left source.new ≡ Some [])) }
    ensures not_built { (line : ℕ) → result ≢ Status.NotBuilt line }
    ensures meaning { HasRun result → IfSome (S.left source.old) HasMeaning }
    ensures complete { IfSome (S.left source.old) (λ script.
        length script ≤ MOST_SCRIPT_BYTES → HasMeaning script →
        IsAnswered result (Rose (S.faults source.old) (S.faults source.new))
        (Rose (K.faults sink.old) (K.faults sink.new))) }
{
    let script = match read_all(alloc, source, MOST_SCRIPT_BYTES) {
        Ok(bytes) => bytes,
        Err(ReadRefused::Fault) => return Status::ReadFault,
        Err(ReadRefused::TooLong) => return Status::TooLong,
        Err(ReadRefused::NoMemory) => return Status::NoMemory,
    };
    let output = match run_named(alloc, script.as_slice(), workers, policy) {
        Ok(output) => output,
        Err(SessionRefused::Script(refused)) => return Status::ScriptRefused(refused),
        Err(SessionRefused::NoMemory) => return Status::NoMemory,
    };
    match write_all(sink, output.as_slice()) {
        Ok(()) => Status::Done,
        Err(_) => Status::WriteFault,
    }
}

/// Runs the session of a script with so many workers, by the policy of this name.
fn run_named(
    alloc: Global,
    script: &[u8],
    workers: u64,
    policy: PolicyName,
) -> Result<Text, SessionRefused>
    requires short { length script.now < 2 ^ 32 - 1 }
    requires some { 1 ≤ workers }
    requires few { workers ≤ 64 }
    ensures output { IfOk result (IsOutput script.now (params_of workers policy)) }
    ensures script { (r : Refused) → result ≡ Err (SessionRefused.Script r) →
        IsRefused script.now r }
{
    match policy {
        PolicyName::Even => {
            let sizes = Policy::new(
                |turn: u64, held: u64| -> u64
                    ensures size { (spent : ℕ) → IsEven turn spent held result }
                    ensures least { 1 ≤ held → 1 ≤ result }
                    ensures most { result ≤ held }
                { even(turn, held) },
            );
            run_script(alloc, script, workers, &sizes)
        }
        PolicyName::Doubling => {
            let sizes = Policy::new(
                |turn: u64, held: u64| -> u64
                    ensures size { (spent : ℕ) → IsDoubling turn spent held result }
                    ensures least { 1 ≤ held → 1 ≤ result }
                    ensures most { result ≤ held }
                { doubling(turn, held) },
            );
            run_script(alloc, script, workers, &sizes)
        }
    }
}
