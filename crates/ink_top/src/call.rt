//! The call of the program: words, what they ask for, what is told of the cause, and the file of the journal.
ghost use Rattle.std.specs.Prelude.{◌≡◌, ◌<◌, option_map};
ghost use Rattle.ink_devices.specs.Outside.{greatest_count};
ghost use Rattle.ink_causes.specs.Causes.{status_of};
ghost use Rattle.ink_causes.specs.Devices.{KeepsFiles, files_of, sink_of};
ghost use Rattle.ink_top.specs.Calls.{Performed};
ghost use Rattle.ink_top.specs.Headline.{IsPromised};
ghost use Rattle.ink_top.specs.Keeping.{Keeps};

use crate::record::{is_kept, record};
use ink_base::{Journal, Text};
use ink_causes::{Cause, tell};
use ink_commands::{Found, Outcome, obey};
use ink_devices::{Files, Gate, Sink};
use ink_law_runs::messages_are_handled_in_order;
use ink_round::print_reads_back;
use ink_words::{read_words, recording};
use std::alloc::Global;
use std::thread::Threads;

/// Reads the words, and does what they ask for.
fn perform<'a, R: Threads + Sync, F: Files, K: Sink + Drop>(
    rt: &R,
    alloc: Global,
    words: &'a [Text],
    files: &mut F,
    out: K,
) -> Found<'a, K>
    requires read_faults { (F.read_faults files.old).count < greatest_count }
    requires faults { K.faults out < greatest_count }
    ensures performed { Performed words.now (record {
      cause = result.outcome.cause;
      name = result.name.now;
      files = record {
        before = files_of F.held F.read_faults F.write_faults files.old;
        after = files_of F.held F.read_faults F.write_faults files.new;
      };
      journal = result.outcome.journal.entries;
      report = result.outcome.report;
      out = record { before = sink_of K.contents K.faults out; after = sink_of K.contents K.faults result.outcome.out };
    }) }
    ensures files { KeepsFiles (record {
      before = files_of F.held F.read_faults F.write_faults files.old;
      after = files_of F.held F.read_faults F.write_faults files.new;
    }) }
{
    match read_words(words) {
        Err(number) => Found {
            outcome: Outcome::without_run(alloc, Cause::Usage(number), out),
            name: b"",
        },
        Ok(order) => obey(rt, alloc, order, files, out),
    }
}

/// Writes the journal to the file that is to get it, where there is one and the cause allows it, and gives the cause that
/// then holds.
fn keep<F: Files, E: Sink>(
    alloc: Global,
    cause: Cause,
    recording: Option<&Text>,
    journal: &Journal,
    files: &mut F,
    err: &mut E,
) -> Cause
    requires { (F.write_faults files.old).count < greatest_count }
    ensures { Keeps cause result (option_map (λ f. f.now) recording.entry) journal.now.entries (record {
      before = files_of F.held F.read_faults F.write_faults files.old;
      after = files_of F.held F.read_faults F.write_faults files.new;
    }) (record { before = sink_of E.contents E.faults err.old; after = sink_of E.contents E.faults err.new }) }
{
    match recording {
        None => cause,
        Some(file) => {
            if is_kept(&cause) {
                record(alloc, cause, file, journal, files, err)
            } else {
                cause
            }
        }
    }
}

/// How a call ended: the exit status, its cause, the journal of the run, and the sink of the output.
#[derive(Drop)]
pub struct Ended<K: Drop> {
    pub status: u8,
    pub cause: Cause,
    pub journal: Journal,
    pub out: K,
}

impl<K: Drop> Ended<K> {
    /// The end for a cause, with its status.
    fn by(cause: Cause, journal: Journal, out: K) -> Ended<K>
        ensures status { result.status ≡ status_of cause }
        ensures cause { result.cause ≡ cause }
        ensures journal { result.journal ≡ journal }
        ensures out { result.out ≡ out }
    {
        Ended {
            status: cause.status(),
            cause,
            journal,
            out,
        }
    }
}

/// Does what the words ask for, without workers: `run FILE`, `check FILE`, `list FILE`, `print FILE`,
/// `replay FILE JOURNAL` or `make NUMBER`, with their options.
///
/// The output goes to `out`. Why the call ended is told on `err`, unless a run came to its end, a module was accepted or a
/// text was written. Then the journal of a run goes to the file that `--record` names, where nothing failed.
pub fn inko_still<R: Threads + Sync, F: Files, K: Sink + Send + Drop, E: Sink>(
    rt: &R,
    alloc: Global,
    words: &[Text],
    files: &mut F,
    out: K,
    err: &mut E,
) -> Ended<K>
    requires read_faults { (F.read_faults files.old).count < greatest_count }
    requires write_faults { (F.write_faults files.old).count < greatest_count }
    requires out_faults { K.faults out < greatest_count }
    requires err_faults { E.faults err.old < greatest_count }
    ensures promise { IsPromised (record {
      words = words.now;
      files = record {
        before = files_of F.held F.read_faults F.write_faults files.old;
        after = files_of F.held F.read_faults F.write_faults files.new;
      };
      out = record { before = sink_of K.contents K.faults out; after = sink_of K.contents K.faults result.out };
      err = record { before = sink_of E.contents E.faults err.old; after = sink_of E.contents E.faults err.new };
      cause = result.cause;
      journal = result.journal.entries;
    }) }
    ensures status { result.status ≡ status_of result.cause }
{
    // Two laws, for the promises on the same module and on the order of messages: they do nothing.
    print_reads_back();
    messages_are_handled_in_order();
    let Found { outcome, name } = perform(rt, alloc, words, files, out);
    let Outcome {
        cause,
        report,
        journal,
        out,
    } = outcome;
    let told = tell(alloc, cause, name, report.bytes(), err);
    let cause = keep(alloc, told, recording(words), &journal, files, err);
    Ended::by(cause, journal, out)
}

/// Does what the words ask for. A run that isn't made in rounds is made by one thread so far, and no worker enters the gate
/// before there are several.
pub fn inko_main<R: Threads + Sync, F: Files, K: Sink + Send + Drop, E: Sink, G: Gate + Sync>(
    rt: &R,
    alloc: Global,
    words: &[Text],
    files: &mut F,
    out: K,
    err: &mut E,
    _gate: &G,
) -> Ended<K>
    requires read_faults { (F.read_faults files.old).count < greatest_count }
    requires write_faults { (F.write_faults files.old).count < greatest_count }
    requires out_faults { K.faults out < greatest_count }
    requires err_faults { E.faults err.old < greatest_count }
    ensures promise { IsPromised (record {
      words = words.now;
      files = record {
        before = files_of F.held F.read_faults F.write_faults files.old;
        after = files_of F.held F.read_faults F.write_faults files.new;
      };
      out = record { before = sink_of K.contents K.faults out; after = sink_of K.contents K.faults result.out };
      err = record { before = sink_of E.contents E.faults err.old; after = sink_of E.contents E.faults err.new };
      cause = result.cause;
      journal = result.journal.entries;
    }) }
    ensures status { result.status ≡ status_of result.cause }
{
    inko_still(rt, alloc, words, files, out, err)
}
