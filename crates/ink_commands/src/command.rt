//! The commands, from their files on.
ghost use Rattle.std.specs.Prelude.{◌≡◌, ◌<◌, [], Option};
ghost use Rattle.ink_devices.specs.Outside.{greatest_count};
ghost use Rattle.ink_words.specs.Commands.{Asked, Word, asked_by};
ghost use Rattle.ink_causes.specs.Devices.{KeepsFiles, files_of, sink_of};
ghost use Rattle.ink_commands.specs.Orders.{CodeOfFile, Did, FromFile, ReplayedBytes, ReplayedEntries, deed_of};
ghost use Rattle.ink_commands.specs.Sources.{MadeModule, most_journal};

use crate::outcome::{Found, Outcome};
use crate::reading::{journal_of, read_journal_file, read_source};
use crate::running::{replay_code, run_code};
use crate::verdict::{check_source, code_of};
use crate::writing::{write_listing, write_module, write_print};
use ink_base::{Limits, Text};
use ink_causes::Cause;
use ink_code::Code;
use ink_devices::{Files, Sink};
use ink_words::Order;
use std::alloc::Global;
use std::thread::Threads;

/// Judges a file.
fn check_file<F: Files, K: Sink + Drop>(
    alloc: Global,
    file: &Text,
    limits: &Limits,
    files: &mut F,
    out: K,
) -> Outcome<K>
    requires read_faults { (F.read_faults files.old).count < greatest_count }
    requires faults { K.faults out < greatest_count }
    ensures did { Did (Asked.Checks file.now limits.now) (record {
      cause = result.cause;
      name = file.now;
      files = record {
        before = files_of F.held F.read_faults F.write_faults files.old;
        after = files_of F.held F.read_faults F.write_faults files.new;
      };
      journal = result.journal.entries;
      report = result.report;
      out = record { before = sink_of K.contents K.faults out; after = sink_of K.contents K.faults result.out };
    }) }
    ensures files { KeepsFiles (record {
      before = files_of F.held F.read_faults F.write_faults files.old;
      after = files_of F.held F.read_faults F.write_faults files.new;
    }) }
{
    match read_source(alloc, file, limits, files) {
        Err(cause) => Outcome::without_run(alloc, cause, out),
        Ok(source) => {
            let cause = check_source(alloc, &source, limits);
            Outcome::without_run(alloc, cause, out)
        }
    }
}

/// Writes the canonical print of a file.
fn print_file<F: Files, K: Sink + Drop>(
    alloc: Global,
    file: &Text,
    limits: &Limits,
    files: &mut F,
    mut out: K,
) -> Outcome<K>
    requires read_faults { (F.read_faults files.old).count < greatest_count }
    requires faults { K.faults out < greatest_count }
    ensures did { Did (Asked.Prints file.now limits.now) (record {
      cause = result.cause;
      name = file.now;
      files = record {
        before = files_of F.held F.read_faults F.write_faults files.old;
        after = files_of F.held F.read_faults F.write_faults files.new;
      };
      journal = result.journal.entries;
      report = result.report;
      out = record { before = sink_of K.contents K.faults out; after = sink_of K.contents K.faults result.out };
    }) }
    ensures files { KeepsFiles (record {
      before = files_of F.held F.read_faults F.write_faults files.old;
      after = files_of F.held F.read_faults F.write_faults files.new;
    }) }
{
    match read_source(alloc, file, limits, files) {
        Err(cause) => Outcome::without_run(alloc, cause, out),
        Ok(source) => {
            let cause = write_print(alloc, &source, limits, &mut out);
            Outcome::without_run(alloc, cause, out)
        }
    }
}

/// Writes the listing of the code of a file.
fn list_file<F: Files, K: Sink + Drop>(
    alloc: Global,
    file: &Text,
    limits: &Limits,
    files: &mut F,
    mut out: K,
) -> Outcome<K>
    requires read_faults { (F.read_faults files.old).count < greatest_count }
    requires faults { K.faults out < greatest_count }
    ensures did { Did (Asked.Lists file.now limits.now) (record {
      cause = result.cause;
      name = file.now;
      files = record {
        before = files_of F.held F.read_faults F.write_faults files.old;
        after = files_of F.held F.read_faults F.write_faults files.new;
      };
      journal = result.journal.entries;
      report = result.report;
      out = record { before = sink_of K.contents K.faults out; after = sink_of K.contents K.faults result.out };
    }) }
    ensures files { KeepsFiles (record {
      before = files_of F.held F.read_faults F.write_faults files.old;
      after = files_of F.held F.read_faults F.write_faults files.new;
    }) }
{
    match read_source(alloc, file, limits, files) {
        Err(cause) => Outcome::without_run(alloc, cause, out),
        Ok(source) => {
            let cause = write_listing(alloc, &source, limits, &mut out);
            Outcome::without_run(alloc, cause, out)
        }
    }
}

/// Writes the module that is made for a number.
fn make<K: Sink + Drop>(alloc: Global, number: u32, mut out: K) -> Outcome<K>
    requires { K.faults out < greatest_count }
    ensures made { MadeModule number result.cause (record { before = sink_of K.contents K.faults out; after = sink_of K.contents K.faults result.out }) }
    ensures journal { result.journal.entries ≡ [] }
{
    let cause = write_module(alloc, number, &mut out);
    Outcome::without_run(alloc, cause, out)
}

/// Reads a file, and makes the code of its module where that is accepted.
fn code_of_file<F: Files>(
    alloc: Global,
    file: &Text,
    limits: &Limits,
    files: &mut F,
) -> Result<Code, Cause>
    requires { (F.read_faults files.old).count < greatest_count }
    ensures made { CodeOfFile result file.now limits.now (record {
      before = files_of F.held F.read_faults F.write_faults files.old;
      after = files_of F.held F.read_faults F.write_faults files.new;
    }) }
    ensures files { KeepsFiles (record {
      before = files_of F.held F.read_faults F.write_faults files.old;
      after = files_of F.held F.read_faults F.write_faults files.new;
    }) }
{
    match read_source(alloc, file, limits, files) {
        Err(cause) => Err(cause),
        Ok(source) => code_of(alloc, &source, limits),
    }
}

/// Runs a file.
fn run_file<R: Threads + Sync, F: Files, K: Sink + Drop>(
    rt: &R,
    alloc: Global,
    file: &Text,
    limits: &Limits,
    rounds: Option<u64>,
    files: &mut F,
    out: K,
) -> Outcome<K>
    requires read_faults { (F.read_faults files.old).count < greatest_count }
    requires faults { K.faults out < greatest_count }
    ensures did { (recording : Option Word) → Did (Asked.Runs file.now limits.now rounds recording) (record {
      cause = result.cause;
      name = file.now;
      files = record {
        before = files_of F.held F.read_faults F.write_faults files.old;
        after = files_of F.held F.read_faults F.write_faults files.new;
      };
      journal = result.journal.entries;
      report = result.report;
      out = record { before = sink_of K.contents K.faults out; after = sink_of K.contents K.faults result.out };
    }) }
    ensures files { KeepsFiles (record {
      before = files_of F.held F.read_faults F.write_faults files.old;
      after = files_of F.held F.read_faults F.write_faults files.new;
    }) }
{
    match code_of_file(alloc, file, limits, files) {
        Err(cause) => Outcome::without_run(alloc, cause, out),
        Ok(code) => run_code(rt, alloc, &code, limits, rounds, out),
    }
}

/// What an order came to, with the file that was to be read last.
fn found<K: Drop>(outcome: Outcome<K>, name: &[u8]) -> Found<'_, K>
    ensures outcome { result.outcome ≡ outcome }
    ensures name { result.name.now ≡ name.now }
{
    Found { outcome, name }
}

/// Runs a code as the bytes of a journal's file say.
fn replay_bytes<K: Sink + Drop>(
    alloc: Global,
    code: &Code,
    bytes: &[u8],
    limits: &Limits,
    out: K,
) -> Outcome<K>
    requires { K.faults out < greatest_count }
    ensures { ReplayedBytes code.now limits.now result.cause bytes.now result.journal.entries result.report (record { before = sink_of K.contents K.faults out; after = sink_of K.contents K.faults result.out }) }
{
    match journal_of(alloc, bytes, limits) {
        Err(cause) => Outcome::without_run(alloc, cause, out),
        Ok(entries) => replay_code(alloc, code, limits, &entries, out),
    }
}

/// Runs a file's code as another file says.
fn replay_journal<F: Files, K: Sink + Drop>(
    alloc: Global,
    code: &Code,
    journal: &Text,
    limits: &Limits,
    files: &mut F,
    out: K,
) -> Outcome<K>
    requires read_faults { (F.read_faults files.old).count < greatest_count }
    requires faults { K.faults out < greatest_count }
    ensures did { FromFile journal.now (most_journal limits.now) (ReplayedEntries code.now limits.now (record {
      cause = result.cause;
      name = journal.now;
      files = record {
        before = files_of F.held F.read_faults F.write_faults files.old;
        after = files_of F.held F.read_faults F.write_faults files.new;
      };
      journal = result.journal.entries;
      report = result.report;
      out = record { before = sink_of K.contents K.faults out; after = sink_of K.contents K.faults result.out };
    })) (record {
      cause = result.cause;
      name = journal.now;
      files = record {
        before = files_of F.held F.read_faults F.write_faults files.old;
        after = files_of F.held F.read_faults F.write_faults files.new;
      };
      journal = result.journal.entries;
      report = result.report;
      out = record { before = sink_of K.contents K.faults out; after = sink_of K.contents K.faults result.out };
    }) }
    ensures files { KeepsFiles (record {
      before = files_of F.held F.read_faults F.write_faults files.old;
      after = files_of F.held F.read_faults F.write_faults files.new;
    }) }
{
    match read_journal_file(alloc, journal, limits, files) {
        Err(cause) => Outcome::without_run(alloc, cause, out),
        Ok(bytes) => replay_bytes(alloc, code, &bytes, limits, out),
    }
}

/// Replays a file by the journal of another.
fn replay_file<'a, F: Files, K: Sink + Drop>(
    alloc: Global,
    file: &'a Text,
    journal: &'a Text,
    limits: &Limits,
    files: &mut F,
    out: K,
) -> Found<'a, K>
    requires read_faults { (F.read_faults files.old).count < greatest_count }
    requires faults { K.faults out < greatest_count }
    ensures did { Did (Asked.Replays file.now journal.now limits.now) (record {
      cause = result.outcome.cause;
      name = result.name.now;
      files = record {
        before = files_of F.held F.read_faults F.write_faults files.old;
        after = files_of F.held F.read_faults F.write_faults files.new;
      };
      journal = result.outcome.journal.entries;
      report = result.outcome.report;
      out = record { before = sink_of K.contents K.faults out; after = sink_of K.contents K.faults result.outcome.out };
    }) }
    ensures files { KeepsFiles (record {
      before = files_of F.held F.read_faults F.write_faults files.old;
      after = files_of F.held F.read_faults F.write_faults files.new;
    }) }
{
    match code_of_file(alloc, file, limits, files) {
        Err(cause) => found(Outcome::without_run(alloc, cause, out), file.bytes()),
        Ok(code) => {
            let outcome = replay_journal(alloc, &code, journal, limits, files, out);
            found(outcome, journal.bytes())
        }
    }
}

/// Does what an order asks for.
pub fn obey<'a, R: Threads + Sync, F: Files, K: Sink + Drop>(
    rt: &R,
    alloc: Global,
    order: Order<'a>,
    files: &mut F,
    out: K,
) -> Found<'a, K>
    requires read_faults { (F.read_faults files.old).count < greatest_count }
    requires faults { K.faults out < greatest_count }
    ensures did { Did (asked_by order.entry) (deed_of result.outcome.cause result.name.now (record { before = files_of F.held F.read_faults F.write_faults files.old; after = files_of F.held F.read_faults F.write_faults files.new }) result.outcome.journal.entries result.outcome.report (record { before = sink_of K.contents K.faults out; after = sink_of K.contents K.faults result.outcome.out })) }
    ensures files { KeepsFiles (record { before = files_of F.held F.read_faults F.write_faults files.old; after = files_of F.held F.read_faults F.write_faults files.new }) }
{
    match order {
        Order::Run {
            file,
            limits,
            rounds,
            ..
        } => found(
            run_file(rt, alloc, file, &limits, rounds, files, out),
            file.bytes(),
        ),
        Order::Check { file, limits } => {
            found(check_file(alloc, file, &limits, files, out), file.bytes())
        }
        Order::List { file, limits } => {
            found(list_file(alloc, file, &limits, files, out), file.bytes())
        }
        Order::Print { file, limits } => {
            found(print_file(alloc, file, &limits, files, out), file.bytes())
        }
        Order::Replay {
            file,
            journal,
            limits,
        } => replay_file(alloc, file, journal, &limits, files, out),
        Order::Make(number) => found(make(alloc, number, out), b""),
    }
}
