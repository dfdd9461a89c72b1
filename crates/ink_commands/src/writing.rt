//! The texts that commands write: a listing, a print and a module that is made.
ghost use Rattle.std.specs.Prelude.{◌≡◌, ◌<◌};
ghost use Rattle.ink_code.specs.Listing.{listing_text};
ghost use Rattle.ink_devices.specs.Outside.{greatest_count};
ghost use Rattle.ink_causes.specs.Devices.{sink_of};
ghost use Rattle.ink_commands.specs.Sources.{WritesText, PrintedSource, ListedSource, MadeModule};

use crate::verdict::code_of;
use ink_base::{JudgeFault, Limits, Text};
use ink_causes::Cause;
use ink_code::listing;
use ink_devices::{Failed, Sink, write_whole};
use ink_generator::make_module;
use ink_round::print_source;
use std::alloc::Global;

/// Writes a text.
fn write_text<K: Sink>(text: &Text, out: &mut K) -> Cause
    requires { K.faults out.old < greatest_count }
    ensures { WritesText text.now result (record { before = sink_of K.contents K.faults out.old; after = sink_of K.contents K.faults out.new }) }
{
    match write_whole(out, text.bytes()) {
        Ok(()) => Cause::Written,
        Err(Failed) => Cause::WriteFault,
    }
}

/// Writes the canonical print of a source, where it is read.
pub fn write_print<K: Sink>(alloc: Global, source: &[u8], limits: &Limits, out: &mut K) -> Cause
    requires { K.faults out.old < greatest_count }
    ensures { PrintedSource limits.now result source.now (record { before = sink_of K.contents K.faults out.old; after = sink_of K.contents K.faults out.new }) }
{
    match print_source(alloc, source, limits) {
        Err(JudgeFault::Refused(refusal)) => Cause::Refused(refusal),
        Err(JudgeFault::OutOfMemory) => Cause::OutOfMemory,
        Ok(text) => write_text(&text, out),
    }
}

/// Writes the listing of the code that is made of a source, where it is accepted.
pub fn write_listing<K: Sink>(alloc: Global, source: &[u8], limits: &Limits, out: &mut K) -> Cause
    requires { K.faults out.old < greatest_count }
    ensures { ListedSource limits.now result source.now (record { before = sink_of K.contents K.faults out.old; after = sink_of K.contents K.faults out.new }) }
{
    match code_of(alloc, source, limits) {
        Err(cause) => cause,
        Ok(code) => match listing(alloc, &code) {
            Err(_) => Cause::OutOfMemory,
            Ok(text) => write_text(&text, out),
        },
    }
}

/// Writes the module that is made for a number.
pub fn write_module<K: Sink>(alloc: Global, number: u32, out: &mut K) -> Cause
    requires { K.faults out.old < greatest_count }
    ensures { MadeModule number result (record { before = sink_of K.contents K.faults out.old; after = sink_of K.contents K.faults out.new }) }
{
    match make_module(alloc, number) {
        Err(_) => Cause::OutOfMemory,
        Ok(text) => write_text(&text, out),
    }
}
