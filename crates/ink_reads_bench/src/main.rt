//! A program that measures nothing itself: it makes a module of so many functions, reads it and prints it, and tells
//! whether the print is the source. Where a second word stands, it only scans the module, and tells how many tokens that
//! has. The script `bench/reads` takes the time and the memory of both.
#![tactic(auto)]

mod making;

use crate::making::{a_source, limits};
use ink_print::print_module;
use ink_reading::read_module;
use ink_tokens::tokens;
use std::alloc::{AllocGlobal, Global};
use std::rt::Env;
use std::{env, io};

/// The functions that are made where no number is told.
const FUNCTIONS: u32 = 10;

/// How long a source may be that is only scanned, so that its places can be counted.
const LONGEST: usize = 0x7fff_ffff;

/// How many functions the first word tells.
fn functions(rt: &(impl Env + AllocGlobal)) -> u32 {
    let Ok(words) = env::args(rt) else {
        return FUNCTIONS;
    };
    for word in words.skip(1) {
        return word.as_str().parse().unwrap_or(FUNCTIONS);
    }
    FUNCTIONS
}

/// Whether the source is only to be scanned.
fn scans_only(rt: &(impl Env + AllocGlobal)) -> bool {
    let Ok(words) = env::args(rt) else {
        return false;
    };
    for _word in words.skip(2) {
        return true;
    }
    false
}

/// How many tokens a source has, and 0 where it isn't scanned.
fn token_count(alloc: Global, source: &[u8]) -> usize {
    if source.len() > LONGEST {
        return 0;
    }
    match tokens(alloc, source) {
        Ok(tokens) => tokens.len(),
        Err(_) => 0,
    }
}

/// Whether a source is read, and printed as it is.
fn prints_as_it_is(alloc: Global, source: &[u8]) -> bool {
    let Ok(limits) = limits() else {
        return false;
    };
    let Ok(reading) = read_module(alloc, source, &limits) else {
        return false;
    };
    match print_module(alloc, source, &reading.module) {
        Ok(text) => text.is(source),
        Err(_) => false,
    }
}

fn main(rt: HostRuntime) -> io::Result<()> {
    let source = a_source(rt.alloc(), functions(&rt))?;
    let size = source.len();
    if scans_only(&rt) {
        let count = token_count(rt.alloc(), &source);
        return println!(rt; "{size} bytes have {count} tokens");
    }
    if prints_as_it_is(rt.alloc(), &source) {
        println!(rt; "{size} bytes print as they are")
    } else {
        println!(rt; "{size} bytes don't print as they are")
    }
}
