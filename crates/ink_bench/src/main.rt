//! A program that measures nothing itself: it lets the interpreter make so many steps of a counting loop, and tells to
//! how much the loop counted. The script `bench/steps` takes the time of it.
#![tactic(auto)]

mod counting;

use crate::counting::{a_code, a_process, count_in};
use ink_base::Limits;
use ink_interp::{Stepped, slice};
use std::alloc::AllocGlobal;
use std::rt::Env;
use std::{env, io};

/// The steps that are made where no number is told.
const STEPS: u64 = 1000;

/// How many steps the first word tells.
fn steps(rt: &(impl Env + AllocGlobal)) -> u64 {
    let Ok(words) = env::args(rt) else {
        return STEPS;
    };
    for word in words.skip(1) {
        return word.as_str().parse().unwrap_or(STEPS);
    }
    STEPS
}

fn main(rt: HostRuntime) -> io::Result<()> {
    let turns = steps(&rt);
    let code = a_code(rt.alloc())?;
    let mut process = a_process(rt.alloc())?;
    let came = slice(rt.alloc(), &mut process, &code, &Limits::defaults(), turns);
    match (came, count_in(&process)) {
        (Ok(Stepped::Went), Some(number)) => println!(rt; "{turns} steps counted to {number}"),
        _ => println!(rt; "the loop did not go on"),
    }
}
