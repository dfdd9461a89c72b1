//! The program: the words and the devices of the system, one call, and its status.
#![tactic(auto)]

use ink_base::Text;
use ink_devices::{HostFiles, HostSink, OpenGate, write_whole};
use ink_top::inko_main;
use std::alloc::AllocError;
use std::env;
use std::io::ErrorKind;
use std::process::ExitCode;
use std::rt::Env;

/// The status where there is no memory for the words.
const NO_MEMORY: u8 = 5;

/// The words of the command line behind the program's name. Where one of them isn't UTF-8, there are none.
fn words(rt: &(impl Env + AllocGlobal)) -> Result<Vec<Text>, AllocError> {
    let mut words = Vec::new(rt.alloc());
    match env::args(rt) {
        Ok(all) => {
            for word in all.skip(1) {
                words.push(Text::from_bytes(word.into_bytes()))?;
            }
            Ok(words)
        }
        Err(error) if error.kind() == ErrorKind::OutOfMemory => Err(AllocError),
        Err(_) => Ok(words),
    }
}

fn main(rt: HostRuntime) -> ExitCode {
    let mut err = HostSink::new(rt.stderr());
    let Ok(words) = words(&rt) else {
        let _ = write_whole(&mut err, b"out of memory\n");
        return ExitCode::from(NO_MEMORY);
    };
    let mut files = HostFiles::new(&rt);
    let out = HostSink::new(rt.stdout());
    let ended = inko_main(
        &rt,
        rt.alloc(),
        &words,
        &mut files,
        out,
        &mut err,
        &OpenGate,
    );
    ExitCode::from(ended.status)
}
