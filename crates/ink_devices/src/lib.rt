//! The world outside: files, a sink for bytes, and a gate for workers.
//!
//! They are three traits: `Files`, `Sink` and `Gate`. Their ghost members say what they hold and how often they failed, so
//! that a contract above can speak of both. Beside them stand the adapters: over memory for cases, over real files and
//! streams for the program. What is read and written is bytes; nothing here knows what they mean.
#![tactic(auto)]

mod faults;
mod host;
mod memory;
mod outside;
mod stored;
mod sure;

pub use faults::Faults;
pub use host::{HostFiles, HostSink};
pub use memory::{MemFiles, MemSink};
pub use outside::{Failed, FileFault, Files, Gate, OpenGate, Sink, write_whole};
pub use sure::{SureFiles, SureSink};
