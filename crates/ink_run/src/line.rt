//! A printed line.
ghost use Rattle.std.specs.Prelude.{◌≡◌, ◌∷◌, ◌++◌, [], OnErr, OnOk};
ghost use Rattle.ink_run.specs.Sinks.{Cuts, Gets, sink_of};

use ink_base::Text;
use ink_devices::{Failed, Sink, write_whole};

/// Writes a text and a line feed, and makes no call after one that failed.
pub(crate) fn write_line<K: Sink>(sink: &mut K, text: &Text) -> Result<(), Failed>
    ensures whole { OnOk result (Gets (sink_of K.contents K.faults sink.old) (sink_of K.contents K.faults sink.new) (text.now ++ 10 ∷ [])) }
    ensures cut { OnErr result (Cuts (sink_of K.contents K.faults sink.old) (sink_of K.contents K.faults sink.new) (text.now ++ 10 ∷ [])) }
{
    write_whole(sink, text.bytes())?;
    write_whole(sink, b"\n")?;
    Ok(())
}
