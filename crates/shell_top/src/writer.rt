//! Writing all of a text.
ghost use Rattle.std.specs.Prelude.{◌≡◌, ◌≤◌, OnOk, OnErr};
ghost use Rattle.std.specs.Io.KnownBytes.{Appends};
ghost use Rattle.host_io.specs.Fault.{Rose};
ghost use Rattle.shell_top.specs.Printed.{AppendsPart};

use host_io::{Failed, Sink};

/// Writes all of the bytes.
///
/// # Errors
/// `Failed`, where the sink failed; it may then have taken the first of them.
#[tactic(auto, using(crate::proofs::WriterLemmas::writing))]
pub fn write_all<K: Sink>(sink: &mut K, bytes: &[u8]) -> Result<(), Failed>
    ensures ok { OnOk result (Appends (K.written sink.old) (K.written sink.new) bytes.now) }
    ensures part { OnErr result (AppendsPart (K.written sink.old) (K.written sink.new) bytes.now) }
    ensures cause { OnErr result (Rose (K.faults sink.old) (K.faults sink.new)) }
    ensures steady { K.faults sink.old ≤ K.faults sink.new }
{
    let mut rest = bytes;
    'writing: while !rest.is_empty() {
        match sink.write(rest) {
            Ok(count) => rest = rest.split_at(count).1,
            Err(failed) => return Err(failed),
        }
    }
    Ok(())
}
