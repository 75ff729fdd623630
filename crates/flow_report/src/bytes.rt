//! Bytes that go to a sink.
ghost use Rattle.std.specs.Prelude.{◌≡◌, IsTrue, IsErr};
ghost use Rattle.disk_trait.specs.Faults.{CountsFaults};
ghost use Rattle.flow_report.specs.Writing.{Writes};

use disk_trait::Failed;
use world_io::Sink;

/// Writes all of some bytes.
pub fn write_bytes<S: Sink>(sink: &mut S, bytes: &[u8]) -> Result<(), Failed>
    ensures written { IsTrue S.tells → Writes bytes.now (S.written sink.old) (S.written sink.new) result }
    ensures cause { CountsFaults (S.faults sink.old) (S.faults sink.new) (IsErr result) }
{
    let mut rest = bytes;
    while !rest.is_empty() {
        let count = sink.write(rest)?;
        rest = &rest[count..];
    }
    Ok(())
}
