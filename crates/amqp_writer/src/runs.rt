//! Elements of an array, written in one call.

ghost use Rattle.std.specs.Prelude.{◌≡◌};
ghost use Rattle.amqp_writer.specs.Runs.{AppendsRun, uint_payloads};

use crate::fault::Fault;
use crate::kinds::UINT;
use crate::writer::Writer;

/// Writes the elements of an open array of uints.
pub fn put_uints(out: &mut [u8], writer: &mut Writer, values: &[u32])
    ensures { AppendsRun out.old out.new writer.old writer.new (uint_payloads values.now) }
{
    if writer.element != UINT {
        writer.fail(Fault::Misuse);
    }
    for value in values {
        writer.push(out, &value.to_be_bytes());
    }
    writer.count = writer.count.saturating_add(values.len() as u64);
}
