//! Writes octets to a sink.
ghost use Rattle.um_driver.specs.Writing.{SinkTakesTextIfOk, CountsWriteFailure};

use um_io::{Failed, Sink};

/// Writes all octets of `piece`, in as many calls as needed; each takes at least one octet. After a failure, the sink has received a prefix
/// of them.
pub fn put_all<K: Sink>(output: &mut K, piece: &[u8]) -> Result<(), Failed>
    ensures taken { SinkTakesTextIfOk (K.taken output.old) (K.taken output.new) result piece.now }
    ensures counted { CountsWriteFailure result (K.faults output.old) (K.faults output.new) }
{
    let mut written = 0;
    while written < piece.len() {
        written += output.put(&piece[written..])?;
    }
    Ok(())
}
