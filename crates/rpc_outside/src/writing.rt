//! Writing a whole piece to a sink that may take it in parts.
ghost use Rattle.rpc_outside.specs.Writing.{Prints};

use crate::failed::Failed;
use crate::sink::Sink;

/// Writes the whole piece, by several writes where the sink takes less. `Failed` comes only where
/// the sink counts one more fault; a front of the piece was then written.
pub fn write_all<K: Sink>(sink: &mut K, piece: &[u8]) -> Result<(), Failed>
    ensures { Prints (K.page sink.old) (K.page sink.new) result piece.now }
{
    let mut rest = piece;
    while !rest.is_empty() {
        let count = sink.write(rest)?;
        rest = &rest[count..];
    }
    Ok(())
}
