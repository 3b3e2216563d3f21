// Reading a source a piece at a time.
ghost use Rattle.std.specs.Prelude.{◌≡◌, ◌≤◌, ◌<◌, length, vec_len, IfOk};
ghost use Rattle.std.specs.Io.KnownBytes.{ReadConsumes};
ghost use Rattle.eq_ports.specs.Causes.{HasCause};

use crate::failed::Failed;
use crate::source::Source;
use std::alloc::{AllocError, Global};

/// The most bytes that one read is given room for.
const PIECE: usize = 65_536;

/// Room for one piece, 64 KiB.
pub fn new_piece(alloc: Global) -> Result<Vec<u8>, AllocError>
    ensures some { IfOk result (λ piece. 0 < vec_len piece) }
{
    let piece = vec![in alloc; 0; PIECE]?;
    Ok(piece)
}

/// Reads into a front of the piece, of `room` bytes: one read of the source. How many bytes were read; none at the
/// end.
pub fn read_some<S: Source>(source: &mut S, piece: &mut [u8], room: usize) -> Result<usize, Failed>
    requires some { 0 < room }
    requires within { room ≤ length piece.old }
    ensures within { IfOk result (λ n. n ≤ room) }
    ensures bytes { ReadConsumes (S.left source.old) (S.left source.new) result piece.new }
    ensures cause { HasCause (S.faults source.old) (S.faults source.new) result }
    ensures through { S.through source.new ≡ S.through source.old }
    ensures len { length piece.new ≡ length piece.old }
{
    source.read(&mut piece[..room])
}
