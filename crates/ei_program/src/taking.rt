// Taking the bytes of a text, a piece at a time.
ghost use Rattle.std.specs.Prelude.{◌≡◌, ◌≤◌, ◌<◌, ◌^◌, length, vec_len, IfOk};
ghost use Rattle.std.specs.Io.KnownBytes.{ReadConsumes};
ghost use Rattle.eq_ports.specs.Causes.{HasCause};
ghost use Rattle.ei_program.specs.Taking.{IsTakenFrom, IsReadCount};

use eq_base::NoMemory;
use eq_ports::{Source, new_piece, read_some};
use std::alloc::Global;

/// How the taking of a text ended.
#[derive(Clone, Copy, Debug, PartialEq, Eq)]
pub enum Ending {
    /// The text ends with the bytes that were taken.
    Whole,
    /// One byte more than the limit was taken.
    Long,
    /// A read failed.
    Failed,
}

/// The bytes that were taken of a text.
#[derive(Drop)]
pub struct Taken {
    pub bytes: Vec<u8>,
    pub ending: Ending,
}

/// Takes the bytes of a text to its end, to a failed read, or until `limit` bytes and one more were taken.
/// Nothing is read after an end or a failure. Linear in the bytes that are taken.
pub fn take_up_to<S: Source>(alloc: Global, source: &mut S, limit: usize) -> Result<Taken, NoMemory>
    requires { limit ≤ 2 ^ 48 }
    ensures taken { IfOk result (IsTakenFrom limit (S.left source.old) (S.left source.new)) }
    ensures count { IsReadCount (S.faults source.old) (S.faults source.new) result }
    ensures through { S.through source.new ≡ S.through source.old }
{
    let mut bytes = Vec::new(alloc);
    let mut piece = new_piece(alloc)?;
    'pieces: while bytes.len() <= limit {
        let room = piece.len().min(limit + 1 - bytes.len());
        let Ok(count) = read_some(source, &mut piece, room) else {
            return Ok(Taken {
                bytes,
                ending: Ending::Failed,
            });
        };
        if count == 0 {
            return Ok(Taken {
                bytes,
                ending: Ending::Whole,
            });
        }
        bytes.extend_from_slice(&piece[..count])?;
    }
    Ok(Taken {
        bytes,
        ending: Ending::Long,
    })
}
