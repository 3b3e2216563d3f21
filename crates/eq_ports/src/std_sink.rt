ghost use Rattle.std.specs.Prelude.{◌≡◌, ◌<◌, ◌≤◌, ℕ, None, IfSome, length};

use crate::failed::Failed;
use crate::fault_count::FaultCount;
use crate::sink::Sink;
use std::io::Write;
use std::marker::Model;

/// A writer of std, such as standard output, as a sink. Each write is flushed. Of its bytes nothing is known;
/// contracts see its fault count.
#[derive(Drop)]
pub struct StdSink<W: Write> {
    writer: W,
    faults: FaultCount,
}

impl<W: Write> Model for StdSink<W> {
    ghost use Rattle.std.specs.Prelude.{ℕ};

    ghost Value = { ℕ };

    ghost view = { λ s. s.faults };
}

impl<W: Write> StdSink<W> {
    /// A sink over the writer, which has not failed.
    pub fn new(writer: W) -> StdSink<W>
        ensures { result ≡ 0 }
    {
        StdSink {
            writer,
            faults: FaultCount::new(),
        }
    }
}

/// Writes once and flushes: how many bytes were taken. To take none of some bytes is a failure.
fn write_and_flush<W: Write>(writer: &mut W, piece: &[u8]) -> Option<usize>
    ensures bound { IfSome result (λ n. n ≤ length piece.now) }
    ensures some { IfSome result (λ n. 0 < length piece.now → 0 < n) }
{
    match writer.write(piece) {
        Ok(0) if !piece.is_empty() => None,
        Ok(count) => match writer.flush() {
            Ok(()) => Some(count),
            Err(_) => None,
        },
        Err(_) => None,
    }
}

impl<W: Write> Sink for StdSink<W> {
    ghost taken = { λ _. None };

    ghost faults = { λ s. s };

    fn write(&mut self, piece: &[u8]) -> Result<usize, Failed> {
        match write_and_flush(&mut self.writer, piece) {
            Some(count) => Ok(count),
            None => Err(self.faults.fail()),
        }
    }
}
