// What is told of an outcome.
ghost use Rattle.std.specs.Prelude.{◌≡◌, ◌≢◌, ◌⊎◌, ◌≤◌};
ghost use Rattle.eq_ports.specs.Causes.{Rose};
ghost use Rattle.ei_program.specs.Outcomes.{told_of, CanBeTold};
ghost use Rattle.ei_program.specs.Telling.{IsWritten, IsToldOn};

use crate::outcome::Outcome;
use crate::status::Status;
use crate::stop::Stop;
use eq_ports::{Sink, write_whole};
use std::alloc::Global;

/// Writes a message to the errors: the status, or that they cannot be written.
fn write_message<E: Sink>(message: &[u8], status: Status, errors: &mut E) -> Status
    ensures written { IsWritten (record { status = status; message = message.now })
        (E.taken errors.old) (E.taken errors.new) result }
    ensures kept { result ≢ Status.WriteFailed → result ≡ status }
    ensures later { E.faults errors.old ≤ E.faults errors.new }
    ensures write { result ≡ Status.WriteFailed → status ≢ Status.WriteFailed
        → Rose (E.faults errors.old) (E.faults errors.new) }
    ensures steady { result ≢ Status.WriteFailed → E.faults errors.new ≡ E.faults errors.old }
{
    match write_whole(errors, message) {
        Ok(()) => status,
        Err(_) => Status::WriteFailed,
    }
}

/// Tells of an outcome on the errors, or that there is no memory to do so.
pub fn tell<E: Sink>(alloc: Global, outcome: &Outcome, errors: &mut E) -> Status
    requires { CanBeTold outcome.now }
    ensures told { IsToldOn (told_of outcome.now) (E.taken errors.old) (E.taken errors.new) result }
    ensures answered { (result ≡ Status.Answered) ⊎ (result ≡ Status.Questions)
        → (outcome.now ≡ Outcome.Answered) ⊎ (outcome.now ≡ Outcome.Questions) }
    ensures words { result ≡ Status.Words → outcome.now ≡ Outcome.BadWords }
    ensures read { result ≡ Status.ReadFailed → outcome.now ≡ Outcome.Stopped Stop.ReadFailed }
    ensures output { outcome.now ≡ Outcome.Stopped Stop.WriteFailed → result ≡ Status.WriteFailed }
    ensures later { E.faults errors.old ≤ E.faults errors.new }
    ensures write { result ≡ Status.WriteFailed → outcome.now ≢ Outcome.Stopped Stop.WriteFailed
        → Rose (E.faults errors.old) (E.faults errors.new) }
    ensures steady { result ≢ Status.WriteFailed → E.faults errors.new ≡ E.faults errors.old }
{
    match outcome.message(alloc) {
        Ok(message) => write_message(message.as_bytes(), outcome.status(), errors),
        Err(_) => write_message(b"ei: no memory\n", Status::NoMemory, errors),
    }
}
