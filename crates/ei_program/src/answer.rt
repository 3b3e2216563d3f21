// The answering of the terms of an input.
ghost use Rattle.std.specs.Prelude.{◌≡◌, ◌≢◌, ◌≤◌, ◌^◌, ℕ, List, Option, Some};
ghost use Rattle.eq_ports.specs.Causes.{Rose};
ghost use Rattle.symbol_table.specs.Table.{Keeps};
ghost use Rattle.ei_program.specs.declared.stop.Stop.{Stop as WhyStopped};
ghost use Rattle.ei_program.specs.Definitions.{definitions_of};
ghost use Rattle.ei_program.specs.Loading.{IsReady};
ghost use Rattle.ei_program.specs.Outcomes.{CanBeTold};
ghost use Rattle.ei_program.specs.Reading.{IsCounted};
ghost use Rattle.ei_program.specs.Stepping.{WritesText, StepLeft, IsOutcomeAt};
ghost use Rattle.ei_program.specs.Answering.{TextLeft, FileLeft};
ghost use Rattle.ei_program.specs.Run.{LeavesOn};

use crate::line::line_of;
use crate::outcome::Outcome;
use crate::reading::{End, Next, next_term};
use crate::ready::Ready;
use crate::settings::Settings;
use crate::stop::Stop;
use eq_ports::{FileSource, Files, Sink, Source, write_whole};
use std::alloc::Global;
use term_input::{SourceState, Stream};

/// What was done with what comes next in an input.
#[derive(Clone, Copy, Debug, PartialEq, Eq)]
enum Step {
    /// A term was answered, by a line that does not begin with `?`.
    Answer,
    /// A term was answered, by a line that begins with `?`.
    Question,
    /// Nothing, since the input ends.
    End(End),
    /// A term could not be read or answered, or its line not be written.
    Stopped(Stop),
}

/// Writes a line with its end.
fn write_line<O: Sink>(line: &[u8], output: &mut O) -> Step
    ensures written { WritesText line.now (O.taken output.old) (O.taken output.new) result }
    ensures later { O.faults output.old ≤ O.faults output.new }
    ensures write { result ≡ Step.Stopped Stop.WriteFailed
        → Rose (O.faults output.old) (O.faults output.new) }
    ensures steady { result ≢ Step.Stopped Stop.WriteFailed → O.faults output.new ≡ O.faults output.old }
{
    if write_whole(output, line).is_err() {
        return Step::Stopped(Stop::WriteFailed);
    }
    if matches!(line, [b'?', ..]) {
        Step::Question
    } else {
        Step::Answer
    }
}

/// Answers the next term: reads it, reduces it, writes its line, and gives up its bytes, atoms and strings.
fn answer_next<I: Source, O: Sink>(
    alloc: Global,
    ready: &mut Ready,
    settings: &Settings,
    stream: &mut Stream,
    input: &mut I,
    output: &mut O,
) -> Step
    requires ready { IsReady ready.old }
    requires within { stream.old.place ≤ stream.old.limit }
    ensures same { ready.new.regular ≡ ready.old.regular }
    ensures keeps { Keeps ready.old.symbols ready.new.symbols }
    ensures given_up { ((stop : WhyStopped) → result ≢ Step.Stopped stop)
        → ready.new.symbols ≡ ready.old.symbols }
    ensures left { StepLeft settings.now (definitions_of ready.old) stream.old stream.new
        (I.left input.old) (I.left input.new) (O.taken output.old) (O.taken output.new) result }
    ensures count { IsCounted (I.faults input.old) (I.faults input.new) stream.old stream.new }
    ensures through { I.through input.new ≡ I.through input.old }
    ensures output_later { O.faults output.old ≤ O.faults output.new }
    ensures write { result ≡ Step.Stopped Stop.WriteFailed
        → Rose (O.faults output.old) (O.faults output.new) }
    ensures output_steady { result ≢ Step.Stopped Stop.WriteFailed
        → O.faults output.new ≡ O.faults output.old }
{
    let mark = ready.symbols.mark();
    let Ok(next) = next_term(alloc, settings.syntax, &mut ready.symbols, stream, input) else {
        return Step::Stopped(Stop::NoMemory);
    };
    match next {
        Next::Term(term) => {
            let Ok(line) = line_of(alloc, ready, settings, term) else {
                return Step::Stopped(Stop::NoMemory);
            };
            ready.symbols.cut_to(mark);
            write_line(&line, output)
        }
        Next::End(end) => {
            ready.symbols.cut_to(mark);
            Step::End(end)
        }
    }
}

/// The outcome of an input that ends so.
fn outcome_at(end: End, any_question: bool, state: SourceState) -> Outcome
    ensures { IsOutcomeAt state end any_question result }
{
    match (state, end) {
        (SourceState::Failed, _) => Outcome::Stopped(Stop::ReadFailed),
        (_, End::Refused(fault)) => Outcome::TermRefused(fault),
        (_, End::Long) => Outcome::InputLong,
        (_, End::Whole) if any_question => Outcome::Questions,
        (_, End::Whole) => Outcome::Answered,
    }
}

/// Answers the terms of an input, one after another. One of them is held at a time, and its line is written
/// before the next one is read.
pub fn answer_input<I: Source, O: Sink>(
    alloc: Global,
    ready: &mut Ready,
    settings: &Settings,
    input: &mut I,
    output: &mut O,
) -> Outcome
    requires ready { IsReady ready.old }
    requires input_bytes { settings.now.input_bytes ≤ 2 ^ 40 }
    ensures left { (bytes : List ℕ) → I.left input.old ≡ Some bytes
        → LeavesOn (TextLeft settings.now (definitions_of ready.old) bytes (I.left input.new) result)
        (O.taken output.old) (O.taken output.new) }
    ensures same { ready.new.regular ≡ ready.old.regular }
    ensures keeps { Keeps ready.old.symbols ready.new.symbols }
    ensures through { I.through input.new ≡ I.through input.old }
    ensures input_later { I.faults input.old ≤ I.faults input.new }
    ensures read { result ≡ Outcome.Stopped Stop.ReadFailed → Rose (I.faults input.old) (I.faults input.new) }
    ensures input_steady { result ≢ Outcome.Stopped Stop.ReadFailed
        → result ≢ Outcome.Stopped Stop.WriteFailed → result ≢ Outcome.Stopped Stop.NoMemory
        → I.faults input.new ≡ I.faults input.old }
    ensures output_later { O.faults output.old ≤ O.faults output.new }
    ensures write { result ≡ Outcome.Stopped Stop.WriteFailed
        → Rose (O.faults output.old) (O.faults output.new) }
    ensures output_steady { result ≢ Outcome.Stopped Stop.WriteFailed
        → O.faults output.new ≡ O.faults output.old }
    ensures words { result ≢ Outcome.BadWords }
    ensures told { CanBeTold result }
{
    let mut stream = match Stream::new(alloc, settings.input_bytes) {
        Ok(stream) => stream,
        Err(_) => return Outcome::Stopped(Stop::NoMemory),
    };
    let mut any_question = false;
    'terms: loop {
        match answer_next(alloc, ready, settings, &mut stream, input, output) {
            Step::Answer => {}
            Step::Question => any_question = true,
            Step::End(end) => return outcome_at(end, any_question, stream.state()),
            Step::Stopped(stop) => return Outcome::Stopped(stop),
        }
    }
}

/// Answers the terms of the chosen file.
fn answer_chosen<F: Files, O: Sink>(
    alloc: Global,
    ready: &mut Ready,
    settings: &Settings,
    files: &mut F,
    output: &mut O,
) -> Outcome
    requires ready { IsReady ready.old }
    requires input_bytes { settings.now.input_bytes ≤ 2 ^ 40 }
    ensures kept { F.named files.new ≡ F.named files.old }
    ensures left { (bytes : List ℕ) → F.rest files.old ≡ Some bytes
        → LeavesOn (TextLeft settings.now (definitions_of ready.old) bytes (F.rest files.new) result)
        (O.taken output.old) (O.taken output.new) }
    ensures files_later { F.faults files.old ≤ F.faults files.new }
    ensures read { result ≡ Outcome.Stopped Stop.ReadFailed → Rose (F.faults files.old) (F.faults files.new) }
    ensures files_steady { result ≢ Outcome.Stopped Stop.ReadFailed
        → result ≢ Outcome.Stopped Stop.WriteFailed → result ≢ Outcome.Stopped Stop.NoMemory
        → F.faults files.new ≡ F.faults files.old }
    ensures output_later { O.faults output.old ≤ O.faults output.new }
    ensures write { result ≡ Outcome.Stopped Stop.WriteFailed
        → Rose (O.faults output.old) (O.faults output.new) }
    ensures output_steady { result ≢ Outcome.Stopped Stop.WriteFailed
        → O.faults output.new ≡ O.faults output.old }
    ensures words { result ≢ Outcome.BadWords }
    ensures told { CanBeTold result }
{
    let mut source = FileSource::new(files);
    answer_input(alloc, ready, settings, &mut source, output)
}

/// Answers the terms of the named file.
pub fn answer_file<F: Files, O: Sink>(
    alloc: Global,
    ready: &mut Ready,
    settings: &Settings,
    files: &mut F,
    name: &str,
    output: &mut O,
) -> Outcome
    requires ready { IsReady ready.old }
    requires input_bytes { settings.now.input_bytes ≤ 2 ^ 40 }
    ensures kept { F.named files.new ≡ F.named files.old }
    ensures left { (named : List ℕ → Option (List ℕ)) → F.named files.old ≡ Some named
        → LeavesOn
        (FileLeft settings.now (definitions_of ready.old) (named name.now) (F.rest files.new) result)
        (O.taken output.old) (O.taken output.new) }
    ensures files_later { F.faults files.old ≤ F.faults files.new }
    ensures read { result ≡ Outcome.Stopped Stop.ReadFailed → Rose (F.faults files.old) (F.faults files.new) }
    ensures files_steady { result ≢ Outcome.Stopped Stop.ReadFailed
        → result ≢ Outcome.Stopped Stop.WriteFailed → result ≢ Outcome.Stopped Stop.NoMemory
        → F.faults files.new ≡ F.faults files.old }
    ensures output_later { O.faults output.old ≤ O.faults output.new }
    ensures write { result ≡ Outcome.Stopped Stop.WriteFailed
        → Rose (O.faults output.old) (O.faults output.new) }
    ensures output_steady { result ≢ Outcome.Stopped Stop.WriteFailed
        → O.faults output.new ≡ O.faults output.old }
    ensures words { result ≢ Outcome.BadWords }
    ensures told { CanBeTold result }
{
    if files.choose(name).is_err() {
        return Outcome::Stopped(Stop::ReadFailed);
    }
    answer_chosen(alloc, ready, settings, files, output)
}
