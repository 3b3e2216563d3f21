// The run: the words, the definitions file, and then the mode.
ghost use Rattle.std.specs.Prelude.{◌≡◌, ◌≢◌, ◌⊎◌, ◌≤◌, ◌↔◌, ℕ, List, [], Option, Some, map, string_bytes};
ghost use Rattle.eq_ports.specs.Causes.{Rose};
ghost use Rattle.command_line.specs.declared.task.Task.{Task as AskedTask};
ghost use Rattle.command_line.specs.Asked.{Asks, IsCommandLine};
ghost use Rattle.ei_program.specs.Definitions.{definitions_of};
ghost use Rattle.ei_program.specs.Outcomes.{CanBeTold};
ghost use Rattle.ei_program.specs.Checking.{IsChecked};
ghost use Rattle.ei_program.specs.Run.{settings_of, Leaves, LeavesOn};

use crate::answer::{answer_file, answer_input};
use crate::loading::load;
use crate::outcome::Outcome;
use crate::ready::Ready;
use crate::settings::Settings;
use crate::stop::Stop;
use command_line::{Mode, Task, read_words};
use eq_ports::{Files, Sink, Source, write_whole};
use std::alloc::Global;

/// The most bytes of an input: 2^40.
const INPUT_BYTES: u64 = 1_099_511_627_776;

/// How terms are read and answered for a task.
fn settings_of(task: Task) -> Settings
    ensures { result ≡ settings_of task }
{
    Settings {
        syntax: task.syntax,
        budget: task.budget,
        most: task.most,
        input_bytes: INPUT_BYTES,
    }
}

/// Tells on the output that a file is accepted, and how many equations it gives.
fn tell_accepted<O: Sink>(alloc: Global, ready: &Ready, output: &mut O) -> Outcome
    ensures left { LeavesOn (IsChecked (definitions_of ready.now) result)
        (O.taken output.old) (O.taken output.new) }
    ensures no_read { result ≢ Outcome.Stopped Stop.ReadFailed }
    ensures output_later { O.faults output.old ≤ O.faults output.new }
    ensures write { result ≡ Outcome.Stopped Stop.WriteFailed
        → Rose (O.faults output.old) (O.faults output.new) }
    ensures output_steady { result ≢ Outcome.Stopped Stop.WriteFailed
        → O.faults output.new ≡ O.faults output.old }
    ensures words { result ≢ Outcome.BadWords }
    ensures told { CanBeTold result }
{
    let count = ready.regular.rules().len();
    let Ok(line) = format!(in alloc; "accepted {count}\n") else {
        return Outcome::Stopped(Stop::NoMemory);
    };
    match write_whole(output, line.as_bytes()) {
        Ok(()) => Outcome::Answered,
        Err(_) => Outcome::Stopped(Stop::WriteFailed),
    }
}

/// Reads the words and the definitions file, and does what the mode says.
pub fn run<F: Files, I: Source, O: Sink>(
    alloc: Global,
    words: &[String],
    files: &mut F,
    input: &mut I,
    output: &mut O,
) -> Outcome
    ensures left { (named : List ℕ → Option (List ℕ)) (bytes : List ℕ) → F.named files.old ≡ Some named
        → I.left input.old ≡ Some bytes
        → LeavesOn
        (Leaves (record { words = map string_bytes words.now; named = named; input = bytes })
        (F.rest files.new) (I.left input.new) result)
        (O.taken output.old) (O.taken output.new) }
    ensures whole { (named : List ℕ → Option (List ℕ)) (task : AskedTask) (file terms : List ℕ)
        → F.named files.old ≡ Some named → Asks (map string_bytes words.now) task file (Some terms)
        → (result ≡ Outcome.Answered) ⊎ (result ≡ Outcome.Questions) → F.rest files.new ≡ Some [] }
    ensures words { (result ≡ Outcome.BadWords) ↔ (¬ IsCommandLine (map string_bytes words.now)) }
    ensures told { CanBeTold result }
    ensures files_later { F.faults files.old ≤ F.faults files.new }
    ensures input_later { I.faults input.old ≤ I.faults input.new }
    ensures output_later { O.faults output.old ≤ O.faults output.new }
    ensures read { result ≡ Outcome.Stopped Stop.ReadFailed → Rose (F.faults files.old) (F.faults files.new)
        ⊎ Rose (I.faults input.old) (I.faults input.new) }
    ensures write { result ≡ Outcome.Stopped Stop.WriteFailed
        → Rose (O.faults output.old) (O.faults output.new) }
    ensures files_steady { result ≢ Outcome.Stopped Stop.ReadFailed
        → result ≢ Outcome.Stopped Stop.WriteFailed → result ≢ Outcome.Stopped Stop.NoMemory
        → F.faults files.new ≡ F.faults files.old }
    ensures input_steady { result ≢ Outcome.Stopped Stop.ReadFailed
        → result ≢ Outcome.Stopped Stop.WriteFailed → result ≢ Outcome.Stopped Stop.NoMemory
        → I.faults input.new ≡ I.faults input.old }
    ensures output_steady { result ≢ Outcome.Stopped Stop.WriteFailed
        → O.faults output.new ≡ O.faults output.old }
{
    let Some(asked) = read_words(words) else {
        return Outcome::BadWords;
    };
    match load(alloc, asked.task.syntax, files, asked.file) {
        Ok(mut ready) => match asked.task.mode {
            Mode::Answer => {
                let settings = settings_of(asked.task);
                match asked.terms {
                    Some(name) => answer_file(alloc, &mut ready, &settings, files, name, output),
                    None => answer_input(alloc, &mut ready, &settings, input, output),
                }
            }
            Mode::Check => tell_accepted(alloc, &ready, output),
        },
        Err(outcome) => outcome,
    }
}
