// The top calls: a run, or the answering of terms, and what is told of it.
ghost use Rattle.std.specs.Prelude.{◌≡◌, ◌≢◌, ◌⊎◌, ◌≤◌, ◌^◌, ℕ, List, [], Option, None, Some, map};
ghost use Rattle.std.specs.Prelude.{string_bytes};
ghost use Rattle.eq_ports.specs.Causes.{Rose};
ghost use Rattle.symbol_table.specs.Table.{Keeps};
ghost use Rattle.term_lex.specs.declared.syntax.Syntax.{Syntax};
ghost use Rattle.command_line.specs.declared.task.Task.{Task};
ghost use Rattle.command_line.specs.Asked.{Asks, IsCommandLine};
ghost use Rattle.ei_program.specs.Definitions.{Definitions, Defines, BreaksNone, HasWrittenSteps};
ghost use Rattle.ei_program.specs.Definitions.{definitions_of};
ghost use Rattle.ei_program.specs.Loading.{IsReady};
ghost use Rattle.ei_program.specs.Answering.{AnswersText, TextLeft};
ghost use Rattle.ei_program.specs.Run.{IsDue, Leaves};
ghost use Rattle.ei_program.specs.Telling.{HasOutcome, DoesDue};

use crate::answer::answer_input;
use crate::ready::Ready;
use crate::run::run;
use crate::settings::Settings;
use crate::status::Status;
use crate::telling::tell;
use eq_ports::{Files, Sink, Source};
use std::alloc::Global;

/// Answers the terms of the input by these equations, each by a line on the output. What is refused is told
/// on the errors.
pub fn answer_terms<I: Source, O: Sink, E: Sink>(
    alloc: Global,
    ready: &mut Ready,
    settings: &Settings,
    input: &mut I,
    output: &mut O,
    errors: &mut E,
) -> Status
    requires ready { IsReady ready.old }
    requires input_bytes { settings.now.input_bytes ≤ 2 ^ 40 }
    // What is left of the input, and what stands on the output and the errors, by the status, in every run.
    ensures leaves { (bytes : List ℕ) → I.left input.old ≡ Some bytes
        → HasOutcome (TextLeft settings.now (definitions_of ready.old) bytes (I.left input.new))
        (O.taken output.old) (O.taken output.new) (E.taken errors.old) (E.taken errors.new) result }

    // Where no fault count rose and memory was found, all terms are answered, up to the end of the input's
    // reading.
    ensures exact { (bytes : List ℕ) → I.left input.old ≡ Some bytes
        → (¬ Rose (I.faults input.old) (I.faults input.new))
        → (¬ Rose (O.faults output.old) (O.faults output.new))
        → (¬ Rose (E.faults errors.old) (E.faults errors.new))
        → DoesDue (AnswersText settings.now (definitions_of ready.old) None bytes) bytes (I.left input.new)
        (O.taken output.old) (O.taken output.new) (E.taken errors.old) (E.taken errors.new) result }

    // The equations are as before, and what is declared and included is.
    ensures same { ready.new.regular ≡ ready.old.regular }
    ensures keeps { Keeps ready.old.symbols ready.new.symbols }

    // A failure is told only where a fault count rose.
    ensures read { result ≡ Status.ReadFailed → Rose (I.faults input.old) (I.faults input.new) }
    ensures write { result ≡ Status.WriteFailed → Rose (O.faults output.old) (O.faults output.new)
        ⊎ Rose (E.faults errors.old) (E.faults errors.new) }

    // No failure is passed over: where a count became greater, the status is 7, 8 or 1.
    ensures input_steady { result ≢ Status.ReadFailed → result ≢ Status.WriteFailed → result ≢ Status.NoMemory
        → I.faults input.new ≡ I.faults input.old }
    ensures output_steady { result ≢ Status.WriteFailed → O.faults output.new ≡ O.faults output.old }
    ensures errors_steady { result ≢ Status.WriteFailed → E.faults errors.new ≡ E.faults errors.old }
{
    let outcome = answer_input(alloc, ready, settings, input, output);
    tell(alloc, &outcome, errors)
}

/// Answers terms by the equations of the file that the words name, each by a line on the output: the print of
/// its normal form, or a line that begins with `?`. The terms come from a second file that the words name, or
/// from the input. With `--check` it tells instead how many equations the file gives. What is refused is told
/// on the errors.
pub fn ei<F: Files, I: Source, O: Sink, E: Sink>(
    alloc: Global,
    words: Vec<String>,
    files: &mut F,
    input: &mut I,
    output: &mut O,
    errors: &mut E,
) -> Status
    // What is left of the input, and what stands on the output and the errors, by the status, in every run: a
    // line that does not begin with `?` is the print of the only normal term that is derivable from the term
    // that was read, by the equations that were read.
    ensures leaves { (named : List ℕ → Option (List ℕ)) (bytes : List ℕ) → F.named files.old ≡ Some named
        → I.left input.old ≡ Some bytes
        → HasOutcome
        (Leaves (record { words = map string_bytes words.items; named = named; input = bytes })
        (F.rest files.new) (I.left input.new))
        (O.taken output.old) (O.taken output.new) (E.taken errors.old) (E.taken errors.new) result }

    // Where no fault count rose and memory was found, something is due by the words, the files and the input,
    // which is one thing at most by the law of `one_thing_is_due`, and all of it was done.
    ensures exact { (named : List ℕ → Option (List ℕ)) (bytes : List ℕ) → F.named files.old ≡ Some named
        → I.left input.old ≡ Some bytes
        → (¬ Rose (F.faults files.old) (F.faults files.new))
        → (¬ Rose (I.faults input.old) (I.faults input.new))
        → (¬ Rose (O.faults output.old) (O.faults output.new))
        → (¬ Rose (E.faults errors.old) (E.faults errors.new))
        → DoesDue (IsDue (record { words = map string_bytes words.items; named = named; input = bytes }))
        bytes (I.left input.new) (O.taken output.old) (O.taken output.new)
        (E.taken errors.old) (E.taken errors.new) result }

    // Where all terms of a named file are answered, nothing is left of it.
    ensures whole { (named : List ℕ → Option (List ℕ)) (task : Task) (file terms : List ℕ)
        → F.named files.old ≡ Some named → Asks (map string_bytes words.items) task file (Some terms)
        → (result ≡ Status.Answered) ⊎ (result ≡ Status.Questions) → F.rest files.new ≡ Some [] }

    // By whatever file: the root steps by its equations are exactly the instances of its own items, as they
    // are written.
    ensures steps { (syntax : Syntax) (file : List ℕ) (d : Definitions) → Defines syntax file d
        → BreaksNone d → HasWrittenSteps syntax file d }

    // The words are refused only where they are no command line.
    ensures words { result ≡ Status.Words → ¬ IsCommandLine (map string_bytes words.items) }

    // A failure is told only where a fault count rose.
    ensures read { result ≡ Status.ReadFailed → Rose (F.faults files.old) (F.faults files.new)
        ⊎ Rose (I.faults input.old) (I.faults input.new) }
    ensures write { result ≡ Status.WriteFailed → Rose (O.faults output.old) (O.faults output.new)
        ⊎ Rose (E.faults errors.old) (E.faults errors.new) }

    // No failure is passed over: where a count became greater, the status is 7, 8 or 1.
    ensures files_steady { result ≢ Status.ReadFailed → result ≢ Status.WriteFailed → result ≢ Status.NoMemory
        → F.faults files.new ≡ F.faults files.old }
    ensures input_steady { result ≢ Status.ReadFailed → result ≢ Status.WriteFailed → result ≢ Status.NoMemory
        → I.faults input.new ≡ I.faults input.old }
    ensures output_steady { result ≢ Status.WriteFailed → O.faults output.new ≡ O.faults output.old }
    ensures errors_steady { result ≢ Status.WriteFailed → E.faults errors.new ≡ E.faults errors.old }
{
    let outcome = run(alloc, &words, files, input, output);
    tell(alloc, &outcome, errors)
}
