// The laws of a run, each the contract of a function that does nothing.
ghost use Rattle.std.specs.Prelude.{◌≤◌, ℕ, List, None};
ghost use Rattle.eq_base.specs.Tree.{Tree};
ghost use Rattle.eq_base.specs.ReadHead.{ReadHead};
ghost use Rattle.eq_base.specs.Rewriting.{IsDerivable, IsNormal};
ghost use Rattle.symbol_table.specs.Table.{IsFront};
ghost use Rattle.orthogonal_laws.specs.Strategy.{HasLength};
ghost use Rattle.ei_program.specs.declared.settings.Settings.{Settings};
ghost use Rattle.ei_program.specs.Phases.{HasOne};
ghost use Rattle.ei_program.specs.Definitions.{Definitions, system, IsAccepted};
ghost use Rattle.ei_program.specs.Lines.{ReducesTo, PrintsForm, IsFormLine, IsLine, IsQuestion};
ghost use Rattle.ei_program.specs.Done.{Done};
ghost use Rattle.ei_program.specs.Answering.{AnswersText, AnswersFirst};
ghost use Rattle.ei_program.specs.Run.{Given, IsDue, Begins};

/// One thing at most is due of a run. What a run may have written before its end is a front of the lines that
/// are due.
pub fn one_thing_is_due()
    ensures one { (given : Given) → HasOne (IsDue given) }
    ensures begun { (given : Given) (lines : List (List ℕ)) (done : Done) → Begins given lines
        → IsDue given done → IsFront lines done.lines }
{}

/// A text of terms has one answer at most. The lines that answer its first terms are a front of that answer's
/// lines.
pub fn one_answer_is_due()
    ensures one { (settings : Settings) (d : Definitions) → IsAccepted d → (text : List ℕ)
        → HasOne (AnswersText settings d None text) }
    ensures begun { (settings : Settings) (d : Definitions) → IsAccepted d → (text : List ℕ)
        (lines : List (List ℕ)) (done : Done) → AnswersFirst settings d text lines
        → AnswersText settings d None text done → IsFront lines done.lines }
{}

/// A term has one line at most. One that does not begin with `?` is the print of the normal form. Where any
/// derivation ends in a normal form, there is a number, fixed by the equations and the term alone, from which
/// on each budget answers with that form.
pub fn lines_are_right()
    ensures one { (settings : Settings) (d : Definitions) (t : Tree ReadHead) → HasOne (IsLine settings d t) }
    ensures printed { (settings : Settings) (d : Definitions) (t : Tree ReadHead) (line : List ℕ)
        → IsLine settings d t line → ¬ IsQuestion line
        → (form : Tree ReadHead) × ReducesTo settings.budget d t form × PrintsForm settings d form line }
    ensures answered { (settings : Settings) (d : Definitions) (t form : Tree ReadHead) (line : List ℕ)
        → IsDerivable (system d) t form → IsNormal (system d) form → IsLine settings d t line
        → (steps : ℕ) × HasLength (system d) t steps form
        × (steps ≤ settings.budget → IsFormLine settings d form line) }
{}
