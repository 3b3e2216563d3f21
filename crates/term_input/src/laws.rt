// The laws of reading an input, each the contract of a function that does nothing.
ghost use Rattle.std.specs.Prelude.{◌≡◌, ℕ, suc, ◌-◌, ◌≤◌, Bool, List, [], ◌++◌, length, take, drop, Result};
ghost use Rattle.std.specs.declared.option.Option.{Option};
ghost use Rattle.eq_base.specs.Tree.{Tree};
ghost use Rattle.eq_base.specs.ReadHead.{ReadHead};
ghost use Rattle.term_lex.specs.declared.fault.Fault.{Fault};
ghost use Rattle.term_lex.specs.declared.syntax.Syntax.{Syntax};
ghost use Rattle.symbol_table.specs.Table.{Table, HasDistinctNames, IsFront};
ghost use Rattle.written_terms.specs.Reading.{ReadsTerm};
ghost use Rattle.def_file.specs.Notations.{notation_of};
ghost use Rattle.term_input.specs.Inputs.{End, IsRead};
ghost use Rattle.term_input.specs.Readers.{IsReader, ReadsBy, EndedBy};
ghost use Rattle.term_input.specs.Streams.{Held, nothing_held, taken_count, Takes, IsTaken};
ghost use Rattle.term_input.specs.TermReading.{ReadsOne, IsReadAs, AreFirst};

/// Each input is read in one way by a reader of one thing. What is read of a front of it is a front of what
/// is read of the whole, and what is read of one byte more than the limit is read of the whole.
pub fn inputs_are_read<A>()
    ensures some { (read_one : List ℕ → Result (A × ℕ) Fault) (ended : List ℕ → Fault → Bool)
        → IsReader (ReadsBy read_one) → (limit : ℕ) (input : List ℕ)
        → (things : List A) × (end : End) × IsRead (ReadsBy read_one) (EndedBy ended) limit input things end }
    ensures one { (read_one : List ℕ → Result (A × ℕ) Fault) (ended : List ℕ → Fault → Bool)
        → IsReader (ReadsBy read_one) → (limit : ℕ) (input : List ℕ) (xs ys : List A) (e f : End)
        → IsRead (ReadsBy read_one) (EndedBy ended) limit input xs e
        → IsRead (ReadsBy read_one) (EndedBy ended) limit input ys f → (xs ≡ ys) × (e ≡ f) }
    ensures front { (read_one : List ℕ → Result (A × ℕ) Fault) (ended : List ℕ → Fault → Bool)
        → IsReader (ReadsBy read_one) → (limit : ℕ) (taken rest : List ℕ) (xs ys : List A) (e f : End)
        → IsRead (ReadsBy read_one) (EndedBy ended) limit taken xs e
        → IsRead (ReadsBy read_one) (EndedBy ended) limit (taken ++ rest) ys f → IsFront xs ys }
    ensures taken { (read_one : List ℕ → Result (A × ℕ) Fault) (ended : List ℕ → Fault → Bool)
        → (limit : ℕ) (input : List ℕ) (things : List A) (end : End)
        → IsRead (ReadsBy read_one) (EndedBy ended) limit (take (suc limit) input) things end
        → IsRead (ReadsBy read_one) (EndedBy ended) limit input things end }
{}

/// A term and its dot are read alike where a text goes on behind the dot.
pub fn terms_stay()
    ensures { (syntax : Syntax) (names : Table) (text more : List ℕ) (at : ℕ) (t : Tree ReadHead) (end : ℕ)
        → at ≤ length text → ReadsTerm (notation_of syntax) names text at t end
        → ReadsTerm (notation_of syntax) names (text ++ more) at t end }
{}

/// Reading a term is reading one thing, as the laws of inputs ask for it.
pub fn terms_are_read()
    ensures { (syntax : Syntax) (names : Table) → HasDistinctNames names → IsReader (ReadsOne syntax names) }
{}

/// An input is read as terms in one way at most. Its first terms are a front of all; what is read of a front
/// of it is a front of what is read of the whole; and what is read of one byte more than the limit is read of
/// the whole.
pub fn inputs_hold_terms()
    ensures one { (syntax : Syntax) (names : Table) → HasDistinctNames names → (limit : ℕ) (input : List ℕ)
        (xs ys : List (Tree ReadHead)) (e f : End) → IsReadAs syntax names limit input xs e
        → IsReadAs syntax names limit input ys f → (xs ≡ ys) × (e ≡ f) }
    ensures first { (syntax : Syntax) (names : Table) → HasDistinctNames names → (limit : ℕ) (input : List ℕ)
        (xs ys : List (Tree ReadHead)) (last : ℕ) (f : End) → AreFirst syntax names limit input xs last
        → IsReadAs syntax names limit input ys f → IsFront xs ys }
    ensures front { (syntax : Syntax) (names : Table) → HasDistinctNames names → (limit : ℕ)
        (taken rest : List ℕ) (xs ys : List (Tree ReadHead)) (e f : End)
        → IsReadAs syntax names limit taken xs e → IsReadAs syntax names limit (taken ++ rest) ys f
        → IsFront xs ys }
    ensures taken { (syntax : Syntax) (names : Table) (limit : ℕ) (input : List ℕ) (xs : List (Tree ReadHead))
        (end : End) → IsReadAs syntax names limit (take (suc limit) input) xs end
        → IsReadAs syntax names limit input xs end }
{}

/// What a stream holds is what was taken and not given up.
pub fn streams_hold_the_rest()
    ensures begun { (left : Option (List ℕ)) (limit : ℕ) → IsTaken left left [] (nothing_held limit) }
    ensures more { (before mid left : Option (List ℕ)) (taken : List ℕ) (old new : Held)
        → IsTaken before mid taken old → Takes mid left old new
        → (more : List ℕ) × IsTaken before left (taken ++ more) new }
    ensures given_up { (before left : Option (List ℕ)) (taken : List ℕ) (held : Held) (place : ℕ)
        → IsTaken before left taken held → held.place ≤ place → place ≤ taken_count held
        → IsTaken before left taken
        (record held { bytes = drop (place - held.place) held.bytes; place = place }) }
{}
