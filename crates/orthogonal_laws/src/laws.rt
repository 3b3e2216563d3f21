// The laws of rewriting by a well-formed and orthogonal system of rules, each the contract of a function that
// does nothing.
ghost use Rattle.std.specs.Prelude.{◌≡◌, ◌≢◌, ◌⊎◌, ◌↔◌, ℕ, suc, Bool, ◌<◌, ◌≤◌, [], Contains, IsTrue};
ghost use Rattle.std.specs.Prelude.{IsFalse};
ghost use Rattle.eq_base.specs.Tree.{Tree, head_of, Position};
ghost use Rattle.eq_base.specs.Pattern.{IsInstanceOf};
ghost use Rattle.eq_base.specs.Testing.{IsTestedAt};
ghost use Rattle.eq_base.specs.Rewriting.{System, Rule, RootStep, IsRedex, StepAt, IsDerivable, IsNormal};
ghost use Rattle.eq_base.specs.RuleList.{RuleList};
ghost use Rattle.eq_base.specs.Rules.{system_of};
ghost use Rattle.eq_base.specs.ReadHead.{ReadHead};
ghost use Rattle.symbol_table.specs.Table.{Table};
ghost use Rattle.symbol_table.specs.Reading.{read_system};
ghost use Rattle.sequentiality.specs.Regular.{AreRegular};
ghost use Rattle.orthogonal_laws.specs.Orthogonal.{IsLawful};
ghost use Rattle.orthogonal_laws.specs.Strategy.{IsDemanded, IsDemandedRedex, HasNoDemandedRedex, IsNext};
ghost use Rattle.orthogonal_laws.specs.Strategy.{HasNoNext, PlainRun, HasLength, IsOutermost, BudgetAnswers};
ghost use Rattle.orthogonal_laws.specs.Development.{Development, marks, AreRedexes, DevelopsBy, SharedStep};
ghost use Rattle.orthogonal_laws.specs.Development.{IsKept};
ghost use Rattle.orthogonal_laws.specs.Convertible.{IsConvertible};
ghost use Rattle.orthogonal_laws.specs.Addition.{addition};
ghost use Rattle.orthogonal_laws.specs.Operations.{Values, ReadConstants};
ghost use Rattle.orthogonal_laws.specs.Readings.{AreRegularIn};

/// Addition of Peano numerals is well formed and orthogonal, so the conditions of the laws can be met.
pub fn addition_is_orthogonal()
    ensures { IsLawful addition }
{}

/// A root step has one result, whichever rule fits.
pub fn one_result<H>()
    ensures { (system : System H) → IsLawful system
        → (t u v : Tree H) → RootStep system t u → RootStep system t v → u ≡ v }
{}

/// Whether a term is a redex, and whether a position of it is demanded, is decided.
pub fn demand_is_decided<H>()
    ensures redex { (system : System H) → IsLawful system
        → (t : Tree H) → IsRedex system t ⊎ (IsRedex system t → ⊥) }
    ensures position { (system : System H) → IsLawful system
        → (t : Tree H) (q : Position) → IsDemanded system t q ⊎ (IsDemanded system t q → ⊥) }
{}

/// A term has one demanded redex, or has none.
pub fn demanded_redex_is_one<H>()
    ensures found { (system : System H) → IsLawful system
        → (t : Tree H) → HasNoDemandedRedex system t ⊎ ((q : Position) × IsDemandedRedex system t q) }
    ensures apart { (system : System H) → IsLawful system
        → (t : Tree H) (q : Position) → IsDemandedRedex system t q → HasNoDemandedRedex system t → ⊥ }
    ensures one { (system : System H) → IsLawful system
        → (t : Tree H) (p q : Position) → IsDemandedRedex system t p → IsDemandedRedex system t q → p ≡ q }
{}

/// A term without a demanded redex keeps its head, and stays without one, under every development.
pub fn no_demand_stays<H>()
    ensures { (system : System H) → IsLawful system
        → (t u : Tree H) (n : ℕ) → HasNoDemandedRedex system t → Development system t u n
        → (head_of u ≡ head_of t) × HasNoDemandedRedex system u }
{}

/// An instance of a tested part of a left side, other than the whole, has no demanded redex.
pub fn part_without_demand<H>()
    ensures { (system : System H) → IsLawful system
        → (rule : Rule H) → Contains system.rules rule → (q : Position) → q ≢ []
        → (tested : IsTestedAt rule.left q) → (t : Tree H) → IsInstanceOf system.in_class tested.part t
        → HasNoDemandedRedex system t }
{}

/// The next redex lies inside no other one, is there exactly where a term is not normal, and is one.
pub fn next_is_outermost<H>()
    ensures outermost { (system : System H) → IsLawful system
        → (t : Tree H) (q : Position) → IsNext system t q → IsOutermost system t q }
    ensures found { (system : System H) → IsLawful system
        → (t : Tree H) → IsNormal system t ⊎ ((q : Position) × IsNext system t q) }
    ensures redex_left { (system : System H) → IsLawful system
        → (t : Tree H) (q : Position) → IsNext system t q → IsNormal system t → ⊥ }
    ensures none { (system : System H) → IsLawful system
        → (t : Tree H) → HasNoNext system t ↔ IsNormal system t }
    ensures one { (system : System H) → IsLawful system
        → (t : Tree H) (p q : Position) → IsNext system t p → IsNext system t q → p ≡ q }
{}

/// Each set of redexes of a term has its development, and one only, with one weight.
pub fn redexes_develop<H>()
    ensures one { (system : System H) → IsLawful system
        → (t u v : Tree H) (m n : ℕ) (d : Development system t u m) (e : Development system t v n)
        → ((q : Position) → marks d q ≡ marks e q) → (u ≡ v) × (m ≡ n) }
    ensures found { (system : System H) → IsLawful system
        → (t : Tree H) (set : Position → Bool) → AreRedexes system t set → DevelopsBy system t set }
{}

/// A development that does not mark the next redex leaves it in place, by the same rules, and the steps
/// made there are joined by a development.
pub fn next_is_kept<H>()
    ensures { (system : System H) → IsLawful system
        → (t t' u : Tree H) (q : Position) (n : ℕ) → IsNext system t q → StepAt system t q t'
        → (d : Development system t u n) → IsFalse (marks d q) → IsKept system t t' u q }
{}

/// A development that marks the next redex is the step there, followed by a development of a weight
/// smaller by 1.
pub fn next_is_marked<H>()
    ensures { (system : System H) → IsLawful system
        → (t t' u : Tree H) (q : Position) (n : ℕ) → IsNext system t q → StepAt system t q t'
        → (d : Development system t u n) → IsTrue (marks d q) → (m : ℕ) × Development system t' u m
        × (n ≡ suc m) }
{}

/// A term that develops to one whose plain run ends has a plain run that ends alike.
pub fn run_before_development<H>()
    ensures { (system : System H) → IsLawful system
        → (t u v : Tree H) (m n : ℕ) → Development system t u m → HasLength system u n v → (k : ℕ)
        × HasLength system t k v }
{}

/// Where any derivation ends in a normal form, the plain run ends in it, and it is the only one.
pub fn run_finds<H>()
    ensures found { (system : System H) → IsLawful system
        → (t v : Tree H) → IsDerivable system t v → IsNormal system v → (n : ℕ) × HasLength system t n v }
    ensures one_run { (system : System H) → IsLawful system
        → (t u v : Tree H) (m n : ℕ) → HasLength system t m u → HasLength system t n v → (m ≡ n) × (u ≡ v) }
    ensures one_end { (system : System H) → IsLawful system
        → (t u v : Tree H) → IsDerivable system t u → IsNormal system u → IsDerivable system t v
        → IsNormal system v → u ≡ v }
{}

/// With a budget of steps the plain run comes to its end, or leaves a redex after the whole budget; and
/// then its length is not at most the budget.
pub fn budget_answers<H>()
    ensures answered { (system : System H) → IsLawful system
        → (budget : ℕ) (t : Tree H) → BudgetAnswers system t budget }
    ensures spent_right { (system : System H) → IsLawful system
        → (t u v : Tree H) (budget n : ℕ) → PlainRun system t budget u → (IsNormal system u → ⊥)
        → HasLength system t n v → budget < n }
{}

/// A development makes no plain run longer, and a shared step makes it shorter.
pub fn run_after_development<H>()
    ensures developed { (system : System H) → IsLawful system
        → (t u v : Tree H) (m n : ℕ) → Development system t u m → HasLength system t n v → (k : ℕ)
        × HasLength system u k v × (k ≤ n) }
    ensures shared { (system : System H) → IsLawful system
        → (t u v : Tree H) (n : ℕ) → SharedStep system t u → HasLength system t n v → (k : ℕ)
        × HasLength system u k v × (suc k ≤ n) }
{}

/// Two developments of one term have a common development.
pub fn developments_meet<H>()
    ensures { (system : System H) → IsLawful system
        → (t u v : Tree H) (m n : ℕ) → Development system t u m → Development system t v n → (r : Tree H)
        × (k : ℕ) × (l : ℕ) × Development system u r k × Development system v r l }
{}

/// Convertible terms have a common reduct.
pub fn convertible_meet<H>()
    ensures { (system : System H) → IsLawful system
        → (t u : Tree H) → IsConvertible system t u → (v : Tree H) × IsDerivable system t v
        × IsDerivable system u v }
{}

/// Regular equations give a well-formed and orthogonal system, whatever values operations have: these
/// read nothing but constants.
pub fn regular_is_orthogonal()
    ensures constants { (value_of : Values) (rules : RuleList) → AreRegular rules
        → ReadConstants value_of rules }
    ensures lawful { (value_of : Values) (rules : RuleList) → AreRegular rules
        → IsLawful (system_of value_of rules) }
{}

/// Regular equations, as they are read by a table in which their numbers are live, give a well-formed and
/// orthogonal system, with the values of operations.
pub fn read_is_orthogonal()
    ensures { (table : Table) (rules : RuleList) → AreRegularIn table rules
        → IsLawful (read_system table rules) }
{}

/// Where regular equations, as they are read, lead from a term to a normal form, by steps in any order,
/// the plain run ends in it. The length of the plain run and its end are fixed by equations and term, and
/// a term has no second normal form.
pub fn only_normal_form()
    ensures found { (table : Table) (rules : RuleList) → AreRegularIn table rules
        → (t v : Tree ReadHead) → IsDerivable (read_system table rules) t v
        → IsNormal (read_system table rules) v → (n : ℕ)
        × HasLength (read_system table rules) t n v }
    ensures one_run { (table : Table) (rules : RuleList) → AreRegularIn table rules
        → (t u v : Tree ReadHead) (m n : ℕ) → HasLength (read_system table rules) t m u
        → HasLength (read_system table rules) t n v → (m ≡ n) × (u ≡ v) }
    ensures one_end { (table : Table) (rules : RuleList) → AreRegularIn table rules
        → (t u v : Tree ReadHead) → IsDerivable (read_system table rules) t u
        → IsNormal (read_system table rules) u → IsDerivable (read_system table rules) t v
        → IsNormal (read_system table rules) v → u ≡ v }
{}
