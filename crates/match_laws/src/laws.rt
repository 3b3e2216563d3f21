// What item sets mean: laws of all orthogonal systems of rules, each the contract of a function that does
// nothing.
ghost use Rattle.std.specs.Prelude.{◌≡◌, ◌↔◌, ℕ, List, Option, [], Some};
ghost use Rattle.eq_base.specs.Tree.{Tree, Forest, node, empty, grow, Position, subtree_at};
ghost use Rattle.eq_base.specs.Rewriting.{System};
ghost use Rattle.eq_base.specs.Rules.{system_of};
ghost use Rattle.eq_base.specs.declared.head.Head.{Head};
ghost use Rattle.eq_base.specs.declared.rules.Op.{Op};
ghost use Rattle.eq_base.specs.RuleList.{RuleList};
ghost use Rattle.sequentiality.specs.Regular.{AreRegular};
ghost use Rattle.orthogonal_laws.specs.Orthogonal.{IsWellFormedSystem, IsLawful};
ghost use Rattle.match_laws.specs.Items.{ItemSet, IsCompleted, IsUnmixed, WantsRead};
ghost use Rattle.match_laws.specs.Reading.{KeepArities, IsReached, IsSetAt};
ghost use Rattle.match_laws.specs.Reachable.{IsReachable};
ghost use Rattle.match_laws.specs.Demand.{left_sides, left_sides_of, HasFixedArities, IsDemandedFromAbove, IsCompletedAt};

/// No reachable item set has both a plain variable and a tested cell below the roots.
pub fn sets_are_unmixed<H>()
    ensures { (system : System H) → IsLawful system → (arity : H → ℕ) → HasFixedArities system arity
        → (items : ItemSet) → IsReachable system.in_class (left_sides system) items
        → IsUnmixed (left_sides system) items }
{}

/// While a term is read in preorder and wanted skips are made, the item set at each position is that of the
/// term there, and reachable.
pub fn sets_are_of_terms<H>()
    ensures set { (system : System H) → IsLawful system → (arity : H → ℕ) → HasFixedArities system arity
        → (t : Tree H) → KeepArities arity (grow t empty) → (q : Position) (items : ItemSet)
        → IsReached system.in_class (left_sides system) t [] q items
        → IsSetAt system.in_class (left_sides system) t q items }
    ensures reachable { (system : System H) → (t : Tree H) (q : Position) (items : ItemSet)
        → IsReached system.in_class (left_sides system) t [] q items
        → IsReachable system.in_class (left_sides system) items }
{}

/// The item set of a term at a position wants a read exactly where the position is demanded from one above
/// it.
pub fn reads_are_demanded<H>()
    ensures { (system : System H) (t : Tree H) (q : Position) (items : ItemSet)
        → IsSetAt system.in_class (left_sides system) t q items → WantsRead (left_sides system) items
        ↔ IsDemandedFromAbove system t q }
{}

/// The head at a position completes a left side exactly where the term meets it whole, and the position is
/// the last that it tests.
pub fn completed_are_met<H>()
    ensures { (system : System H) → IsWellFormedSystem system → (arity : H → ℕ) → HasFixedArities system arity
        → (t : Tree H) → KeepArities arity (grow t empty) → (q : Position) (items : ItemSet)
        → IsSetAt system.in_class (left_sides system) t q items → (h : H) (us : Forest H)
        → subtree_at t q ≡ Some (node h us) → (e c : ℕ)
        → IsCompleted system.in_class (left_sides system) items h e c ↔ IsCompletedAt system t q e c }
{}

/// The left sides of regular equations have fixed numbers of arguments, whatever values operations have.
pub fn regular_has_arities()
    ensures lefts { (value_of : Op → Tree Head → Option (Tree Head)) (rules : RuleList)
        → left_sides (system_of value_of rules) ≡ left_sides_of rules }
    ensures arities { (value_of : Op → Tree Head → Option (Tree Head)) (rules : RuleList)
        → (regular : AreRegular rules)
        → HasFixedArities (system_of value_of rules) regular.well_formed.arity }
{}
