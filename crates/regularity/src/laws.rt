// What the definitions mean: laws of all patterns, each the contract of a function that does nothing.
ghost use Rattle.std.specs.Prelude.{◌↔◌, ◌<◌, ℕ, List};
ghost use Rattle.eq_base.specs.Tree.{Tree, size, nth_subtree};
ghost use Rattle.eq_base.specs.Pattern.{PatternCell};
ghost use Rattle.eq_base.specs.Meeting.{in_class_of};
ghost use Rattle.eq_base.specs.RuleList.{RuleList};
ghost use Rattle.eq_base.specs.declared.head.Head.{Head};
ghost use Rattle.eq_base.specs.declared.rules.Equation.{Equation};
ghost use Rattle.regularity.specs.Common.{HaveCommon};
ghost use Rattle.regularity.specs.Shared.{LeftSidesHaveHeads, AreCompatible, HaveSharedInstance};
ghost use Rattle.regularity.specs.Violations.{IsListedSingle};
ghost use Rattle.regularity.specs.WellFormed.{AreWellFormed};

/// Two patterns that repeat no variable have a common instance exactly where some term is an instance of both.
pub fn common_instances()
    ensures { (classes : List (List Head)) (p r : Tree (PatternCell Head)) → AreCompatible classes p r
        → HaveCommon (in_class_of classes) p r ↔ HaveSharedInstance classes p r }
{}

/// A part of a left side and a left side of a well-formed list, of equations that break neither RE1 nor RE2, have a
/// common instance exactly where some term is an instance of both.
pub fn common_instances_of_parts()
    ensures { (rules : RuleList) → AreWellFormed rules → LeftSidesHaveHeads rules
        → (n m place : ℕ) (one other : Equation) → IsListedSingle rules n one
        → IsListedSingle rules m other → place < size one.left
        → HaveCommon (in_class_of rules.classes) (nth_subtree one.left place) other.left
        ↔ HaveSharedInstance rules.classes (nth_subtree one.left place) other.left }
{}
