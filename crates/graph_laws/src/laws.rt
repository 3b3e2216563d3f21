// The laws of rewriting on a shared graph: each is the contract of a function that does nothing.
ghost use Rattle.std.specs.Prelude.{◌≡◌, ◌≢◌, ◌↔◌, ℕ, suc, ◌*◌, List, [], Some, None, Contains, length, slice_get, ◌+◌, ◌<◌, ◌≤◌};
ghost use Rattle.eq_base.specs.Tree.{Tree, node, empty, head_of, Position, subtree_at};
ghost use Rattle.eq_base.specs.Pattern.{IsInstanceOf};
ghost use Rattle.eq_base.specs.Testing.{IsTestedAt};
ghost use Rattle.eq_base.specs.ReadHead.{ReadHead};
ghost use Rattle.eq_base.specs.Operations.{value_of};
ghost use Rattle.eq_base.specs.Rewriting.{System, Rule, IsRedexBy, IsRedex, IsDerivable, IsNormal};
ghost use Rattle.orthogonal_laws.specs.Orthogonal.{IsOrthogonal, IsLawful};
ghost use Rattle.orthogonal_laws.specs.Strategy.{HasNoDemandedRedex, IsNext, HasLength};
ghost use Rattle.orthogonal_laws.specs.Development.{Development, SharedStep};
ghost use Rattle.graph_laws.specs.Numbered.{Numbered, plain, root_number, AreShared};
ghost use Rattle.graph_laws.specs.Runs.{IsReplaced, ReplacementList, GraphRun};
ghost use Rattle.graph_laws.specs.Rewritten.{HasNumber, IsRewritten, DevelopsAt, IsSameNode};
ghost use Rattle.graph_laws.specs.SharedRuns.{SharedRun, StandsFor, GraphEnds, GraphLeaves, IsOnlyNormalForm, HaveConstantValues};
ghost use Rattle.graph_laws.specs.Answers.{IsAnswer, MakeAtMost};
ghost use Rattle.orthogonal_laws.specs.Addition.{addition};
ghost use Rattle.graph_laws.specs.Sample.{sample_trees, sample_after};
ghost use Rattle.graph_laws.specs.Alike.{AreAlike};
ghost use Rattle.graph_laws.specs.Entries.{nodes_of, entries_of, list_entries};

/// The example of addition: its store is shared, and its graph run ends after one replacement, by a right
/// side that is a variable. So the conditions of the laws can be met.
pub fn sample_runs()
    ensures shared { AreShared sample_trees }
    ensures ends { GraphEnds addition 0 sample_trees 1 sample_after (node 0 empty) }
{}

/// The replacement of a node is one root step at all parts with its number, in every tree of the store: a
/// development of these positions, a derivation, and a shared step where the next redex is one of them.
pub fn replacement_is_one_step<H>()
    ensures rewritten { (system : System H) (trees after : List (Numbered H)) (n i : ℕ) (t : Numbered H)
        → AreShared trees → IsReplaced system n trees after → slice_get trees i ≡ Some t → (u : Numbered H)
        × (slice_get after i ≡ Some u) × IsRewritten system n t u }
    ensures developed { (system : System H) (n : ℕ) (t u : Numbered H) → IsRewritten system n t u
        → DevelopsAt system n t u }
    ensures derivable { (system : System H) (n : ℕ) (t u : Numbered H) → IsRewritten system n t u
        → IsDerivable system (plain t) (plain u) }
    ensures shared { (system : System H) (n : ℕ) (t u : Numbered H) (q : Position) → IsRewritten system n t u
        → IsNext system (plain t) q → HasNumber t q n → SharedStep system (plain t) (plain u) }
{}

/// After a replacement a number still has one part wherever it stands, and the store is fixed by the node.
pub fn replacement_keeps_shared<H>()
    ensures shared { (system : System H) → IsLawful system → (trees after : List (Numbered H)) (n : ℕ)
        → AreShared trees → IsReplaced system n trees after → AreShared after }
    ensures one { (system : System H) → IsOrthogonal system → (n : ℕ) (trees after others : List (Numbered H))
        → IsReplaced system n trees after → IsReplaced system n trees others → after ≡ others }
{}

/// A run of shared steps is a derivation. It makes the plain run shorter by as many steps at least; where it
/// leaves a redex, the plain run is longer.
pub fn shared_runs<H>()
    ensures derivable { (system : System H) → IsLawful system → (t u : Tree H) (n : ℕ)
        → SharedRun system t n u → IsDerivable system t u }
    ensures shorter { (system : System H) → IsLawful system → (t u v : Tree H) (n m : ℕ)
        → SharedRun system t n u → HasLength system t m v → (k : ℕ) × HasLength system u k v × (n + k ≤ m) }
    ensures longer { (system : System H) → IsLawful system → (t u v : Tree H) (n m : ℕ)
        → SharedRun system t n u → (IsNormal system u → ⊥) → HasLength system t m v → n < m }
{}

/// The graph run is a run of shared steps of the root's term, and keeps the trees shared.
pub fn graph_run_shares<H>()
    ensures run { (system : System H) → IsLawful system
        → (trees after : List (Numbered H)) (root n : ℕ) (t : Numbered H) → AreShared trees
        → slice_get trees root ≡ Some t → GraphRun system root trees n after → (u : Tree H)
        × StandsFor after root u × SharedRun system (plain t) n u }
    ensures shared { (system : System H) → IsLawful system
        → (trees after : List (Numbered H)) (root n : ℕ) (t : Numbered H) → AreShared trees
        → slice_get trees root ≡ Some t → GraphRun system root trees n after → AreShared after }
{}

/// The graph run is one: so many replacements lead to one store, it ends once, and within a larger budget it
/// leaves no redex.
pub fn graph_run_is_one<H>()
    ensures one { (system : System H) → IsLawful system
        → (root n : ℕ) (trees after others : List (Numbered H)) → GraphRun system root trees n after
        → GraphRun system root trees n others → after ≡ others }
    ensures one_end { (system : System H) → IsLawful system
        → (root m n : ℕ) (trees after others : List (Numbered H)) (u v : Tree H)
        → GraphEnds system root trees m after u → GraphEnds system root trees n others v → (m ≡ n)
        × (after ≡ others) × (u ≡ v) }
    ensures apart { (system : System H) → IsLawful system
        → (root n budget : ℕ) (trees after others : List (Numbered H)) (u v : Tree H)
        → GraphEnds system root trees n after v → n ≤ budget → GraphLeaves system root trees budget others u
        → ⊥ }
{}

/// Where the graph run ends, it ends in the only normal form, and the plain run is at least as long.
/// Where it leaves a redex, so many shared steps were made, and the plain run is longer.
/// Where the plain run ends, the graph run ends too, after at most as many replacements.
pub fn graph_run_answers<H>()
    ensures found { (system : System H) → IsLawful system → HaveConstantValues system
        → (trees : List (Numbered H)) (root m : ℕ) (t : Numbered H) (v : Tree H) → AreShared trees
        → slice_get trees root ≡ Some t → HasLength system (plain t) m v → (n : ℕ)
        × (after : List (Numbered H)) × GraphEnds system root trees n after v × (n ≤ m) }
    ensures normal { (system : System H) → IsLawful system
        → (trees after : List (Numbered H)) (root n : ℕ) (t : Numbered H) (v : Tree H) → AreShared trees
        → slice_get trees root ≡ Some t → GraphEnds system root trees n after v
        → IsOnlyNormalForm system (plain t) n v }
    ensures spent { (system : System H) → IsLawful system
        → (trees after : List (Numbered H)) (root n : ℕ) (t : Numbered H) (u : Tree H) → AreShared trees
        → slice_get trees root ≡ Some t → GraphLeaves system root trees n after u
        → SharedRun system (plain t) n u × ((v : Tree H) (m : ℕ) → HasLength system (plain t) m v → n < m) }
{}

/// An instance of a tested part of a left side, other than the whole, stays one under every development.
pub fn part_stays<H>()
    ensures { (system : System H) → IsLawful system → (rule : Rule H) → Contains system.rules rule
        → (q : Position) → q ≢ [] → (tested : IsTestedAt rule.left q) → (t u : Tree H) (n : ℕ)
        → IsInstanceOf system.in_class tested.part t → Development system t u n
        → IsInstanceOf system.in_class tested.part u }
{}

/// What a scan has found of a node stays under the replacement of any node. Another node keeps its head and
/// its number, and its arguments follow theirs; a node that stands for a normal form keeps its whole tree; one
/// without a demanded redex stays without one; one that is an instance of a tested part stays one; and another
/// redex stays one, by the same rules.
pub fn scanned_nodes_stay<H>()
    ensures other { (system : System H) (trees after : List (Numbered H)) (n i : ℕ) (t : Numbered H)
        → AreShared trees → IsReplaced system n trees after → slice_get trees i ≡ Some t → root_number t ≢ n
        → (u : Numbered H) × (slice_get after i ≡ Some u) × IsSameNode after t u }
    ensures normal { (system : System H) (trees after : List (Numbered H)) (n i : ℕ) (t : Numbered H)
        → AreShared trees → IsReplaced system n trees after → slice_get trees i ≡ Some t
        → IsNormal system (plain t) → slice_get after i ≡ Some t }
    ensures no_demand { (system : System H) → IsLawful system
        → (trees after : List (Numbered H)) (n i : ℕ) (t : Numbered H) → AreShared trees
        → IsReplaced system n trees after → slice_get trees i ≡ Some t → HasNoDemandedRedex system (plain t)
        → (u : Numbered H) × (slice_get after i ≡ Some u) × IsSameNode after t u
        × HasNoDemandedRedex system (plain u) }
    ensures part { (system : System H) → IsLawful system → (rule : Rule H) → Contains system.rules rule
        → (q : Position) → q ≢ [] → (tested : IsTestedAt rule.left q)
        → (trees after : List (Numbered H)) (n i : ℕ) (t : Numbered H) → AreShared trees
        → IsReplaced system n trees after → slice_get trees i ≡ Some t
        → IsInstanceOf system.in_class tested.part (plain t) → (u : Numbered H) × (slice_get after i ≡ Some u)
        × IsInstanceOf system.in_class tested.part (plain u) }
    ensures redex { (system : System H) → IsLawful system
        → (trees after : List (Numbered H)) (n i : ℕ) (t : Numbered H) → AreShared trees
        → IsReplaced system n trees after → slice_get trees i ≡ Some t → root_number t ≢ n
        → IsRedex system (plain t) → (u : Numbered H) × (slice_get after i ≡ Some u)
        × ((number : ℕ) → IsRedexBy system number (plain t) ↔ IsRedexBy system number (plain u)) }
{}

/// The replacements of a graph run are a replacement list, with the same rules, that leads to the same store.
/// A replacement list leads to one store, in which a number has one part and each node stands for what is
/// derivable from what it stood for.
pub fn replacement_lists<H>()
    ensures run { (system : System H) (trees after : List (Numbered H)) (root n : ℕ)
        (run : GraphRun system root trees n after)
        → (list : ReplacementList system trees (nodes_of run) after) × (list_entries list ≡ entries_of run)
        × (length (nodes_of run) ≡ n) }
    ensures one { (system : System H) → IsOrthogonal system
        → (trees after others : List (Numbered H)) (ns : List ℕ) → ReplacementList system trees ns after
        → ReplacementList system trees ns others → after ≡ others }
    ensures shared { (system : System H) → IsLawful system
        → (trees after : List (Numbered H)) (ns : List ℕ) (i : ℕ) (t : Numbered H) → AreShared trees
        → slice_get trees i ≡ Some t → ReplacementList system trees ns after → AreShared after }
    ensures derivable { (system : System H) → IsLawful system
        → (trees after : List (Numbered H)) (ns : List ℕ) (i : ℕ) (t : Numbered H) → AreShared trees
        → slice_get trees i ≡ Some t → ReplacementList system trees ns after → (u : Tree H)
        × StandsFor after i u × IsDerivable system (plain t) u }
{}

/// The values of operations are constants, whatever the rules and the classes.
pub fn values_are_constant()
    ensures { (system : System ReadHead) → system.value_of ≡ value_of → HaveConstantValues system }
{}

/// With a budget, the graph run answers exactly as it ends; and a store grows by no more than the largest
/// right side for each replacement.
pub fn graph_run_with_budget<H>()
    ensures normal { (system : System H) → IsLawful system
        → (root budget n : ℕ) (trees after : List (Numbered H)) (v : Tree H)
        → GraphEnds system root trees n after v → n ≤ budget
        → IsAnswer system root budget trees after (Some n) }
    ensures spent { (system : System H) → IsLawful system
        → (root budget : ℕ) (trees after : List (Numbered H)) (u : Tree H)
        → GraphLeaves system root trees budget after u → IsAnswer system root budget trees after None }
    ensures grows { (system : System H) (largest : ℕ) → MakeAtMost system largest
        → (root n : ℕ) (trees after : List (Numbered H)) → GraphRun system root trees n after
        → length after ≤ length trees + n * largest }
{}

/// A node that is matched at a tested position of a redex, other than its root, has no demanded redex, and so
/// no root step, and has none after any replacement list.
pub fn matched_nodes_rest<H>()
    ensures { (system : System H) → IsLawful system → (rule : Rule H) → Contains system.rules rule
        → (q : Position) → q ≢ [] → IsTestedAt rule.left q
        → (trees after : List (Numbered H)) (ns : List ℕ) (i : ℕ) (t part : Numbered H) → AreShared trees
        → slice_get trees i ≡ Some t → IsInstanceOf system.in_class rule.left (plain t)
        → subtree_at t q ≡ Some part → ReplacementList system trees ns after → (u : Numbered H)
        × (slice_get after (root_number part) ≡ Some u) × (head_of u ≡ head_of part)
        × HasNoDemandedRedex system (plain u) }
{}

/// Two different nodes that can be replaced can be replaced in either order, each by the same rule as before
/// the other. Both orders lead to stores whose first nodes have the same trees, but for the numbers of the new
/// nodes.
pub fn replacements_cross<H>()
    ensures { (system : System H) → IsLawful system → (trees between others : List (Numbered H)) (n m : ℕ)
        → AreShared trees → n ≢ m
        → (x : IsReplaced system n trees between) (y : IsReplaced system m trees others)
        → (after : List (Numbered H)) × (after' : List (Numbered H)) × (z : IsReplaced system m between after)
        × (z' : IsReplaced system n others after') × (z.number ≡ y.number) × (z'.number ≡ x.number)
        × AreAlike (length trees) after after' }
{}

/// Before the replacement of any node the graph run ends where it does afterwards, with at most one
/// replacement more.
pub fn replacement_saves_one<H>()
    ensures { (system : System H) → IsLawful system → HaveConstantValues system
        → (trees between others : List (Numbered H)) (root m k : ℕ) (t : Numbered H) (v : Tree H)
        → AreShared trees → slice_get trees root ≡ Some t → IsReplaced system m trees between
        → GraphEnds system root between k others v → (n : ℕ) × (after : List (Numbered H))
        × GraphEnds system root trees n after v × (n ≤ suc k) }
{}

/// No replacement list after which the root stands for a normal form is shorter than the graph run, which
/// then ends in that normal form.
pub fn no_list_is_shorter<H>()
    ensures found { (system : System H) → IsLawful system → HaveConstantValues system
        → (trees others : List (Numbered H)) (root : ℕ) (ns : List ℕ) (t : Numbered H) (v : Tree H)
        → AreShared trees → slice_get trees root ≡ Some t → ReplacementList system trees ns others
        → StandsFor others root v → IsNormal system v → (n : ℕ) × (after : List (Numbered H))
        × GraphEnds system root trees n after v × (n ≤ length ns) }
    ensures shortest { (system : System H) → IsLawful system → HaveConstantValues system
        → (trees after others : List (Numbered H)) (root n : ℕ) (ns : List ℕ) (t : Numbered H) (u v : Tree H)
        → AreShared trees → slice_get trees root ≡ Some t → GraphEnds system root trees n after v
        → ReplacementList system trees ns others → StandsFor others root u → IsNormal system u
        → n ≤ length ns }
{}
