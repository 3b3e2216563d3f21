// What a reading by item sets finds, and that it may go on after a replacement: each is the contract of a
// function that does nothing.
ghost use Rattle.std.specs.Prelude.{◌≡◌, ◌⊎◌, ◌↔◌, ℕ, suc, ◌<◌, ◌≤◌, Option, Some};
ghost use Rattle.std.specs.Prelude.{List, [], ◌++◌, length, slice_get};
ghost use Rattle.eq_base.specs.Tree.{Tree, Forest, node, empty, grow, Position};
ghost use Rattle.eq_base.specs.Storing.{join};
ghost use Rattle.eq_base.specs.Pattern.{PatternCell};
ghost use Rattle.eq_base.specs.Rewriting.{System, IsRedexBy, IsRedex, IsNormal};
ghost use Rattle.eq_base.specs.Meeting.{in_class_of};
ghost use Rattle.eq_base.specs.Rules.{system_of};
ghost use Rattle.eq_base.specs.declared.head.Head.{Head};
ghost use Rattle.eq_base.specs.declared.rules.Op.{Op};
ghost use Rattle.eq_base.specs.RuleList.{RuleList};
ghost use Rattle.eq_base.specs.ReadHead.{ReadHead};
ghost use Rattle.symbol_table.specs.Table.{Table, HasOneNumberEach};
ghost use Rattle.symbol_table.specs.Reading.{read_head, read, read_pattern, read_system, IsLiveHead, AreLive};
ghost use Rattle.sequentiality.specs.Regular.{AreRegular};
ghost use Rattle.orthogonal_laws.specs.Readings.{AreRegularIn};
ghost use Rattle.orthogonal_laws.specs.Orthogonal.{IsWellFormedSystem, IsOrthogonal, IsLawful};
ghost use Rattle.orthogonal_laws.specs.Strategy.{IsDemandedRedex, HasNoDemandedRedex, IsNext, HasLength};
ghost use Rattle.match_laws.specs.Items.{ItemSet, IsRead, IsSkip, IsCompleted, IsFirstCompleted};
ghost use Rattle.match_laws.specs.Items.{WantsRead, WantsSkip, WantsNothing};
ghost use Rattle.match_laws.specs.Reading.{KeepArities};
ghost use Rattle.match_laws.specs.Demand.{left_sides, left_sides_of, HasFixedArities};
ghost use Rattle.graph_laws.specs.Numbered.{Numbered, plain, root_number, AreShared};
ghost use Rattle.graph_laws.specs.Replacing.{IsReplacement};
ghost use Rattle.machine_laws.specs.ReadTrees.{with_heads, read_trees};
ghost use Rattle.graph_laws.specs.Runs.{IsPut, IsReplaced, ReplacementList, IsNextNode, GraphRun};
ghost use Rattle.graph_laws.specs.SharedRuns.{SharedRun, StandsFor, IsOnlyNormalForm, HaveConstantValues};
ghost use Rattle.machine_laws.specs.Places.{Place, arriving, ended, Turn};
ghost use Rattle.machine_laws.specs.Work.{work};
ghost use Rattle.machine_laws.specs.MachineRuns.{KeepAll, ReplacementsKeep, RightsKeep, MachineRun};
ghost use Rattle.machine_laws.specs.Arities.{HaveRightArities, GiveClassHeads};
ghost use Rattle.machine_laws.specs.Ways.{plain_frames};
ghost use Rattle.machine_laws.specs.Going.{IsWay, GoesOn};
ghost use Rattle.machine_laws.specs.Frames.{Frame, plug, way, AllAround};
ghost use Rattle.machine_laws.specs.Completions.{FitsFirstAbove};
ghost use Rattle.machine_laws.specs.Scanning.{Passes, ComesTo};
ghost use Rattle.machine_laws.specs.Normalising.{AllTrees, AreSettledAround, DevelopBeside};

/// A redex to which the reading of a tree comes is the tree's demanded redex.
pub fn reading_finds<H>()
    ensures { (system : System H) → IsLawful system → (arity : H → ℕ) → HasFixedArities system arity
        → (frames : List (Frame H)) (items : ItemSet) (t : Tree H)
        → KeepArities arity (grow (plug frames t) empty) → ComesTo system frames items → IsRedex system t
        → IsDemandedRedex system (plug frames t) (way frames []) }
{}

/// A node that is no redex and whose arguments the reading has passed has no demanded redex.
pub fn passed_is_settled<H>()
    ensures { (system : System H) → IsLawful system → (arity : H → ℕ) → HasFixedArities system arity
        → (frames : List (Frame H)) (items inner next : ItemSet) (h : H) (args : Forest H)
        → KeepArities arity (grow (plug frames (node h args)) empty) → ComesTo system frames items
        → IsRead system.in_class (left_sides system) items h inner → Passes system inner args next
        → (IsRedex system (node h args) → ⊥) → HasNoDemandedRedex system (node h args) }
{}

/// Where nothing more is wanted in a node, and neither it nor a node above is a redex, none of them has a
/// demanded redex.
pub fn way_is_settled<H>()
    ensures { (system : System H) → IsLawful system → (arity : H → ℕ) → HasFixedArities system arity
        → (frames : List (Frame H)) (items inner next : ItemSet) (h : H) (before behind : Forest H)
        → KeepArities arity (grow (plug frames (node h (join before behind))) empty)
        → ComesTo system frames items → IsRead system.in_class (left_sides system) items h inner
        → Passes system inner before next → WantsNothing (left_sides system) next
        → AllAround (λ t. IsRedex system t → ⊥) frames (node h (join before behind))
        → AllAround (HasNoDemandedRedex system) frames (node h (join before behind)) }
{}

/// Where the first completed rule has no value, no node on the way has a demanded redex: the reading is over.
pub fn no_value_settles<H>()
    ensures { (system : System H) → IsLawful system → (arity : H → ℕ) → HasFixedArities system arity
        → (frames : List (Frame H)) (items next : ItemSet) (h : H) (args : Forest H) (e height : ℕ)
        → KeepArities arity (grow (plug frames (node h args)) empty) → ComesTo system frames items
        → IsRead system.in_class (left_sides system) items h next
        → IsFirstCompleted system.in_class (left_sides system) items h e height
        → (found : FitsFirstAbove system frames (node h args) e height)
        → (IsRedexBy system e (plug found.inner (node h args)) → ⊥)
        → AllAround (HasNoDemandedRedex system) frames (node h args) }
{}

/// Each item set leads on by every head, and by a skip; and it wants a read, a skip or nothing.
pub fn sets_lead_on<H>()
    ensures read { (system : System H) → IsWellFormedSystem system → (items : ItemSet) (h : H)
        → (next : ItemSet) × IsRead system.in_class (left_sides system) items h next }
    ensures skip { (system : System H) → IsWellFormedSystem system → (items : ItemSet)
        → (next : ItemSet) × IsSkip (left_sides system) items next }
    ensures wants { (system : System H) → IsWellFormedSystem system → (items : ItemSet)
        → WantsRead (left_sides system) items
        ⊎ (WantsSkip (left_sides system) items ⊎ WantsNothing (left_sides system) items) }
{}

/// Where what stands before and behind a way develops, the reading comes with the same items to the node
/// below it, whatever stands there.
pub fn reading_goes_on<H>()
    ensures { (system : System H) → IsLawful system → (arity : H → ℕ) → HasFixedArities system arity
        → (frames gs : List (Frame H)) (items : ItemSet) (t : Tree H)
        → KeepArities arity (grow (plug frames t) empty) → ComesTo system frames items
        → DevelopBeside system frames gs → ComesTo system gs items }
{}

/// Where the nodes above are settled, and the arguments before each way down are normal, the next redex is
/// that of the tree below.
pub fn next_is_below<H>()
    ensures next { (system : System H) → IsLawful system
        → (frames : List (Frame H)) (t : Tree H) (q : Position) → AreSettledAround system frames t
        → IsNext system t q → IsNext system (plug frames t) (way frames q) }
    ensures normal { (system : System H) → IsLawful system → (h : H) (args : Forest H)
        → HasNoDemandedRedex system (node h args) → AllTrees (IsNormal system) args
        → IsNormal system (node h args) }
{}

/// The first completed rule is the first that fits, so many nodes above as its cell is deep; and the reading
/// comes to that node.
pub fn completed_fits_above<H>()
    ensures fits { (system : System H) → IsLawful system → (arity : H → ℕ) → HasFixedArities system arity
        → (frames : List (Frame H)) (items : ItemSet) (h : H) (args : Forest H) (e height : ℕ)
        → KeepArities arity (grow (plug frames (node h args)) empty) → ComesTo system frames items
        → IsFirstCompleted system.in_class (left_sides system) items h e height
        → FitsFirstAbove system frames (node h args) e height }
    ensures comes { (system : System H) → (inner outer : List (Frame H)) (items : ItemSet)
        → ComesTo system (inner ++ outer) items → (above : ItemSet) × ComesTo system outer above }
{}

/// A redex to which the reading of a tree below settled nodes comes is the next redex of the whole.
pub fn found_is_next<H>()
    ensures { (system : System H) → IsLawful system → (arity : H → ℕ) → HasFixedArities system arity
        → (inner outer : List (Frame H)) (items : ItemSet) (t : Tree H)
        → KeepArities arity (grow (plug inner t) empty) → AreSettledAround system outer (plug inner t)
        → ComesTo system inner items → IsRedex system t
        → IsNext system (plug outer (plug inner t)) (way outer (way inner [])) }
{}

/// The node at the end of the way, if it is a redex, is the next node of the graph run.
pub fn found_is_next_node<H>()
    ensures { (system : System H) → IsLawful system → (arity : H → ℕ) → HasFixedArities system arity
        → (trees : List (Numbered H)) (root n : ℕ) (outer inner : List (Frame (H
        × ℕ))) (t : Numbered H) (items : ItemSet) → IsWay trees root outer inner t → root_number t ≡ n
        → KeepArities arity (grow (plain (plug inner t)) empty)
        → AreSettledAround system (plain_frames outer) (plain (plug inner t))
        → ComesTo system (plain_frames inner) items → IsRedex system (plain t)
        → IsNextNode system trees root n }
{}

/// After the node at the end of the way is replaced, the way leads to its new tree, what stands beside it has
/// developed, and the settled nodes are settled.
pub fn machine_goes_on<H>()
    ensures { (system : System H) → IsLawful system
        → (trees after : List (Numbered H)) (root n : ℕ) (outer inner : List (Frame (H × ℕ))) (t : Numbered H)
        → AreShared trees → IsReplaced system n trees after → IsWay trees root outer inner t
        → root_number t ≡ n → GoesOn system after root n outer inner t }
{}

/// Where right sides have the fixed numbers of arguments, replacements keep them.
pub fn replacements_keep<H>()
    ensures { (system : System H) → IsOrthogonal system → (arity : H → ℕ) → RightsKeep system arity
        → ReplacementsKeep system arity }
{}

/// Regular equations whose right sides have the fixed numbers of arguments, and whose operations give
/// constants of classes, keep these numbers.
pub fn equations_keep()
    ensures { (value_of : Op → Tree Head → Option (Tree Head)) (rules : RuleList)
        → (regular : AreRegular rules) → HaveRightArities regular.well_formed.arity rules
        → GiveClassHeads value_of rules.classes
        → RightsKeep (system_of value_of rules) regular.well_formed.arity }
{}

/// Regular equations of a table whose right sides have the fixed numbers of arguments keep these numbers as
/// they are read, with the operations: so the laws of the machine hold of them.
pub fn read_equations_keep()
    ensures { (table : Table) (rules : RuleList) → (regular : AreRegularIn table rules)
        → HaveRightArities regular.regular.well_formed.arity rules → (arity : ReadHead → ℕ)
        × HasFixedArities (read_system table rules) arity × RightsKeep (read_system table rules) arity
        × ((h : Head) → IsLiveHead table h
        → arity (read_head table h) ≡ regular.regular.well_formed.arity h) }
{}

/// Where a table has one number for each name, item sets by number are those of the equations as they are
/// read: the same is wanted, and live heads lead from one to the next and complete the same left sides.
pub fn sets_are_read()
    ensures reads { (table : Table) → HasOneNumberEach table → (rules : RuleList) → AreLive table rules
        → (items next : ItemSet) (h : Head) → IsLiveHead table h
        → IsRead (in_class_of rules.classes) (left_sides_of rules) items h next
        ↔ IsRead (read_system table rules).in_class (left_sides (read_system table rules)) items
        (read_head table h) next }
    ensures completes { (table : Table) → HasOneNumberEach table → (rules : RuleList) → AreLive table rules
        → (items : ItemSet) (e c : ℕ) (h : Head) → IsLiveHead table h
        → IsCompleted (in_class_of rules.classes) (left_sides_of rules) items h e c
        ↔ IsCompleted (read_system table rules).in_class (left_sides (read_system table rules)) items
        (read_head table h) e c }
    ensures first { (table : Table) → HasOneNumberEach table → (rules : RuleList) → AreLive table rules
        → (items : ItemSet) (e height : ℕ) (h : Head) → IsLiveHead table h
        → IsFirstCompleted (in_class_of rules.classes) (left_sides_of rules) items h e height
        ↔ IsFirstCompleted (read_system table rules).in_class (left_sides (read_system table rules)) items
        (read_head table h) e height }
    ensures skips { (table : Table) → HasOneNumberEach table → (rules : RuleList) → AreLive table rules
        → (items next : ItemSet) → IsSkip (left_sides_of rules) items next
        ↔ IsSkip (left_sides (read_system table rules)) items next }
    ensures wants_read { (table : Table) → HasOneNumberEach table → (rules : RuleList) → AreLive table rules
        → (items : ItemSet) → WantsRead (left_sides_of rules) items
        ↔ WantsRead (left_sides (read_system table rules)) items }
    ensures wants_skip { (table : Table) → HasOneNumberEach table → (rules : RuleList) → AreLive table rules
        → (items : ItemSet) → WantsSkip (left_sides_of rules) items
        ↔ WantsSkip (left_sides (read_system table rules)) items }
{}

/// Replacements in a store are those in the store as it is read, and shared trees are shared as they are
/// read.
pub fn stores_are_read()
    ensures pattern { (table : Table) (left right : Tree (PatternCell Head)) (n : ℕ)
        (trees after : List (Numbered Head)) → IsReplacement left right n trees after
        → IsReplacement (read_pattern table left) (read_pattern table right) n (read_trees table trees)
        (read_trees table after) }
    ensures constant { (table : Table) (h : Head) (n : ℕ) (trees after : List (Numbered Head))
        → IsPut h n trees after
        → IsPut (read_head table h) n (read_trees table trees) (read_trees table after) }
    ensures shared { (table : Table) (trees : List (Numbered Head)) → AreShared trees
        → AreShared (read_trees table trees) }
    ensures terms { (table : Table) (t : Numbered Head)
        → plain (with_heads (read_head table) t) ≡ read table (plain t) }
{}

/// What the machine does is the graph run: it replaces the nodes that the graph run replaces, and where it
/// ends the root stands for a normal form.
pub fn machine_makes_graph_run<H>()
    ensures run { (system : System H) → IsLawful system → (arity : H → ℕ) → HasFixedArities system arity
        → RightsKeep system arity → (root : ℕ) (trees : List (Numbered H)) (t : Numbered H) → AreShared trees
        → KeepAll arity trees → slice_get trees root ≡ Some t
        → (n : ℕ) (now : List (Numbered H)) (place : Place H)
        → MachineRun system trees (arriving [] t) n now place → GraphRun system root trees n now }
    ensures normal { (system : System H) → IsLawful system → (arity : H → ℕ) → HasFixedArities system arity
        → RightsKeep system arity → (root : ℕ) (trees : List (Numbered H)) (t : Numbered H) → AreShared trees
        → KeepAll arity trees → slice_get trees root ≡ Some t
        → (n : ℕ) (now : List (Numbered H)) (v : Numbered H)
        → MachineRun system trees (arriving [] t) n now (ended v) → (slice_get now root ≡ Some v)
        × IsNormal system (plain v) }
{}

/// The machine is never stuck: at each place that it reaches it has ended, or a turn leads on, or it makes
/// one replacement more.
pub fn machine_goes_further<H>()
    ensures { (system : System H) → IsLawful system → HaveConstantValues system → (arity : H → ℕ)
        → HasFixedArities system arity → RightsKeep system arity → (root : ℕ) (trees : List (Numbered H))
        (t : Numbered H) → AreShared trees → KeepAll arity trees → slice_get trees root ≡ Some t → (n : ℕ)
        (now : List (Numbered H)) (place : Place H) → MachineRun system trees (arriving [] t) n now place
        → ((v : Numbered H) × (place ≡ ended v)) ⊎ (((next : Place H) × Turn system place next)
        ⊎ ((after : List (Numbered H)) × (next : Place H)
        × MachineRun system trees (arriving [] t) (suc n) after next)) }
{}

/// Where the machine ends, the root's tree is the only normal form of the term, and no list of replacements
/// after which the root stands for a normal form is shorter. Where a redex is left, it has made as many
/// shared steps, and the plain run is longer.
pub fn machine_answers<H>()
    ensures only { (system : System H) → IsLawful system → (arity : H → ℕ) → HasFixedArities system arity
        → RightsKeep system arity → (root : ℕ) (trees : List (Numbered H)) (t : Numbered H) → AreShared trees
        → KeepAll arity trees → slice_get trees root ≡ Some t → (n : ℕ)
        (now : List (Numbered H)) (v : Numbered H) → MachineRun system trees (arriving [] t) n now (ended v)
        → IsOnlyNormalForm system (plain t) n (plain v) }
    ensures shortest { (system : System H) → IsLawful system → (arity : H → ℕ) → HasFixedArities system arity
        → RightsKeep system arity → (root : ℕ) (trees : List (Numbered H)) (t : Numbered H) → AreShared trees
        → KeepAll arity trees → slice_get trees root ≡ Some t
        → HaveConstantValues system → (n : ℕ) (now : List (Numbered H)) (v : Numbered H)
        → MachineRun system trees (arriving [] t) n now (ended v) → (others : List (Numbered H))
        (ns : List ℕ) (u : Tree H) → ReplacementList system trees ns others → StandsFor others root u
        → IsNormal system u → n ≤ length ns }
    ensures spent { (system : System H) → IsLawful system → (arity : H → ℕ) → HasFixedArities system arity
        → RightsKeep system arity → (root : ℕ) (trees : List (Numbered H)) (t : Numbered H) → AreShared trees
        → KeepAll arity trees → slice_get trees root ≡ Some t → (n : ℕ)
        (now : List (Numbered H)) (place : Place H) → MachineRun system trees (arriving [] t) n now place
        → (u : Tree H) → StandsFor now root u → (IsNormal system u → ⊥)
        → SharedRun system (plain t) n u
        × ((v : Tree H) (m : ℕ) → HasLength system (plain t) m v → n < m) }
{}

/// Each turn of the machine's loop leaves less work, so there are finitely many between two replacements.
pub fn turns_end<H>()
    ensures { (system : System H) (p q : Place H) → Turn system p q → work q < work p }
{}
