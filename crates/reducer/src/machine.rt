// The machine: it finds the next redex, and goes on from where it stood.
//
// Two stacks are the way down from the root. The nodes of the outer one are settled: they have no demanded
// redex, and their arguments are normalised from left to right. Those of the inner one are the way of a
// reading, in which all left sides begun on it are read at once.
ghost use Rattle.std.specs.Prelude.{◌≡◌, ℕ, ◌<◌, ◌≤◌, [], List, length, None, OnOk, IfSome};
ghost use Rattle.eq_base.specs.Tree.{Forest, arity_of, node, empty, grow};
ghost use Rattle.eq_base.specs.ReadHead.{ReadHead};
ghost use Rattle.eq_base.specs.RuleList.{RuleList};
ghost use Rattle.eq_base.specs.Rewriting.{System, IsNormal};
ghost use Rattle.symbol_table.specs.Table.{Table, HasOneNumberEach};
ghost use Rattle.symbol_table.specs.Reading.{read_head, read_system, IsLiveHead, AreLive};
ghost use Rattle.match_laws.specs.Items.{ItemSet, IsFirstCompleted, WantsRead, WantsSkip, WantsNothing};
ghost use Rattle.match_laws.specs.Demand.{left_sides, left_sides_of};
ghost use Rattle.match_tables.specs.Tabled.{AreTablesOf, IsState};
ghost use Rattle.machine_laws.specs.ReadTrees.{with_heads};
ghost use Rattle.machine_laws.specs.Frames.{Frame};
ghost use Rattle.machine_laws.specs.Places.{arriving, reading, among, turning};
ghost use Rattle.graph_laws.specs.Numbered.{Numbered, plain};
ghost use Rattle.term_graph.specs.Graph.{term_at};
ghost use Rattle.reducer.specs.Standing.{IsArriving, IsReading, IsReadAmong, IsTurning};
ghost use Rattle.reducer.specs.Marking.{AreMarkedNormal, MarksPassed};
ghost use Rattle.reducer.specs.Turning.{LeadsOn};
ghost use Rattle.eq_base.specs.declared.head.Head.{Head};

use eq_base::NoMemory;
use machine_laws::laws::sets_are_read;
use match_tables::{Advance, Tables, Want};
use std::alloc::Global;
use term_graph::Store;

/// A node on the way, its next argument to go into, and the state before its head was read.
#[derive(Clone, Copy)]
struct Above {
    node: usize,
    next: u8,
    state: usize,
}

/// A left side that is completed: the first such equation, and how far above the node its root stands.
#[derive(Clone, Copy)]
struct Completed {
    equation: usize,
    height: usize,
}

/// Where the machine stands.
#[derive(Clone, Copy)]
enum Here {
    /// At a node that is to be normalised.
    Arriving(usize),
    /// At a node whose head is to be read in this state.
    Reading(usize, usize),
    /// Among the arguments of a node that is read, in this state.
    Among(Above, usize),
    /// Among the arguments of a settled node, of which so many are passed.
    Turning(usize, u8),
    /// At the end: the root is normal.
    Ended(usize),
}

/// A machine that reduces terms of a store.
#[derive(Drop)]
pub struct Machine {
    outer: Vec<Above>,
    inner: Vec<Above>,
    // Where the reading began.
    begun: usize,
    here: Here,
}

impl Machine {
    /// A machine with empty stacks. It takes no memory.
    pub fn new(alloc: Global) -> Machine
        ensures outer { result.outer.items ≡ [] }
        ensures inner { result.inner.items ≡ [] }
    {
        Machine {
            outer: Vec::new(alloc),
            inner: Vec::new(alloc),
            begun: 0,
            here: Here::Ended(0),
        }
    }

    // Goes into the next argument of a settled node.
    fn turn_down(&mut self, store: &Store, number: usize, passed: u8) -> Result<(), NoMemory>
        requires node { number < length store.now.trees }
        requires next { passed < arity_of (term_at store.now number) }
        requires few { passed < 255 }
        ensures { OnOk result ((system : System ReadHead) (table : Table) (sets : List ItemSet)
            (outer : List (Frame (Head × ℕ))) (l : Head × ℕ) (before behind : Forest (Head × ℕ))
            (t : Numbered Head)
            → IsTurning store.now.trees self.old number passed outer l before (grow t behind)
            → LeadsOn system table sets store.now.trees self.new (turning outer l before (grow t behind))) }
    {
        self.outer.push(Above {
            node: number,
            next: passed + 1,
            state: 0,
        })?;
        self.here = Here::Arriving(store.arg(number, passed as usize));
        Ok(())
    }

    // Leaves a node, which is normal, and goes on behind it in the settled node above.
    fn leave(&mut self, number: usize)
        ensures turned { (system : System ReadHead) (table : Table) (sets : List ItemSet)
            (trees : List (Numbered Head)) (passed : ℕ) (outer : List (Frame (Head × ℕ))) (l : Head × ℕ)
            (before : Forest (Head × ℕ)) → IsTurning trees self.old number passed outer l before empty
            → LeadsOn system table sets trees self.new (turning outer l before empty) }
        ensures arrived { (system : System ReadHead) (table : Table) (sets : List ItemSet)
            (trees : List (Numbered Head)) (outer : List (Frame (Head × ℕ))) (t : Numbered Head)
            → IsArriving trees self.old number outer t
            → IsNormal system (plain (with_heads (read_head table) t))
            → LeadsOn system table sets trees self.new (arriving outer t) }
    {
        self.here = match self.outer.pop() {
            None => Here::Ended(number),
            Some(above) => Here::Turning(above.node, above.next),
        };
    }

    // Begins a reading at a node that is to be normalised.
    fn begin(&mut self, tables: &Tables, number: usize)
        ensures { (rules : RuleList) → AreTablesOf rules tables.now → (system : System ReadHead)
            (table : Table) (trees : List (Numbered Head)) (outer : List (Frame (Head × ℕ)))
            (t : Numbered Head) → IsArriving trees self.old number outer t
            → LeadsOn system table tables.now.sets trees self.new (arriving outer t) }
    {
        self.begun = number;
        self.here = Here::Reading(number, tables.start());
    }

    // Ends a reading without a redex: the arguments of the node where it began are normalised next.
    fn end_reading(&mut self)
        ensures { (system : System ReadHead) (table : Table) (sets : List ItemSet)
            (trees : List (Numbered Head)) (at : Above) (state : ℕ)
            (outer inner : List (Frame (Head × ℕ))) (l : Head × ℕ) (before behind : Forest (Head × ℕ))
            (items : ItemSet) → IsReadAmong trees sets self.old at state outer inner l before behind items
            → WantsNothing (left_sides system) items
            → LeadsOn system table sets trees self.new (among outer inner l before behind items) }
    {
        self.inner.clear();
        self.here = Here::Turning(self.begun, 0);
    }

    // Goes into the next argument of a node that is read.
    fn go_into(&mut self, store: &Store, at: Above, state: usize) -> Result<(), NoMemory>
        requires node { at.node < length store.now.trees }
        requires next { at.next < arity_of (term_at store.now at.node) }
        requires few { at.next < 255 }
        ensures { OnOk result ((system : System ReadHead) (table : Table) (sets : List ItemSet)
            (outer inner : List (Frame (Head × ℕ))) (l : Head × ℕ) (before behind : Forest (Head × ℕ))
            (t : Numbered Head) (items : ItemSet)
            → IsReadAmong store.now.trees sets self.old at state outer inner l before (grow t behind) items
            → WantsRead (left_sides system) items → LeadsOn system table sets store.now.trees self.new
            (among outer inner l before (grow t behind) items)) }
    {
        self.inner.push(Above {
            node: at.node,
            next: at.next + 1,
            state: at.state,
        })?;
        self.here = Here::Reading(store.arg(at.node, at.next as usize), state);
        Ok(())
    }

    // Leaves a node, all of whose arguments are read, and goes on behind it in the node above.
    fn go_back(&mut self, at: Above, state: usize)
        ensures { (system : System ReadHead) (table : Table) (sets : List ItemSet)
            (trees : List (Numbered Head)) (outer inner : List (Frame (Head × ℕ))) (l : Head × ℕ)
            (before : Forest (Head × ℕ)) (items : ItemSet)
            → IsReadAmong trees sets self.old at state outer inner l before empty items
            → LeadsOn system table sets trees self.new (among outer inner l before empty items) }
    {
        self.here = match self.inner.pop() {
            None => Here::Turning(at.node, 0),
            Some(above) => Here::Among(above, state),
        };
    }

    // Passes the next argument of a node that is read, which no left side tests.
    fn skip(&mut self, tables: &Tables, at: Above, state: usize)
        requires state { IsState tables.now state }
        requires few { at.next < 255 }
        ensures { (table : Table) → HasOneNumberEach table → (rules : RuleList) → AreLive table rules
            → AreTablesOf rules tables.now → (trees : List (Numbered Head))
            (outer inner : List (Frame (Head × ℕ))) (l : Head × ℕ) (before behind : Forest (Head × ℕ))
            (t : Numbered Head) (items : ItemSet)
            → IsReadAmong trees tables.now.sets self.old at state outer inner l before (grow t behind) items
            → WantsSkip (left_sides_of rules) items
            → LeadsOn (read_system table rules) table tables.now.sets trees self.new
            (among outer inner l before (grow t behind) items) }
    {
        sets_are_read();
        let passed = Above {
            node: at.node,
            next: at.next + 1,
            state: at.state,
        };
        self.here = Here::Among(passed, tables.skip(state));
    }

    // Reads the head of a node: goes on among its arguments, or finds that a left side is completed.
    fn read(
        &mut self,
        store: &Store,
        tables: &Tables,
        number: usize,
        state: usize,
    ) -> Option<Completed>
        requires node { number < length store.now.trees }
        requires state { IsState tables.now state }
        ensures goes { (table : Table) → HasOneNumberEach table → (rules : RuleList) → AreLive table rules
            → AreTablesOf rules tables.now → (outer inner : List (Frame (Head × ℕ))) (l : Head × ℕ)
            (args : Forest (Head × ℕ)) (items : ItemSet)
            → IsReading store.now.trees tables.now.sets self.old number state outer inner (node l args) items
            → IsLiveHead table l.0 → result ≡ None
            → LeadsOn (read_system table rules) table tables.now.sets store.now.trees self.new
            (reading outer inner (node l args) items) }
        ensures finds { (table : Table) → HasOneNumberEach table → (rules : RuleList) → AreLive table rules
            → AreTablesOf rules tables.now → (outer inner : List (Frame (Head × ℕ))) (l : Head × ℕ)
            (args : Forest (Head × ℕ)) (items : ItemSet)
            → IsReading store.now.trees tables.now.sets self.old number state outer inner (node l args) items
            → IsLiveHead table l.0 → IfSome result (λ found.
            IsFirstCompleted (read_system table rules).in_class (left_sides (read_system table rules)) items
            (read_head table l.0) found.equation found.height) }
        ensures stays { IfSome result (λ found. self.new ≡ self.old) }
    {
        sets_are_read();
        match tables.read(state, store.head(number)) {
            Advance::Go(next) => {
                let at = Above {
                    node: number,
                    next: 0,
                    state,
                };
                self.here = Here::Among(at, next);
                None
            }
            Advance::Redex {
                equation,
                height,
                ..
            } => Some(Completed { equation, height }),
        }
    }

    // Goes on among the arguments of a node that is read.
    fn go_among(
        &mut self,
        store: &Store,
        tables: &Tables,
        at: Above,
        state: usize,
    ) -> Result<(), NoMemory>
        requires node { at.node < length store.now.trees }
        requires passed { at.next ≤ arity_of (term_at store.now at.node) }
        requires state { IsState tables.now state }
        ensures { OnOk result ((table : Table) → HasOneNumberEach table → (rules : RuleList)
            → AreLive table rules → AreTablesOf rules tables.now
            → (outer inner : List (Frame (Head × ℕ))) (l : Head × ℕ) (before behind : Forest (Head × ℕ))
            (items : ItemSet)
            → IsReadAmong store.now.trees tables.now.sets self.old at state outer inner l before behind items
            → LeadsOn (read_system table rules) table tables.now.sets store.now.trees self.new
            (among outer inner l before behind items)) }
    {
        sets_are_read();
        if at.next == store.arity(at.node) {
            self.go_back(at, state);
            return Ok(());
        }
        match tables.wants(state) {
            Want::Read => return self.go_into(store, at, state),
            Want::Skip => self.skip(tables, at, state),
            Want::Nothing => self.end_reading(),
        }
        Ok(())
    }

    // Goes on among the arguments of a settled node: into the next one, or behind the node, which is normal.
    fn turn(&mut self, store: &mut Store, number: usize, passed: u8) -> Result<(), NoMemory>
        requires node { number < length store.old.trees }
        requires passed { passed ≤ arity_of (term_at store.old number) }
        ensures turns { OnOk result ((system : System ReadHead) (table : Table) (sets : List ItemSet)
            (outer : List (Frame (Head × ℕ))) (l : Head × ℕ) (before behind : Forest (Head × ℕ))
            → IsTurning store.old.trees self.old number passed outer l before behind
            → LeadsOn system table sets store.old.trees self.new (turning outer l before behind)) }
        ensures trees { store.new.trees ≡ store.old.trees }
        ensures spare { store.new.spare ≡ store.old.spare }
        ensures marks { MarksPassed store.old store.new number passed }
    {
        if passed == store.arity(number) {
            store.mark(number);
            self.leave(number);
            Ok(())
        } else {
            self.turn_down(store, number, passed)
        }
    }

    // Comes to a node that is to be normalised: a marked one is normal, and the others are read.
    fn arrive(&mut self, store: &Store, tables: &Tables, number: usize)
        requires { number < length store.now.trees }
        ensures { (rules : RuleList) → AreTablesOf rules tables.now → (system : System ReadHead)
            (table : Table) → AreMarkedNormal system table store.now → (outer : List (Frame (Head × ℕ)))
            (t : Numbered Head) → IsArriving store.now.trees self.old number outer t
            → LeadsOn system table tables.now.sets store.now.trees self.new (arriving outer t) }
    {
        if store.is_marked(number) {
            self.leave(number);
        } else {
            self.begin(tables, number);
        }
    }
}
