// What a node of a store holds.
ghost use Rattle.std.specs.Prelude.{◌≡◌, ◌⊎◌, ◌<◌, ℕ, List, take, drop, length};
ghost use Rattle.eq_base.specs.Cells.{TakesArguments};
ghost use Rattle.term_graph.specs.Shapes.{own};
ghost use Rattle.term_graph.specs.Contents.{shape_of, IsOwn, IsNumeral, whole_of, head_in, arity_of_content, first_in, IsChained, Leads};

use eq_base::Head;

// How many values half of an integer has.
const HALF: u128 = 1 << 64;

/// What a node holds: a head, or an indirection. It takes 24 bytes.
#[derive(Clone, Copy)]
pub enum Content {
    /// A symbol, by its number, with how many arguments it has and where they begin in the vector of
    /// arguments.
    Symbol(u32, u8, usize),
    /// An integer, by its halves.
    Numeral(u64, u64),
    /// An undeclared name, by its number.
    Atom(usize),
    /// A string, by its number.
    Text(usize),
    /// An indirection: the node stands for what another node stands for.
    Same(usize),
}

/// A variable of a left side, and the node that it met.
#[derive(Clone, Copy)]
pub struct Met {
    /// The variable.
    pub variable: u32,
    /// The node.
    pub node: usize,
}

impl Content {
    /// A head over as many arguments, which begin at a place of the vector of arguments.
    pub fn of(head: Head, arity: u8, first: usize) -> Content
        requires { TakesArguments head arity }
        ensures shape { (args : List ℕ) → shape_of args result ≡ own head (take arity (drop first args)) }
        ensures arity { arity_of_content result ≡ arity }
        ensures first { (first_in result ≡ first) ⊎ ((first_in result ≡ 0) × (arity ≡ 0)) }
    {
        match head {
            Head::Symbol(number) => Content::Symbol(number, arity, first),
            Head::Numeral(value) => Content::of_numeral(value),
            Head::Atom(number) => Content::Atom(number),
            Head::Text(number) => Content::Text(number),
        }
    }

    // An integer. Its bits are halved, since a node of a whole one would take 32 bytes.
    fn of_numeral(value: i128) -> Content
        ensures { IsNumeral value result }
    {
        let bits = value.cast_unsigned();
        Content::Numeral((bits / HALF) as u64, (bits % HALF) as u64)
    }

    /// The head of a node that is no indirection.
    pub fn head(self) -> Head
        requires { IsOwn self }
        ensures { result ≡ head_in self }
    {
        match self {
            Content::Symbol(number, _, _) => Head::Symbol(number),
            Content::Numeral(high, low) => Head::Numeral(whole(high, low)),
            Content::Atom(number) => Head::Atom(number),
            Content::Text(number) => Head::Text(number),
            Content::Same(_) => unreachable!(),
        }
    }

    /// The number of arguments.
    pub fn arity(self) -> u8
        ensures { result ≡ arity_of_content self }
    {
        match self {
            Content::Symbol(_, arity, _) => arity,
            _ => 0,
        }
    }

    /// Where the arguments begin.
    pub fn first(self) -> usize
        ensures { result ≡ first_in self }
    {
        match self {
            Content::Symbol(_, _, first) => first,
            _ => 0,
        }
    }
}

// The integer of which these are the halves.
fn whole(high: u64, low: u64) -> i128
    ensures { result ≡ whole_of high low }
{
    (u128::from(high) * HALF + u128::from(low)).cast_signed()
}

/// The node to which indirections lead; a node that is none leads to itself.
pub fn follow(nodes: &[Content], node: usize) -> usize
    requires chained { IsChained nodes.now }
    requires there { node < length nodes.now }
    ensures { Leads nodes.now node result }
{
    let mut at = node;
    while let Content::Same(next) = nodes[at] {
        at = next;
    }
    at
}
