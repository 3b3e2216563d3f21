// A definitions file as it is written: its names and numerals by their tokens, its terms by their first bytes.
use term_lex::Token;

/// An item of the section of symbols.
#[derive(Drop)]
pub enum SymbolItem {
    /// `name: arity`
    Declares(Token, Token),
    /// `include class, class`: the word `include`, and the names.
    Includes(Token, Vec<Token>),
}

/// A class of the file: `name: member, member`.
#[derive(Drop)]
pub struct ClassItem {
    /// The name.
    pub name: Token,
    /// The members, each a name or a numeral.
    pub members: Vec<Token>,
}

/// What a qualified variable may stand for.
#[derive(Drop)]
pub enum Restriction {
    /// `in class`
    InClass(Token),
    /// `either term or term end or`
    OneOf(Vec<usize>),
}

/// A variable and what it may stand for.
#[derive(Drop)]
pub struct Condition {
    /// The name before `is`.
    pub variable: Token,
    /// What stands behind `is`.
    pub restriction: Restriction,
}

/// An equation.
#[derive(Drop)]
pub struct Sides {
    /// The term before `=`.
    pub left: usize,
    /// The term behind it.
    pub right: usize,
    /// What stands between `where` and `end where`.
    pub conditions: Vec<Condition>,
}

/// An item of the section of equations.
#[derive(Drop)]
pub enum EquationItem {
    /// `left = right where ..`
    Equates(Sides),
    /// `include class, class`: the word `include`, and the names.
    Includes(Token, Vec<Token>),
}

/// A file.
#[derive(Drop)]
pub struct File {
    /// The items of the section of symbols.
    pub symbols: Vec<SymbolItem>,
    /// The items of the section of classes; none where there is no section.
    pub classes: Vec<ClassItem>,
    /// The names between `For all` and the colon.
    pub variables: Vec<Token>,
    /// The items behind the colon.
    pub items: Vec<EquationItem>,
}
