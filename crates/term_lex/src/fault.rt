ghost use Rattle.std.specs.Prelude.{◌≡◌};
ghost use Rattle.term_lex.specs.Faults.{fault_number, fault_word};
ghost use Rattle.term_lex.specs.Lexemes.{misplaced};

use crate::token::{Token, TokenKind};

/// What is wrong with a text.
#[derive(Clone, Copy, Debug, PartialEq, Eq)]
pub enum FaultKind {
    /// A byte begins no token, or is no element of a string.
    BadByte,
    /// A string has no closing quote on its line.
    OpenString,
    /// A backslash begins no escape.
    BadEscape,
    /// A numeral lies outside -2^127 to 2^127 - 1.
    NumeralPast,
    /// A name has more than 255 bytes.
    NameLong,
    /// The value of a string has 65,536 bytes or more.
    StringLong,
    /// A token cannot stand in its place.
    Expected {
        /// What kind of token it is.
        found: TokenKind,
    },
    /// The text ends where more is needed.
    Unended,
    /// A dot stands where a list has no place for one.
    DotPlace,
    /// A list is written, and `cons` and `nil` are not declared with two arguments and none.
    ListNeedsCons,
    /// A term has more than 2^24 bytes.
    TermLong,
    /// A name is declared or included already.
    Twice,
    /// An arity lies outside 0 to 255.
    ArityPast,
    /// A name is no class of symbols.
    UnknownClass,
    /// A name is not declared.
    Unknown,
    /// A name has another number of arguments than was declared.
    WrongArity {
        /// How many arguments were declared.
        declared: u8,
        /// How many arguments stand there.
        found: usize,
    },
    /// The class of a literal or of a qualifier is not included.
    NotIncluded,
    /// The file has more than 2^24 bytes.
    FileLong,
    /// The file has more than 2,048 written equations.
    EquationsPast,
    /// A name is no class of equations.
    UnknownEquationClass,
    /// A left side is no application of a symbol.
    LeftNotApplication,
    /// A variable is listed already or is a declared symbol.
    VariableTwice,
    /// A qualified name is no variable.
    QualifiedUnknown,
    /// A side of an equation has too many cells.
    SideLong,
    /// A class of equations lacks its symbol or a class of symbols.
    SchemaNeeds,
    /// A variable is qualified already in the equation.
    QualifiedTwice,
    /// The equations without qualifiers are too many, or have too many cells.
    ExpansionPast,
    /// A variable with alternatives depends on itself.
    QualifierCircle,
    /// The file defines more than 250 classes of constants.
    ClassesPast,
    /// The classes of the file list more than 4,096 members together.
    MembersPast,
}

impl FaultKind {
    /// The fault's number, which stays the same in every version.
    pub fn number(&self) -> u8
        ensures { result ≡ fault_number self.now }
    {
        match self {
            FaultKind::BadByte => 1,
            FaultKind::OpenString => 2,
            FaultKind::BadEscape => 3,
            FaultKind::NumeralPast => 4,
            FaultKind::NameLong => 5,
            FaultKind::StringLong => 6,
            FaultKind::Expected { .. } => 10,
            FaultKind::Unended => 11,
            FaultKind::DotPlace => 12,
            FaultKind::ListNeedsCons => 13,
            FaultKind::TermLong => 14,
            FaultKind::Twice => 20,
            FaultKind::ArityPast => 21,
            FaultKind::UnknownClass => 22,
            FaultKind::Unknown => 23,
            FaultKind::WrongArity { .. } => 24,
            FaultKind::NotIncluded => 25,
            FaultKind::FileLong => 30,
            FaultKind::EquationsPast => 31,
            FaultKind::UnknownEquationClass => 32,
            FaultKind::LeftNotApplication => 33,
            FaultKind::VariableTwice => 34,
            FaultKind::QualifiedUnknown => 35,
            FaultKind::SideLong => 36,
            FaultKind::SchemaNeeds => 37,
            FaultKind::QualifiedTwice => 38,
            FaultKind::ExpansionPast => 40,
            FaultKind::QualifierCircle => 41,
            FaultKind::ClassesPast => 42,
            FaultKind::MembersPast => 43,
        }
    }

    /// The fault's name, as messages tell it.
    pub fn word(&self) -> &'static str
        ensures { result.now ≡ fault_word self.now }
    {
        match self {
            FaultKind::BadByte => "BadByte",
            FaultKind::OpenString => "OpenString",
            FaultKind::BadEscape => "BadEscape",
            FaultKind::NumeralPast => "NumeralPast",
            FaultKind::NameLong => "NameLong",
            FaultKind::StringLong => "StringLong",
            FaultKind::Expected { .. } => "Expected",
            FaultKind::Unended => "Unended",
            FaultKind::DotPlace => "DotPlace",
            FaultKind::ListNeedsCons => "ListNeedsCons",
            FaultKind::TermLong => "TermLong",
            FaultKind::Twice => "Twice",
            FaultKind::ArityPast => "ArityPast",
            FaultKind::UnknownClass => "UnknownClass",
            FaultKind::Unknown => "Unknown",
            FaultKind::WrongArity { .. } => "WrongArity",
            FaultKind::NotIncluded => "NotIncluded",
            FaultKind::FileLong => "FileLong",
            FaultKind::EquationsPast => "EquationsPast",
            FaultKind::UnknownEquationClass => "UnknownEquationClass",
            FaultKind::LeftNotApplication => "LeftNotApplication",
            FaultKind::VariableTwice => "VariableTwice",
            FaultKind::QualifiedUnknown => "QualifiedUnknown",
            FaultKind::SideLong => "SideLong",
            FaultKind::SchemaNeeds => "SchemaNeeds",
            FaultKind::QualifiedTwice => "QualifiedTwice",
            FaultKind::ExpansionPast => "ExpansionPast",
            FaultKind::QualifierCircle => "QualifierCircle",
            FaultKind::ClassesPast => "ClassesPast",
            FaultKind::MembersPast => "MembersPast",
        }
    }
}

/// A fault and the byte at which it stands.
#[derive(Clone, Copy, Debug, PartialEq, Eq)]
pub struct Fault {
    /// What is wrong.
    pub kind: FaultKind,
    /// Where, in bytes counted from 0.
    pub byte: usize,
}

/// The fault of a token that cannot stand in its place.
pub fn misplaced(token: Token) -> Fault
    ensures { result ≡ misplaced token }
{
    let kind = match token.kind {
        TokenKind::End => FaultKind::Unended,
        found => FaultKind::Expected { found },
    };
    Fault {
        kind,
        byte: token.from,
    }
}
