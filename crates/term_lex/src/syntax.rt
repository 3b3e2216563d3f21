/// A notation of terms.
#[derive(Clone, Copy, Debug, PartialEq, Eq)]
pub enum Syntax {
    /// A name, with its arguments in round brackets and commas between them.
    Standmath,
    /// A name, with its arguments in square brackets and semicolons between them, and lists in round ones.
    LispM,
}
