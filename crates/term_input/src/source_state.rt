// What the last answer of a source says of it.

/// What the last answer of a source says of it.
#[derive(Clone, Copy, Debug, PartialEq, Eq)]
pub enum SourceState {
    /// More may be left.
    Open,
    /// Nothing is left.
    AtEnd,
    /// A read failed.
    Failed,
}
