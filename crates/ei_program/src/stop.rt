/// Why a run stops before its end.
#[derive(Clone, Copy, Debug, PartialEq, Eq)]
pub enum Stop {
    /// Memory ran out.
    NoMemory,
    /// A file or the input could not be read.
    ReadFailed,
    /// The output or the errors could not be written.
    WriteFailed,
}
