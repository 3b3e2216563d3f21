ghost use Rattle.std.specs.Prelude.{◌≡◌};
ghost use Rattle.ei_program.specs.Statuses.{number_of};

/// How a run ends.
#[derive(Clone, Copy, Debug, PartialEq, Eq)]
pub enum Status {
    /// Every term was answered, each by its normal form.
    Answered,
    /// Memory ran out.
    NoMemory,
    /// The words are no command line.
    Words,
    /// Every term was answered, some by a line that begins with `?`.
    Questions,
    /// The definitions file was refused.
    File,
    /// The equations break a restriction.
    Broken,
    /// A term of the input was refused.
    Term,
    /// A file or the input could not be read.
    ReadFailed,
    /// The output or the errors could not be written.
    WriteFailed,
    /// The input has more bytes than may be taken.
    InputLong,
}

impl Status {
    /// The exit status of the process, from 0 to 9 in the order of the variants.
    pub fn number(&self) -> u8
        ensures { result ≡ number_of self.now }
    {
        *self as u8
    }
}
