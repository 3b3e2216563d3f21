ghost use Rattle.std.specs.Prelude.{◌≡◌, Some};

use crate::failed::Failed;
use crate::files::Files;
use crate::source::Source;

/// The chosen file of some files, as a source. Its fault count is that of the files.
#[derive(Drop)]
pub struct FileSource<'a, F: Files> {
    /// The files, which are the source's alone as long as it lives.
    pub files: &'a mut F,
}

impl<'a, F: Files> FileSource<'a, F> {
    /// A source of what is left of the chosen file. Where none is chosen each `read` fails.
    pub fn new(files: &'a mut F) -> FileSource<'a, F>
        ensures same { result.files.ghost_name ≡ files.entry.ghost_name }
        ensures now { result.files.now ≡ files.old }
    {
        FileSource { files }
    }
}

impl<'a, F: Files> Source for FileSource<'a, F> {
    ghost left = { λ s. F.rest s.files.now };

    ghost faults = { λ s. F.faults s.files.now };

    ghost through = { λ s. Some (s.files.ghost_name, F.named s.files.now) };

    fn read(&mut self, into: &mut [u8]) -> Result<usize, Failed> {
        self.files.read(into)
    }
}
