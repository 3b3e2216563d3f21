// What a file lists before its equations.
use crate::class_names::ClassNames;
use eq_base::Classes;
use symbol_table::Variables;

/// The classes of a file, and its variables.
#[derive(Drop)]
pub struct Listed {
    /// The names of the classes.
    pub class_names: ClassNames,
    /// The classes.
    pub classes: Classes,
    /// How many members the classes have together.
    pub members: usize,
    /// The variables.
    pub variables: Variables,
}
