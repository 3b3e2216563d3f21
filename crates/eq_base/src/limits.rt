// The limits on equations and values.

/// The most equations.
pub const MOST_EQUATIONS: usize = 2048;

/// The most cells of a left side.
pub const MOST_LEFT_CELLS: usize = 255;

/// The most cells of a right side.
pub const MOST_RIGHT_CELLS: usize = 65_535;

/// The most bytes of a string.
pub const MOST_TEXT_BYTES: usize = 65_535;
