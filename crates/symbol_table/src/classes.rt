// The classes of constants by their names.
ghost use Rattle.std.specs.Prelude.{◌≡◌, ◌≢◌, MatchOption};
ghost use Rattle.eq_base.specs.declared.meeting.SymbolClass.{SymbolClass as Class};
ghost use Rattle.symbol_table.specs.Table.{class_name};

use eq_base::SymbolClass;

const NUMERALS: &[u8] = b"integer_numerals";

const ATOMS: &[u8] = b"atomic_symbols";

const TRUTH_VALUES: &[u8] = b"truth_values";

const STRINGS: &[u8] = b"strings";

/// The class with that name.
pub fn class_named(name: &[u8]) -> Option<SymbolClass>
    ensures { MatchOption result ((class : Class) → name.now ≢ class_name class)
        (λ class. name.now ≡ class_name class) }
{
    if name == NUMERALS {
        Some(SymbolClass::Numerals)
    } else if name == ATOMS {
        Some(SymbolClass::Atoms)
    } else if name == TRUTH_VALUES {
        Some(SymbolClass::TruthValues)
    } else if name == STRINGS {
        Some(SymbolClass::Strings)
    } else {
        None
    }
}
