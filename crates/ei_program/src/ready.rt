// Equations that can be used.
use sequentiality::Regular;
use symbol_table::Symbols;

/// Equations that break no restriction, and what they are written with.
#[derive(Drop)]
pub struct Ready {
    /// The equations, in their order.
    pub regular: Regular,
    /// What is declared and included, with atoms and strings.
    pub symbols: Symbols,
}
