// Terms, patterns and equations.
#![tactic(auto)]

pub mod classes;
pub mod flat;
pub mod head;
mod kind;
pub mod limits;
mod making;
pub mod meeting;
pub mod numeral;
pub mod pattern;
mod preorder;
pub mod rules;
pub mod view;

pub use classes::{Classes, FIRST_CLASS};
pub use flat::{Flat, FlatMaker, same_tree};
pub use head::{Cell, Head, NoMemory};
pub use limits::{MOST_EQUATIONS, MOST_LEFT_CELLS, MOST_RIGHT_CELLS, MOST_TEXT_BYTES};
pub use meeting::{SymbolClass, clash, is_in_class, meets};
pub use numeral::push_numeral;
pub use pattern::{Pattern, PatternMaker};
pub use rules::{Equation, Op, Origin, Right, Rules};
pub use view::TermView;
