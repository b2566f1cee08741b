// Labels, choices, literals and paths, and what every kind of guard over them offers.
#![tactic(auto)]

pub mod choices;
pub mod kinds;
pub mod literals;
pub mod paths;

pub use choices::Choice;
pub use kinds::Guard;
pub use literals::{Literal, Sign};
pub use paths::{MOST_LITERALS, Path};
