// Who may see what, and when: policies say which labels a viewer holds on a day, and a pass fixes
// the answer for one asking.
#![tactic(auto)]

pub mod combined;
pub mod partners;
pub mod passes;
pub mod questions;
pub mod ranges;
pub mod releases;

pub use combined::Either;
pub use partners::Partners;
pub use passes::Pass;
pub use questions::Policy;
pub use ranges::{Day, Viewer};
pub use releases::Release;
