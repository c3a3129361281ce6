// The object record of tracked_object.rs, and the halves of tracker.rs that change one record: docs/RULES.md, rules 32, 45, 46, 61 and 62.
// That a record is in range and that a block has its size stay in the clauses: both depend on the settings at hand; a host may put any record into a table, and a struct of a lent `&mut` slice and a ghost field is no plainer.
#![tactic(auto)]

pub mod hitting;
pub mod merging;
pub mod opening;
pub mod predicting;

pub use hitting::hit;
pub use merging::merge;
pub use opening::open;
pub use predicting::predict;
