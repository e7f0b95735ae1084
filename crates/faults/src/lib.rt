// Fault lists: what one means, what every make of one tells, and two makes.
#![tactic(auto)]

mod checking;
mod clocks;
mod fault_record;
mod list;
mod picking;
mod rows;
mod sizes;

pub use clocks::ClockList;
pub use fault_record::{FaultRecord, Span};
pub use list::FaultList;
pub use rows::RowList;
pub use sizes::{MAX_CLASS, MAX_CLOCKS, MAX_ENTRIES, MAX_FAULTS};
