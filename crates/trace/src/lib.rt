// Traces: event lines run on a table, document 01, "What each event does", last paragraph; and what `capcheck` prints of a run.
#![tactic(auto)]

mod report;
pub mod run;

pub use report::{Printed, check, check_text};
pub use rules::answers::number_of;
