// Listings, document 01, "The bracket text", and cards 6, 9 and 10: a table written as text, and read back. A listing is written from the lent
// table itself; one that is read is judged in a table of its own first. No pass takes longer than n log n in the rows, or than the text
// is long.
#![tactic(auto)]

mod forms;
mod links;
pub mod reading;
mod sort;
pub mod writing;
