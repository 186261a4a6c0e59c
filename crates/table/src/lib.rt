// A lent table, a row of words for each capability: its rows, where a name stands, whether the rows are in order, and whether a request is
// allowed on them. Its functions are for the crates above. Those that ask something of their caller are internal, and none is exported
// to C.
#![tactic(auto)]

pub mod bits;
pub mod charge;
pub mod find;
pub mod groups;
mod judge;
pub mod lent;
mod limits;
pub mod masks;
pub mod ordered;
pub mod requests;
pub mod sheets;
pub mod spans;
pub mod states;
pub mod terms;
pub mod words;

// How many words a row has: as many as a record of `model` has values, and one more, since the mask of holders is two words.
pub const WIDTH: usize = 11;

// A row of a lent table.
pub type Row = [u32; WIDTH];

// A conflict sheet, a byte for each combination.
pub type SheetBytes = [u8; 18];
