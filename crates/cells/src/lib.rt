// Cells of three numbers, read in lent numbers.
#![tactic(auto)]

mod cell;
mod reader;

pub use cell::{Cell, is_item};
pub use reader::Reader;
