// Reading a case file: its lines, each with its number, in an order that they may stand in.
#![tactic(auto)]

mod faults;
mod line;
mod reader;

pub use faults::{BadLine, Unread};
pub use line::{Line, lines};
pub use reader::Reader;
