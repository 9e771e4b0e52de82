// What a serial line carries, as text: each packet as a line of lower-case hex, and a closing line (document 01, 'Program').
#![tactic(auto)]

mod ending;
mod lines;

pub use ending::closing_line;
pub use lines::{Listed, list};
