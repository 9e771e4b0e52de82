// A stored vector replayed: the call that its line names is made with the line's arguments, and its results, as they are written in
// the line's form, are compared with what is stored. Nothing here is part of the port: it is a test of it.
#![tactic(auto)]

mod call;
mod calls;
mod compare;
mod disagreement;
mod error;
mod fields;
mod position;
mod receivers;
mod results;

pub use compare::{WAYS, replay};
pub use disagreement::Disagreement;
