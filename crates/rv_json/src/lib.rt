//! The JSON of what the lab answers.
#![tactic(auto)]

mod answer;
mod faults;
mod findings;
mod kinds;
mod names;
mod object;
mod parts;
mod rejected;
mod sent;
mod text;
mod words;

pub use faults::Fault;
pub use rejected::source_json;
pub use text::{answer_json, faults_json, reply_json};
