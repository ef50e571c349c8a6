//! What is reported of a script in place of its replies, as values and as texts: offences with their reason,
//! conversations without one any more, and refusals.
#![tactic(auto)]

pub mod finding;
mod finding_line;
mod finding_object;
pub mod finding_text;
mod json_values;
mod refusal_words;
