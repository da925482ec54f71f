// Scripts of cases: a text of lines that set up memory and make calls of the library, and what the calls print.
// docs/SCRIPTS.md has the format.
#![tactic(auto)]

pub mod answer;
mod case;
pub mod layers;
pub mod line;
pub mod list;
pub mod number;
mod read;
mod replies;
pub mod requests;
pub mod run;
mod words;
