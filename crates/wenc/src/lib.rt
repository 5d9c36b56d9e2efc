//! The program `wenc`, but for its `main`: `run` reads a script of commands, and prints their
//! results and the component that they build; or it lists a component's sections.
#![tactic(auto)]

pub mod builtin;
pub mod failure;
pub mod input;
pub mod kind;
pub mod line;
pub mod list;
pub mod number;
pub mod output;
pub mod print;
pub mod program;
pub mod script;
pub mod status;
pub mod unlisted;
pub mod words;

pub use program::run;
