// The reports of all calls on printed pages.
#![tactic(auto)]

mod answer;
mod lines;
mod put;

pub use answer::pages;
