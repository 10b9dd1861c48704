//! Laws of the machine over every state and every content: in which order it refuses, what a
//! refusal leaves as it was, what a step answers, and how a day's lifecycle pass stands among them.
#![tactic(auto)]

mod ranges;
mod refusals;
mod steps;
