//! The flow of a trial: files are made, routed, split into lines, joined again and put.
#![tactic(auto)]

mod connections;
mod defaults;
mod processors;
#[cfg(test)]
mod tests;
mod trial;

pub use trial::trial_flow;
