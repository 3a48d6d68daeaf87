//! Lists of numbers that are linked by index, with no memory taken: each number stands in at most one of them.
#![tactic(auto)]

mod links;
mod rings;

pub use links::Links;

#[cfg(test)]
mod tests;
