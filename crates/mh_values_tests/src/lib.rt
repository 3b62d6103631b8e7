//! Values, conversions, kinds of leaves, lines of scripts, types of combinators, and runs of forms,
//! as far as no input of the program shows them.
#![tactic(auto)]

#[cfg(test)]
mod arrays;
mod bodies;
#[cfg(test)]
mod conversions;
#[cfg(test)]
mod joins;
#[cfg(test)]
mod leaves;
#[cfg(test)]
mod manifest;
#[cfg(test)]
mod names;
#[cfg(test)]
mod nodes;
#[cfg(test)]
mod parts;
#[cfg(test)]
mod rows;
#[cfg(test)]
mod script_lines;
#[cfg(test)]
mod scripts;
#[cfg(test)]
mod values;

pub use bodies::{gave, gives, naming, one, one_place, text};
