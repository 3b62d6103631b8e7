//! What threads share: chains, cells in a row, numbers that are drawn, the table of types, items
//! that workers link concurrently, and dynamic constants.
#![tactic(auto)]

mod both;
#[cfg(test)]
mod buckets;
#[cfg(test)]
mod cells;
#[cfg(test)]
mod chains;
pub mod constants;
#[cfg(test)]
mod drawing;
#[cfg(test)]
mod draws;
#[cfg(test)]
mod entry;
#[cfg(test)]
mod full;
#[cfg(test)]
mod held;
#[cfg(test)]
mod places;
#[cfg(test)]
mod playing;
#[cfg(test)]
mod prelinked;
#[cfg(test)]
mod races;
#[cfg(test)]
mod slots;
#[cfg(test)]
mod types;

pub use both::release_both;
