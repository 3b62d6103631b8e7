//! Dynamic constants that passes resolve one after the other, and that threads race for.

mod asking;
mod broken;
mod built;
#[cfg(test)]
mod passes;
#[cfg(test)]
mod racing;
#[cfg(test)]
mod rows;

pub use asking::{Answer, Recorded, first_pass, resolve, two_passes};
pub use broken::Broken;
pub use built::{Built, Entry, ladder, of_entries, wide};
