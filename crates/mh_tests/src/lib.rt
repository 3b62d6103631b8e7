//! Of whole runs what no case shows: threads that race, lack of memory, each write that fails; two
//! passes of one linker; and the outside.
#![tactic(auto)]

#[cfg(test)]
mod broken;
#[cfg(test)]
mod outside;
#[cfg(test)]
mod passes;
#[cfg(test)]
mod racing;
#[cfg(test)]
mod runs;
