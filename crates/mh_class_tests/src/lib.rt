//! Class files: their texts, constant pools and call sites, those that are made, and what attempts
//! link at call sites. The class files and the call sites are for other crates of tests too.
#![tactic(auto)]

#[cfg(test)]
mod broken;
#[cfg(test)]
mod cuts;
#[cfg(test)]
mod faults;
pub mod files;
#[cfg(test)]
mod linked_calls;
#[cfg(test)]
mod linked_files;
#[cfg(test)]
mod links;
#[cfg(test)]
mod made;
#[cfg(test)]
mod pool;
#[cfg(test)]
mod reader;
pub mod sites;
#[cfg(test)]
mod texts;
#[cfg(test)]
mod untried;
