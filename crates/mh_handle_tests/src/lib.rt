//! Handles: no type stays held after they are made and called, each way to call one answers the
//! same, and values, forms, handles and answers go from thread to thread. Keys that fit.
#![tactic(auto)]

#[cfg(test)]
mod calls;
#[cfg(test)]
mod calls_tests;
mod edits;
#[cfg(test)]
mod handles;
#[cfg(test)]
mod keys_tests;
#[cfg(test)]
mod linkages;
#[cfg(test)]
mod passes;
mod racing;
#[cfg(test)]
mod trees;
#[cfg(test)]
mod trees_tests;
#[cfg(test)]
mod values;
