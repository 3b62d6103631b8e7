//! What an attempt links at a call site, and what it makes for that: definitions over trees, values
//! and types alone, with worked examples and theorems.
#![tactic(auto)]
