//! What the seats of ruled tables have in common: the room of all of them, and lemmas on sums over
//! their views. It has definitions and lemmas alone.
#![tactic(auto)]
