//! The drawing of forms and call sites, and why two call sites share a form or do not.
#![tactic(auto)]

mod arrows;
mod boxes;
mod common;
mod drawing;
mod field;
mod label;
mod node;
mod place;
mod shown_form;
mod site;
mod why;

pub use drawing::draw_forms;
pub use place::{Place, push_places};
pub use shown_form::{ShownForm, shown_forms};
pub use site::Site;
pub use why::say_why;
