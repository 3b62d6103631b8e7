//! The manifest: the classes and leaf methods of a run.
#![tactic(auto)]

mod index;
mod kinds;
mod leaves;
mod manifest;
mod naming;
mod reference;

pub use leaves::Leaves;
pub use manifest::{ManifestError, ManifestFault, ManifestKind, read_manifest, type_of};
pub use naming::{How, Missing};
pub use reference::{Reference, is_class_name, is_method_name, read_reference};
