//! The class reader: class files by a stated part of the grammar of JVMS SE 17, chapter 4, read
//! without copying. The part is the format `class_file` of `specs/File.antt`.
#![tactic(auto)]

pub mod attribute_names;
mod attributes;
mod bootstraps;
mod class_attributes;
mod code;
mod code_attribute;
mod constant;
mod members;
pub mod opcodes;
mod reader;
mod site;
mod view;

pub use constant::{Constant, DynamicView, HandleRef, SiteView};
pub use mh_class_pool::{ClassError, ClassFault, ClassKind};
pub use reader::read;
pub use view::ClassView;
