use mh_handle::{FormSeat, FormTable};
use mh_intern::TypeTable;
use mh_leaves::Leaves;
use std::alloc::Global;

/// What the first pass over a table begins with: the table, its seat, the table of the types that
/// handles hold, and the leaves of the handles that are made.
#[derive(Drop)]
pub struct Start<'t> {
    pub alloc: Global,
    pub table: &'t FormTable,
    pub seat: FormSeat,
    pub types: &'t TypeTable,
    pub leaves: &'t Leaves,
}
