use mh_leaves::Leaves;

/// What stays as it is while an invocation runs: the leaves, and how many leaf calls were made
/// before its first.
#[derive(Clone, Copy)]
pub(crate) struct Invocation<'a> {
    pub(crate) leaves: &'a Leaves,
    pub(crate) n: u32,
}
