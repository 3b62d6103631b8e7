/// Whether a run goes on, or ended by an exception, which its stack holds.
#[derive(Clone, Copy)]
pub(crate) enum Going {
    On,
    Threw,
}
