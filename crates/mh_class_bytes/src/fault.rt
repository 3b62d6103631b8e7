/// The first place at which bytes are not of a format: the place, counted from the first byte, and
/// what is wrong there.
#[derive(Clone, Copy, Debug, PartialEq, Eq)]
pub struct Fault<K> {
    pub at: usize,
    pub kind: K,
}
