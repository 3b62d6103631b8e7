use mh_base::Seq;

/// One attempt to link a call site: its thread, its site, and its serial number.
#[derive(Clone, Copy, Debug, PartialEq, Eq)]
pub struct Attempt {
    /// The thread, counted from 0.
    pub thread: u32,
    /// The call site, counted from 0 over all class files.
    pub site: u32,
    /// The serial: the number of the attempt among all attempts of the run, counted from 1.
    pub serial: u64,
}

/// The attempts of a run, by their serials.
pub type Attempts = Seq<Attempt>;

/// For each site the serial of the attempt that linked it, or `None` if no call names the site.
pub type Serials = Seq<Option<u64>>;
