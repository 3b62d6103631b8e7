use mh_report::{Attempts, Serials, ThreadAnswers};

/// How a run ended. The lists are empty if no program ran to its end.
#[derive(Debug, Drop)]
pub struct TopAnswer {
    /// The exit status of the program.
    pub status: u8,
    /// By which attempt each call site is linked.
    pub table: Serials,
    /// All attempts, in the order of their serials.
    pub attempts: Attempts,
    /// The answer of each call, thread by thread: how it ended, which leaves it called, and how
    /// many keys the form has that it ran.
    pub threads: ThreadAnswers,
    /// By which attempt each dynamic constant is resolved.
    pub constants: Serials,
    /// All attempts to resolve dynamic constants, in the order of their serials. The number of the
    /// constant stands in the place of the site's.
    pub constant_attempts: Attempts,
}
