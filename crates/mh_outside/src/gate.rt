use std::hint;
use std::sync::atomic::{AtomicBool, Ordering};

/// A gate may hold a thread for a while, before and after it records the linkage of a site. It
/// changes nothing, and its calls answer nothing. Tests use one to bring about a given order of
/// threads.
pub trait Gate {
    /// Called by a thread that is about to record the linkage of a site.
    fn before_record(&self, thread: u32, site: u32);

    /// Called by a thread that has recorded the linkage of a site.
    fn after_record(&self, thread: u32, site: u32);
}

/// A gate that holds nobody.
#[derive(Clone, Copy, Debug, Default)]
pub struct OpenGate;

impl Gate for OpenGate {
    fn before_record(&self, _thread: u32, _site: u32) {}

    fn after_record(&self, _thread: u32, _site: u32) {}
}

/// The thread that a [`TestGate`] holds until the other has recorded.
const LOSER: u32 = 0;

/// The thread that a [`TestGate`] holds until the other has come.
const WINNER: u32 = 1;

/// How often a held thread looks whether it may go on.
const TURNS: u64 = 2_000_000_000;

/// A gate at which two threads that race for a site both attempt it, and thread 1 records first. It
/// holds thread 1 before it records until thread 0 has come to record too, and thread 0 until
/// thread 1 has recorded. Other threads pass at once.
///
/// Each of the two is held for 2,000,000,000 looks at most, so that nothing hangs if the other
/// thread never comes.
#[derive(Drop)]
pub struct TestGate {
    loser_came: AtomicBool,
    winner_recorded: AtomicBool,
    gave_up: AtomicBool,
}

impl TestGate {
    /// Whether a thread was let go because it had waited too long.
    pub fn gave_up(&self) -> bool {
        self.gave_up.load(Ordering::SeqCst)
    }

    // Holds the caller until the other one lets it go on.
    fn hold(&self, go_on: &AtomicBool) {
        for _ in 0..TURNS {
            if go_on.load(Ordering::SeqCst) {
                return;
            }
            hint::spin_loop();
        }
        self.gave_up.store(true, Ordering::SeqCst);
    }
}

impl Default for TestGate {
    /// A gate before any thread has come to it.
    fn default() -> Self {
        TestGate {
            loser_came: AtomicBool::new(false),
            winner_recorded: AtomicBool::new(false),
            gave_up: AtomicBool::new(false),
        }
    }
}

impl Gate for TestGate {
    fn before_record(&self, thread: u32, _site: u32) {
        match thread {
            LOSER => {
                self.loser_came.store(true, Ordering::SeqCst);
                self.hold(&self.winner_recorded);
            }
            WINNER => self.hold(&self.loser_came),
            _ => {}
        }
    }

    fn after_record(&self, thread: u32, _site: u32) {
        if thread == WINNER {
            self.winner_recorded.store(true, Ordering::SeqCst);
        }
    }
}
