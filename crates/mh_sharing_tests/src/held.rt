ghost use Rattle.std.specs.Prelude.{◌≡◌, ◌+◌, ◌<◌, ◌^◌, ⊤};
ghost use Rattle.std.proofs.Common.{arith};

use mh_prelink::Linking;
use std::hint;
use std::sync::Wait;
use std::sync::atomic::{AtomicBool, AtomicU64, Ordering};

/// How often a worker that is held looks whether it may go on.
const TURNS: u64 = 2_000_000_000;

/// A linking of 4,096 items, whose pass counts how many it has linked. The first call of all waits
/// until this many others are done, and one item stops its worker.
#[derive(Drop)]
pub(crate) struct Held {
    others: u64,
    stops_at: u32,
    begun: AtomicU64,
    done: AtomicU64,
    gave_up: AtomicBool,
}

impl Held {
    /// No call has begun yet.
    pub(crate) fn new(others: u64, stops_at: u32) -> Held {
        Held {
            others,
            stops_at,
            begun: AtomicU64::new(0),
            done: AtomicU64::new(0),
            gave_up: AtomicBool::new(false),
        }
    }

    /// Whether the first call waited for so long that it went on before the others were done.
    pub(crate) fn gave_up(&self) -> bool {
        self.gave_up.load(Ordering::SeqCst)
    }

    /// Whether no call has begun.
    pub(crate) fn is_unused(&self) -> bool {
        self.begun.load(Ordering::SeqCst) == 0
    }

    // Holds the caller until the others are done.
    fn hold(&self) {
        for _ in 0..TURNS {
            if self.done.load(Ordering::SeqCst) >= self.others {
                return;
            }
            hint::spin_loop();
        }
        self.gave_up.store(true, Ordering::SeqCst);
    }
}

impl Linking for Held {
    type Pass = u32;

    type Stop = u32;

    ghost step = { λ s p k stop q. q ≡ p + 1 };

    ghost has = { λ s p k. ⊤ };

    ghost room = { λ s p n. p + n < 2 ^ 32 };

    ghost items = { λ s. 4096 };

    fn link<R: Wait>(&self, _rt: &R, pass: &mut u32, item: u32) -> Result<(), u32> {
        if self.begun.fetch_add(1, Ordering::SeqCst) == 0 {
            self.hold();
        }
        *pass += 1;
        self.done.fetch_add(1, Ordering::SeqCst);
        if item == self.stops_at {
            return Err(item);
        }
        Ok(())
    }

    ghost less = { λ s p n h. Prim.omega arith };
}
