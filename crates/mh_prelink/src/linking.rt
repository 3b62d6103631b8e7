ghost use Rattle.std.specs.Prelude.{◌≡◌, ℕ, ◌<◌, ◌+◌, Some, None, MatchResult, OnOk};
ghost use Rattle.std.specs.declared.option.Option.{Option};

use std::sync::Wait;

/// What workers do with an item. They share the linking, and each has a pass of its own.
pub trait Linking {
    /// What one worker links with, and what it keeps of the items that it has linked.
    type Pass: Send + Drop;

    /// Why a worker takes no more items.
    type Stop: Send + Drop;

    // One step: the pass before, the item, the stop or none, and the pass after.
    ghost step: { Self → Self.Pass → ℕ → Option Self.Stop → Self.Pass → Type 0 };

    // The pass has the item.
    ghost has: { Self → Self.Pass → ℕ → Type 0 };

    // The pass has room for this many items.
    ghost room: { Self → Self.Pass → ℕ → Type 0 };

    // How many items there are.
    ghost items: { Self → ℕ };

    /// Links an item. The pass must have room for one.
    fn link<R: Wait>(&self, rt: &R, pass: &mut Self::Pass, item: u32) -> Result<(), Self::Stop>
        requires item { item < items self.now }
        requires room { room self.now pass.old 1 }
        ensures step { MatchResult result
            (λ _. step self.entry.now pass.old item None pass.new)
            (λ e. step self.entry.now pass.old item (Some e) pass.new) }
        ensures has { OnOk result (has self.entry.now pass.new item) }
        ensures kept { (k : ℕ) → has self.entry.now pass.old k
            → has self.entry.now pass.new k }
        ensures room { OnOk result ((n : ℕ) → room self.entry.now pass.old (n + 1)
            → room self.entry.now pass.new n) };

    // Room for some items is room for one.
    ghost less: { (s : Self) (p : Self.Pass) (n : ℕ) → room s p (n + 1) → room s p 1 };
}
