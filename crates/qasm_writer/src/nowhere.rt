//! A sink that takes nothing: what fits into a buffer before it stays there, and more is a fault.

ghost use Rattle.std.specs.Prelude.{[], false, Some};

use outside_io::{Failed, Sink};

/// No bytes, and how often some came.
#[derive(Drop)]
pub struct Nowhere {
    faults: u64,
}

impl Nowhere {
    /// None came so far.
    pub fn new() -> Self {
        Nowhere { faults: 0 }
    }
}

impl Sink for Nowhere {
    ghost held = { λ _. Some [] };

    ghost flushed = { λ _. false };

    ghost faults = { λ s. s.faults };

    fn write(&mut self, _piece: &[u8]) -> Result<usize, Failed> {
        self.faults = self.faults.saturating_add(1);
        Err(Failed)
    }

    fn flush(&mut self) -> Result<(), Failed> {
        self.faults = self.faults.saturating_add(1);
        Err(Failed)
    }
}
