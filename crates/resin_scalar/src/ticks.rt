//! The fuel of a request.
ghost use Rattle.std.specs.Prelude.{◌≡◌, ◌+◌, ◌<◌, ◌≤◌, OnOk, OnErr};

/// The ticks that a request has left. Each evaluation, each 256 bytes of text that is worked on and each entry compared costs one.
#[derive(Debug, Drop)]
pub struct Ticks {
    pub left: u64,
}

/// A charge was larger than the ticks that were left.
#[derive(Clone, Copy, Debug, Eq, PartialEq)]
pub struct Spent;

impl Ticks {
    /// Charges `n` ticks. It is refused, and changes nothing, exactly where `n` is more than what is left.
    pub fn spend(&mut self, n: u64) -> Result<(), Spent>
        ensures enough { OnOk result (n ≤ self.old.left) }
        ensures charged { OnOk result (self.new.left + n ≡ self.old.left) }
        ensures short { OnErr result (self.old.left < n) }
        ensures kept { OnErr result (self.new.left ≡ self.old.left) }
    {
        if n > self.left {
            return Err(Spent);
        }
        self.left -= n;
        Ok(())
    }
}
