//! Ticks, lines, and whether a check runs.
ghost use Rattle.std.specs.Prelude.{◌≡◌, ◌+◌, true, OnOk};
ghost use Rattle.resin_machine.specs.Steps.{Acts, charge, charge_bytes, awake, at_line};

use crate::machine::Machine;
use crate::stop::Stop;
use resin_heap::under::scalar::ScriptFault;

impl Machine {
    /// Takes so many ticks. FuelSpent comes exactly where that is more than what is left.
    pub fn charge(&mut self, count: u64) -> Result<(), Stop>
        ensures acts { Acts (charge count) self.old result self.new }
        ensures charged { OnOk result (self.new.ticks + count ≡ self.old.ticks) }
    {
        if self.ticks.spend(count).is_err() {
            return Err(Stop::Fault(ScriptFault::FuelSpent, self.line));
        }
        Ok(())
    }

    /// Takes the ticks of a text of so many bytes: one for each 256, rounded down.
    pub fn charge_bytes(&mut self, bytes: u64) -> Result<(), Stop>
        ensures acts { Acts (charge_bytes bytes) self.old result self.new }
    {
        self.charge(bytes / 256)
    }

    /// A channel may be used: ChannelInCheck comes exactly where a check, a merge or a filter runs that the runtime called.
    pub fn awake(&self) -> Result<(), Stop>
        ensures acts { Acts awake self.now result self.now }
    {
        if self.checking {
            return Err(Stop::Fault(ScriptFault::ChannelInCheck, self.line));
        }
        Ok(())
    }

    /// Sets the line, and answers the one before.
    pub fn set_line(&mut self, line: u32) -> u32
        ensures was { result ≡ self.old.line }
        ensures after { self.new ≡ at_line line self.old }
    {
        let was = self.line;
        self.line = line;
        was
    }

    /// A check, a merge or a filter begins that the runtime calls. Answers whether one ran.
    pub fn hush(&mut self) -> bool
        ensures was { result ≡ self.old.checking }
        ensures after { self.new ≡ record self.old { checking = true } }
    {
        let was = self.checking;
        self.checking = true;
        was
    }

    /// It is over.
    pub fn restore(&mut self, was: bool)
        ensures { self.new ≡ record self.old { checking = was } }
    {
        self.checking = was;
    }
}
