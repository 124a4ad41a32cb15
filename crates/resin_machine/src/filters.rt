//! Filters and imports.
ghost use Rattle.std.specs.Prelude.{◌≡◌};
ghost use Rattle.resin_machine.specs.Keeping.{IsInside};
ghost use Rattle.resin_machine.specs.Steps.{Acts};
ghost use Rattle.resin_machine.specs.Filters.{add_filter, without_filter, add_function_filter, is_imported, import_path};

use crate::machine::Machine;
use crate::objects::lowered;
use crate::stop::Stop;
use resin_stage::under::journal::Channel;

impl Machine {
    /// Puts a filter last on a channel.
    pub fn add_filter(&mut self, channel: Channel, filter: u32) -> Result<(), Stop>
        ensures acts { Acts (add_filter channel filter) self.old result self.new }
    {
        self.chains.append(channel, filter)?;
        Ok(())
    }

    /// Takes a filter off a channel, wherever it stands there. It takes no memory.
    pub fn remove_filter(&mut self, channel: Channel, filter: u32)
        ensures after { self.new ≡ without_filter channel filter self.old }
        ensures inside { IsInside self.old self.new }
    {
        self.chains.take_out(channel, filter);
    }

    /// Puts a filter last on the arguments of a function, by its name in any case of ASCII letters.
    pub fn add_function_filter(&mut self, name: &[u8], filter: u32) -> Result<(), Stop>
        ensures acts { Acts (add_function_filter name.now filter) self.old result self.new }
    {
        let name = lowered(self.alloc, name)?;
        self.chains.append_func(name.as_slice(), filter)?;
        Ok(())
    }

    /// Whether a path was imported.
    pub fn is_imported(&self, path: &[u8]) -> bool
        ensures { result ≡ is_imported path.now self.now }
    {
        self.imported.has(path)
    }

    /// A path counts as imported from here on.
    pub fn import(&mut self, path: &[u8]) -> Result<(), Stop>
        ensures acts { Acts (import_path path.now) self.old result self.new }
    {
        self.imported.put(path, ())?;
        Ok(())
    }
}
