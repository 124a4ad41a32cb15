//! A site.
ghost use Rattle.std.specs.Prelude.{◌≡◌, IfOk};
ghost use Rattle.resin_request.specs.Under.meaning.Runs.{Does, files_seen, seen, world};
ghost use Rattle.resin_request.specs.Requests.{request_program};

use resin_request::under::base::{Calls, Files, Tables};
use resin_request::under::http::InputArrays;
use resin_request::under::machine::{Machine, RuntimeClasses, Stop};
use resin_request::{Finish, Scripts, run_request};
use std::alloc::{AllocError, Global};
use std::marker::Model;

/// What a site keeps from one request to the next: the classes of the runtime, and the programs of the scripts that ran last. It is seen as the
/// ticks of fuel that each request has.
#[derive(Drop)]
pub struct Site {
    fuel: u32,
    runtime: RuntimeClasses,
    scripts: Scripts,
}

impl Model for Site {
    ghost use Rattle.std.specs.Prelude.{ℕ};

    ghost Value = { ℕ };

    ghost view = { λ s. s.fuel };
}

impl Site {
    /// A site whose requests have so many ticks of fuel each.
    pub fn new(alloc: Global, fuel: u32) -> Result<Site, AllocError>
        ensures { IfOk result (λ site. site ≡ fuel) }
    {
        Ok(Site {
            fuel,
            runtime: RuntimeClasses::new(alloc)?,
            scripts: Scripts::new(alloc)?,
        })
    }

    /// The ticks of fuel of each request.
    pub fn fuel(&self) -> u32
        ensures { result ≡ self.now }
    {
        self.fuel
    }

    /// How many texts of requests' scripts and of `boot.php` were read so far, those with a fault among them. A text that ran lately isn't read
    /// again: up to 64 programs are kept. The count stays at its last value.
    pub fn parses(&self) -> u64 {
        self.scripts.parses()
    }

    // The classes of the runtime.
    pub(crate) fn runtime(&self) -> &RuntimeClasses {
        &self.runtime
    }

    // One request over the programs that are kept.
    pub(crate) fn run<F: Files, T: Tables>(
        &mut self,
        alloc: Global,
        path: &[u8],
        inputs: InputArrays,
        m: &mut Machine,
        files: &mut F,
        tables: &mut T,
        calls: &mut Calls,
    ) -> Result<Finish, Stop>
        ensures kept { self.new ≡ self.old }
        ensures does { Does (request_program path.now inputs)
            (world m.old (files_seen (F.stored files.old) (F.faults files.old) (F.answers files.old))
            (seen (T.stored tables.old) (T.faults tables.old) (T.answers tables.old)) calls.old) result
            (world m.new (files_seen (F.stored files.new) (F.faults files.new) (F.answers files.new))
            (seen (T.stored tables.new) (T.faults tables.new) (T.answers tables.new)) calls.new) }
    {
        run_request(
            alloc,
            path,
            inputs,
            &mut self.scripts,
            m,
            files,
            tables,
            calls,
        )
    }
}
