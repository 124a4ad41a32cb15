//! What the items of a file say, as far as they are read.
ghost use Rattle.std.specs.Prelude.{◌≡◌, ◌-◌, ◌^◌, ◌<◌, ◌≤◌};
ghost use Rattle.resin_audit.specs.Progress.{none_yet, Begins, Notes, Goes, verdict_of};
ghost use Rattle.resin_audit.specs.Told.{next_item};

use crate::items::{Item, Told, read_item};
use crate::law::Law;
use crate::rest::Rest;
use crate::stop::Stop;
use crate::verdict::Verdict;
use std::alloc::Global;

/// What the items of a file say, as far as they are read.
#[derive(Drop)]
pub(crate) struct Progress {
    pub(crate) requests: u64,
    pub(crate) events: u64,
    /// How many of the events are of the last journal.
    pub(crate) here: u64,
    /// The last write of the last journal, while no journal broke the law.
    pub(crate) law: Law,
    /// The journal and the event that broke the law first.
    pub(crate) broken: Option<(u64, u64)>,
}

impl Progress {
    /// No item.
    pub(crate) fn new(alloc: Global) -> Progress
        ensures { result ≡ none_yet }
    {
        Progress {
            requests: 0,
            events: 0,
            here: 0,
            law: Law::new(alloc),
            broken: None,
        }
    }

    // Reads the next item, which has to go on with the file.
    pub(crate) fn read(&mut self, alloc: Global, rest: &mut Rest<'_>) -> Result<(), Stop>
        requires counted { self.now.here ≤ self.now.events }
        requires room { self.now.events < 2 ^ 64 - 1 }
        ensures { Goes (next_item rest.old) self.old result self.new rest.new }
    {
        match read_item(alloc, rest)? {
            Item::Request(number) => self.begin(number),
            Item::Happened(told) => self.note(&told),
        }
    }

    // Begins the journal of the next answer.
    fn begin(&mut self, number: u64) -> Result<(), Stop>
        ensures { Begins number self.old result self.new }
    {
        if number == 0 || number - 1 != self.requests {
            return Err(Stop::Form);
        }
        self.requests = number;
        self.here = 0;
        self.law.restart();
        Ok(())
    }

    // Notes an event of the last journal.
    fn note(&mut self, told: &Told) -> Result<(), Stop>
        requires counted { self.now.here ≤ self.now.events }
        requires room { self.now.events < 2 ^ 64 - 1 }
        ensures { Notes told.now self.old result self.new }
    {
        if self.requests == 0 {
            return Err(Stop::Form);
        }
        self.here += 1;
        self.events += 1;
        if self.broken.is_none() && !self.law.admits(told)? {
            self.broken = Some((self.requests, self.here));
        }
        Ok(())
    }

    // The verdict on a text of these items.
    pub(crate) fn verdict(&self) -> Verdict
        ensures { result ≡ verdict_of self.now }
    {
        match self.broken {
            Some((request, event)) => Verdict::Law { request, event },
            None => Verdict::Yes {
                requests: self.requests,
                events: self.events,
            },
        }
    }
}
