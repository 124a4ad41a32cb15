//! The access law, event by event.
ghost use Rattle.std.specs.Prelude.{◌≡◌, nat_eq, IfOk};
ghost use Rattle.std.specs.Cmp.Lexicographic.{pointwise};
ghost use Rattle.resin_journal.specs.Access.{is_among};
ghost use Rattle.resin_journal.specs.Channels.{is_leaving};
ghost use Rattle.resin_audit.specs.Following as spec;

use crate::items::Told;
use indexmap::IndexSet;
use resin_journal::Channel;
use std::alloc::{AllocError, Global};
use std::marker::Model;

/// The last write of the events so far, which obey the access law.
#[derive(Drop)]
pub(crate) struct Law {
    alloc: Global,
    /// Its number, 0 where none began.
    write: u64,
    /// The policies that returned in it, in order.
    passed: IndexSet<u32>,
    /// Whether it went out or was denied.
    ended: bool,
}

impl Model for Law {
    ghost use Rattle.resin_audit.specs.Following.{Last};

    ghost Value = { Last };

    ghost view = { λ l. record { write = l.write; passed = l.passed.keys; ended = l.ended } };
}

impl Law {
    /// No event.
    pub(crate) fn new(alloc: Global) -> Law
        ensures { result ≡ spec.nothing_yet }
    {
        Law {
            alloc,
            write: 0,
            passed: IndexSet::new(alloc),
            ended: false,
        }
    }

    /// Begins a journal. The policies get a new set: to clear a set costs what it once held.
    pub(crate) fn restart(&mut self)
        ensures { self.new ≡ spec.nothing_yet }
    {
        self.write = 0;
        self.passed = IndexSet::new(self.alloc);
        self.ended = false;
    }

    /// Whether the events with this one behind them obey the access law too. It is one of the events then.
    pub(crate) fn admits(&mut self, told: &Told) -> Result<bool, AllocError>
        ensures { IfOk result (λ admitted. spec.Moves (spec.behind told.now self.old) admitted self.new) }
    {
        match told {
            Told::Passed { write, policy } => self.asks(*write, *policy),
            Told::Sent {
                write,
                channel,
                carried,
            } => Ok(self.sends(*write, *channel, carried.as_slice())),
            Told::Denied {
                write,
                channel,
                policy,
                from,
                to,
            } => Ok(self.denies(*write, *channel, *policy, *from < *to)),
            Told::FilterDenied { write, channel } => Ok(self.filters(*write, *channel)),
        }
    }

    // Whether a policy may return in this write.
    fn asks(&mut self, write: u64, policy: u32) -> Result<bool, AllocError>
        ensures { IfOk result (λ admitted. spec.Moves (spec.behind (Told.Passed write policy) self.old) admitted self.new) }
    {
        if !self.goes_on(write) {
            return Ok(false);
        }
        self.passes(policy)
    }

    // Whether a text may go out in this write that carries these policies: they are just those that returned.
    fn sends(&mut self, write: u64, channel: Channel, carried: &[u32]) -> bool
        ensures { spec.Moves (spec.behind (Told.Sent write channel carried.now) self.old) result self.new }
    {
        if !self.may_leave(write, channel) {
            return false;
        }
        let lawful = self.has_just(carried);
        self.ends(lawful)
    }

    // Whether a policy may deny some bytes in this write: it didn't return before.
    fn denies(&mut self, write: u64, channel: Channel, policy: u32, some: bool) -> bool
        ensures { spec.Moves (spec.denies write channel policy some self.old) result self.new }
    {
        if !self.may_leave(write, channel) {
            return false;
        }
        let lawful = some && !self.has(policy);
        self.ends(lawful)
    }

    // Whether a filter may deny in this write: no policy returned in it. Outside of the writes that leave it may always.
    fn filters(&mut self, write: u64, channel: Channel) -> bool
        ensures { spec.Moves (spec.behind (Told.FilterDenied write channel) self.old) result self.new }
    {
        if write == 0 {
            return !leaves(channel);
        }
        if !self.may_leave(write, channel) {
            return false;
        }
        let lawful = self.passed.is_empty();
        self.ends(lawful)
    }

    // Whether the policy returned in the last write.
    fn has(&self, policy: u32) -> bool
        ensures { result ≡ is_among policy self.now.passed }
    {
        self.passed.contains(&policy)
    }

    // Whether just these policies returned in the last write, in this order.
    fn has_just(&self, policies: &[u32]) -> bool
        ensures { result ≡ pointwise nat_eq self.now.passed policies.now }
    {
        self.passed.as_slice() == policies
    }

    // Whether a policy may return in the write: it didn't before.
    fn passes(&mut self, policy: u32) -> Result<bool, AllocError>
        ensures { IfOk result (λ admitted. spec.Moves (spec.passes policy self.old) admitted self.new) }
    {
        Ok(self.passed.insert(policy)?)
    }

    // Whether an event of this write may come: its number is above 0 and not below the last one, and it didn't end. A larger number begins it.
    fn goes_on(&mut self, write: u64) -> bool
        ensures { spec.Moves (spec.goes_on write self.old) result self.new }
    {
        if write > self.write {
            self.restart();
            self.write = write;
            return true;
        }
        write == self.write && 0 < write && !self.ended
    }

    // Whether an event of this write may come on this channel.
    fn may_leave(&mut self, write: u64, channel: Channel) -> bool
        ensures { spec.Moves (spec.may_leave write channel self.old) result self.new }
    {
        leaves(channel) && self.goes_on(write)
    }

    // Ends the write, where it may end so.
    fn ends(&mut self, lawful: bool) -> bool
        ensures { spec.Moves (spec.ends lawful self.old) result self.new }
    {
        self.ended = true;
        lawful
    }
}

// Whether data leaves by this channel.
fn leaves(channel: Channel) -> bool
    ensures { result ≡ is_leaving channel }
{
    match channel {
        Channel::Http | Channel::Header | Channel::Email => true,
        Channel::File | Channel::Sql | Channel::Code | Channel::Input | Channel::Func => false,
    }
}
