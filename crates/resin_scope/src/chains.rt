//! The filters of channels and of functions.
ghost use Rattle.std.specs.Prelude.{◌≡◌, [], ◌∷◌, ◌++◌, OnOk, OnErr};
ghost use Rattle.resin_scope.specs.Chained.{no_chains, chain_of, appended, without_filter, taken_out, function_chain, appended_to_function};

use crate::names::NameMap;
use resin_journal::Channel;
use std::alloc::{AllocError, Global};
use std::marker::Model;

// Filters in the order in which they are asked.
#[derive(Drop)]
struct Chain {
    filters: Vec<u32>,
}

impl Model for Chain {
    ghost use Rattle.std.specs.Prelude.{ℕ, List};

    ghost Value = { List ℕ };

    ghost view = { λ c. c.filters.items };
}

impl Chain {
    fn new(alloc: Global) -> Chain
        ensures { result ≡ [] }
    {
        Chain {
            filters: Vec::new(alloc),
        }
    }

    fn as_slice(&self) -> &[u32]
        ensures { result.now ≡ self.now }
    {
        self.filters.as_slice()
    }

    fn push(&mut self, f: u32) -> Result<(), AllocError>
        ensures ok { OnOk result (self.new ≡ self.old ++ f ∷ []) }
        ensures err { OnErr result (self.new ≡ self.old) }
    {
        self.filters.push(f)?;
        Ok(())
    }

    fn take_out(&mut self, f: u32)
        ensures { self.new ≡ without_filter f self.old }
    {
        self.filters.retain(|g| *g != f);
    }
}

/// The object numbers of the filters of each channel, and of those of each function name, in the order in which they are asked. Function names are
/// told apart by their bytes, so they are given in one letter case.
#[derive(Drop)]
pub struct Chains {
    alloc: Global,
    http: Chain,
    header: Chain,
    email: Chain,
    file: Chain,
    sql: Chain,
    code: Chain,
    input: Chain,
    func: Chain,
    functions: NameMap<Chain>,
}

impl Model for Chains {
    ghost use Rattle.resin_scope.specs.Chained.{FilterChains, chains_code};

    ghost Value = { FilterChains };

    ghost coded = { chains_code };

    ghost view = { λ s. record {
      http = s.http;
      header = s.header;
      email = s.email;
      file = s.file;
      sql = s.sql;
      code = s.code;
      input = s.input;
      func = s.func;
      functions = s.functions;
    } };
}

impl Chains {
    /// No filters. It takes no memory.
    pub fn new(alloc: Global) -> Chains
        ensures { result ≡ no_chains }
    {
        Chains {
            alloc,
            http: Chain::new(alloc),
            header: Chain::new(alloc),
            email: Chain::new(alloc),
            file: Chain::new(alloc),
            sql: Chain::new(alloc),
            code: Chain::new(alloc),
            input: Chain::new(alloc),
            func: Chain::new(alloc),
            functions: NameMap::new(alloc),
        }
    }

    /// The filters of a channel.
    pub fn chain(&self, at: Channel) -> &[u32]
        ensures { result.now ≡ chain_of at self.now }
    {
        match at {
            Channel::Http => self.http.as_slice(),
            Channel::Header => self.header.as_slice(),
            Channel::Email => self.email.as_slice(),
            Channel::File => self.file.as_slice(),
            Channel::Sql => self.sql.as_slice(),
            Channel::Code => self.code.as_slice(),
            Channel::Input => self.input.as_slice(),
            Channel::Func => self.func.as_slice(),
        }
    }

    /// Puts a filter last on a channel. After want of memory nothing is changed.
    pub fn append(&mut self, at: Channel, f: u32) -> Result<(), AllocError>
        ensures ok { OnOk result (self.new ≡ appended at f self.old) }
        ensures err { OnErr result (self.new ≡ self.old) }
    {
        match at {
            Channel::Http => self.http.push(f),
            Channel::Header => self.header.push(f),
            Channel::Email => self.email.push(f),
            Channel::File => self.file.push(f),
            Channel::Sql => self.sql.push(f),
            Channel::Code => self.code.push(f),
            Channel::Input => self.input.push(f),
            Channel::Func => self.func.push(f),
        }
    }

    /// Takes a filter off a channel, wherever it stands there. The others keep their order.
    pub fn take_out(&mut self, at: Channel, f: u32)
        ensures { self.new ≡ taken_out at f self.old }
    {
        match at {
            Channel::Http => self.http.take_out(f),
            Channel::Header => self.header.take_out(f),
            Channel::Email => self.email.take_out(f),
            Channel::File => self.file.take_out(f),
            Channel::Sql => self.sql.take_out(f),
            Channel::Code => self.code.take_out(f),
            Channel::Input => self.input.take_out(f),
            Channel::Func => self.func.take_out(f),
        }
    }

    /// The filters of a function name, none where nothing was put there.
    pub fn func_chain(&self, name: &[u8]) -> &[u32]
        ensures { result.now ≡ function_chain name.now self.now }
    {
        match self.functions.get(name) {
            Some(chain) => chain.as_slice(),
            None => &[],
        }
    }

    /// Puts a filter last at a function name. After want of memory nothing is changed.
    pub fn append_func(&mut self, name: &[u8], f: u32) -> Result<(), AllocError>
        ensures ok { OnOk result (self.new ≡ appended_to_function name.now f self.old) }
        ensures err { OnErr result (self.new ≡ self.old) }
    {
        let mut chain = Chain::new(self.alloc);
        if self.functions.has(name) {
            chain = self.functions.exchange(name, chain);
            let answer = chain.push(f);
            let _empty = self.functions.exchange(name, chain);
            return answer;
        }
        chain.push(f)?;
        self.functions.put(name, chain)
    }
}
