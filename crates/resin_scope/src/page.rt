//! The answer under way.
ghost use Rattle.std.specs.Prelude.{◌≡◌, [], ◌∷◌, ◌++◌, ◌<◌, length, OnOk, OnErr, IfOk, MatchResult, Ok, Err};
ghost use Rattle.resin_scope.specs.Pages.{Buffers, is_same_name, is_kept_status, headers_with, status_with};

use crate::headers::Headers;
use resin_value::under::bytes::Bytes;
use resin_value::under::lstr::{LText, TextFault, Texts};
use std::alloc::{AllocError, Global};

/// The answer under way of a request: the status, the header lines that scripts set, the body that went out, the records of the mail that went out,
/// and the open output buffers from the outermost to the innermost.
#[derive(Drop)]
pub struct Page {
    pub status: u16,
    pub headers: Headers,
    pub body: Bytes,
    pub mail: Bytes,
    pub buffers: Texts,
}

impl Page {
    /// The status 200, and nothing else. It takes no memory.
    pub fn new(alloc: Global) -> Page
        ensures { result ≡ record { status = 200; headers = []; body = []; mail = []; buffers = [] } }
    {
        Page {
            status: 200,
            headers: Headers::new(alloc),
            body: Bytes::new(alloc),
            mail: Bytes::new(alloc),
            buffers: Texts::new(alloc),
        }
    }

    /// Puts a header last whose line was tested. Where `replace`, earlier headers of its name are taken out first; names are compared ignoring ASCII
    /// case. `Location` sets the status to 302 unless it is 201 or 300 to 399. After want of memory nothing is changed.
    pub fn put_header(
        &mut self,
        alloc: Global,
        name: &[u8],
        value: &[u8],
        replace: bool,
    ) -> Result<(), AllocError>
        ensures ok { OnOk result (self.new ≡ record self.old {
          status = status_with name.now self.old.status;
          headers = headers_with name.now value.now replace self.old.headers;
        }) }
        ensures err { OnErr result (self.new ≡ self.old) }
    {
        self.headers.put(alloc, name, value, replace)?;
        self.status = status_with(name, self.status);
        Ok(())
    }

    /// Appends a text to the innermost buffer. One must be open. `TooLong` comes exactly where that buffer would pass 16,777,216 bytes. After any
    /// refusal nothing is changed.
    pub fn add_buffered(&mut self, alloc: Global, t: &LText) -> Result<(), TextFault>
        requires { 0 < length self.old.buffers }
        ensures buffers { Buffers t.now self.old.buffers result self.new.buffers }
        ensures others { self.new ≡ record self.old { buffers = self.new.buffers } }
    {
        self.buffers = appended(alloc, self.buffers.as_slice(), t)?;
        Ok(())
    }
}

// The buffers with a text appended to the innermost. A text whose bytes are shared can't grow, so the innermost is copied; the others share theirs.
fn appended(alloc: Global, buffers: &[LText], t: &LText) -> Result<Texts, TextFault>
    requires { 0 < length buffers.now }
    ensures { MatchResult result (λ new. Buffers t.now buffers.now (Ok tt) new) (λ fault. Buffers t.now buffers.now (Err fault) buffers.now) }
{
    let innermost = buffers.len() - 1;
    let text = buffers[innermost].concat(alloc, t)?;
    let mut joined = copies(alloc, &buffers[..innermost])?;
    joined.push(text)?;
    Ok(joined)
}

// Whether two names of headers are the same.
fn same_name(a: &[u8], b: &[u8]) -> bool
    ensures { result ≡ is_same_name a.now b.now }
{
    a.eq_ignore_ascii_case(b)
}

// Copies of texts, which share their bytes.
fn copies(alloc: Global, texts: &[LText]) -> Result<Texts, AllocError>
    ensures { IfOk result (λ list. list ≡ texts.now) }
{
    let mut list = Texts::new(alloc);
    for t in texts {
        list.push(t.clone()?)?;
    }
    Ok(list)
}

// The status once a header of that name is put.
fn status_with(name: &[u8], status: u16) -> u16
    ensures { result ≡ status_with name.now status }
{
    if same_name(name, b"location") && !kept(status) {
        302
    } else {
        status
    }
}

// Whether a `Location` header leaves a status.
fn kept(status: u16) -> bool
    ensures { result ≡ is_kept_status status }
{
    status == 201 || (status >= 300 && status <= 399)
}
