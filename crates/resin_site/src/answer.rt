//! What a request answers.
ghost use Rattle.std.specs.Prelude.{◌≡◌, ◌++◌, IfOk};
ghost use Rattle.resin_request.specs.Under.http.Response.{shown_body};

use crate::outcome::{End, Outcome};
use resin_request::under::base::Bytes;
use resin_request::under::http::HeaderList;
use resin_request::under::journal::Journal;
use std::alloc::{AllocError, Global};
use std::marker::Model;

/// What a request answers, with its body held once. It is seen as the outcome that it makes, whose response is the head and, unless only the head
/// was asked for, the body.
#[derive(Drop)]
pub struct Answer {
    pub(crate) end: End,
    pub(crate) status: u16,
    pub(crate) headers: HeaderList,
    pub(crate) head: Bytes,
    pub(crate) body: Bytes,
    pub(crate) head_only: bool,
    pub(crate) mail: Bytes,
    pub(crate) journal: Journal,
}

impl Model for Answer {
    ghost use Rattle.std.specs.Prelude.{◌++◌};
    ghost use Rattle.resin_request.specs.Under.http.Response.{shown_body};
    ghost use Rattle.resin_site.specs.declared.outcome.Outcome.{Outcome};

    ghost Value = { Outcome };

    ghost use Rattle.resin_site.specs.contracts.outcome.Outcome as outcomes;

    ghost coded = { outcomes.the_row.coded };

    ghost view = { λ a. record {
      end = a.end;
      status = a.status;
      headers = a.headers;
      body = a.body;
      response = a.head ++ shown_body a.head_only a.body;
      mail = a.mail;
      journal = a.journal;
    } };
}

/// What goes out of an answer.
#[derive(Drop)]
pub struct AnswerParts {
    /// The mail records.
    pub mail: Bytes,
    /// What of the response stands before its body.
    pub head: Bytes,
    /// The body of the response; it is empty where only the head was asked for.
    pub body: Bytes,
}

impl Answer {
    /// What the writes and filters did.
    pub fn journal(&self) -> &Journal
        ensures { result.now ≡ self.now.journal }
    {
        &self.journal
    }

    /// What goes out of it, of which nothing is copied. The rest is let go, the journal too.
    pub fn into_parts(self, alloc: Global) -> AnswerParts
        ensures mail { result.mail ≡ self.mail }
        ensures response { result.head ++ result.body ≡ self.response }
    {
        let Answer {
            end: _,
            status: _,
            headers: _,
            head,
            body,
            head_only,
            mail,
            journal: _,
        } = self;
        AnswerParts {
            mail,
            head,
            body: shown_body(alloc, body, head_only),
        }
    }

    /// The outcome, with the response as one text.
    pub fn into_outcome(self, alloc: Global) -> Result<Outcome, AllocError>
        ensures { IfOk result (λ outcome. outcome ≡ self) }
    {
        let response = self.response(alloc)?;
        let Answer {
            end,
            status,
            headers,
            head: _,
            body,
            head_only: _,
            mail,
            journal,
        } = self;
        Ok(Outcome {
            end,
            status,
            headers,
            body,
            response,
            mail,
            journal,
        })
    }

    // The text of the response.
    fn response(&self, alloc: Global) -> Result<Bytes, AllocError>
        ensures { IfOk result (λ text. text ≡ self.now.response) }
    {
        let mut text = Bytes::from_slice(alloc, self.head.as_slice())?;
        text.push_slice(shown_bytes(&self.body, self.head_only))?;
        Ok(text)
    }
}

// The body, unless only the head is wanted.
fn shown_body(alloc: Global, body: Bytes, head_only: bool) -> Bytes
    ensures { result ≡ shown_body head_only body }
{
    if head_only { Bytes::new(alloc) } else { body }
}

// Its bytes.
fn shown_bytes(body: &Bytes, head_only: bool) -> &[u8]
    ensures { result.now ≡ shown_body head_only body.now }
{
    if head_only { &[] } else { body.as_slice() }
}
