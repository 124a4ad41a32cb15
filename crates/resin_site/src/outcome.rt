//! What a request gives.
ghost use Rattle.std.specs.Prelude.{◌≡◌, ◌≢◌, ◌++◌, [], Err, IfOk, OnOk, unwrap_or, codes, decimal};
ghost use Rattle.resin_request.specs.Under.scalar.Faults.{fault_name};
ghost use Rattle.resin_request.specs.Under.journal.Lines.{line_of, log_of};
ghost use Rattle.resin_request.specs.Under.machine.declared.stop.Stop.TheVariants as stop;
ghost use Rattle.resin_request.specs.Under.stage.Stages.{Stage as TheStage};
ghost use Rattle.resin_site.specs.declared.outcome.End.TheVariants as ends;
ghost use Rattle.resin_request.specs.Under.machine.Keeping.{Tied};
ghost use Rattle.resin_site.specs.Laws.{IsLawful};
ghost use Rattle.resin_site.specs.Outcomes.{end_of, status_of, fixed_text, kind_at, outcome, with_parts, refused, refusal_text};

use crate::answer::Answer;
use itoa::Buffer;
use resin_request::under::base::Bytes;
use resin_request::under::http::{HeaderList, response_head, response_text};
use resin_request::under::journal::{Event, Journal, denial_line};
use resin_request::under::machine::{Finished, Machine, Stop};
use resin_request::under::scalar::ScriptFault;
use resin_request::{Finish, PLAIN_KIND, kind_of};
use std::alloc::{AllocError, Global};

/// How a request ended.
#[derive(Drop)]
pub enum End {
    /// The file ran to its end, or went out.
    Served,
    /// There is no such file.
    NotFound,
    /// An exception of this class was caught nowhere.
    Uncaught(Bytes),
    /// A script fault, at a line; 0 where no statement ran.
    Fault(ScriptFault, u32),
    /// A keeper call failed.
    Keeper,
}

/// What a request gives.
#[derive(Drop)]
pub struct Outcome {
    pub end: End,
    pub status: u16,
    /// The headers that the scripts set.
    pub headers: HeaderList,
    /// The body, with the fixed text of its end. It is whole for a HEAD request too.
    pub body: Bytes,
    /// The text of the response that these make.
    pub response: Bytes,
    /// The mail records.
    pub mail: Bytes,
    /// What the writes and filters did.
    pub journal: Journal,
}

// How a request ends; `Err` for want of memory alone.
fn end_of(alloc: Global, finish: Result<Finish, Stop>, m: &Machine) -> Result<End, AllocError>
    ensures end { IfOk result (λ end. end ≡ end_of finish m.now) }
    ensures memory { OnOk result (finish ≢ Err stop.Memory) }
{
    match finish {
        Ok(Finish::Answered) => Ok(End::Served),
        Ok(Finish::Missing) => Ok(End::NotFound),
        Err(Stop::Thrown(o)) => Ok(End::Uncaught(Bytes::from_slice(alloc, m.name_of(o))?)),
        Err(Stop::Exit) => Ok(End::Served),
        Err(Stop::Fault(fault, line)) => Ok(End::Fault(fault, line)),
        Err(Stop::Keeper) => Ok(End::Keeper),
        Err(Stop::Memory) => Err(AllocError),
    }
}

// The status of a request that ends so, whose scripts set this one.
fn status_of(end: &End, own: u16) -> u16
    ensures { result ≡ status_of end.now own }
{
    match end {
        End::Served => own,
        End::NotFound => 404,
        End::Uncaught(_) | End::Fault(_, _) => 500,
        End::Keeper => 503,
    }
}

// Puts the name of a script fault behind a body.
fn push_name(body: &mut Bytes, fault: ScriptFault) -> Result<(), AllocError>
    ensures { OnOk result (body.new ≡ body.old ++ codes "Script fault " ++ fault_name fault) }
{
    body.push_slice(b"Script fault ")?;
    body.push_slice(fault.name().as_bytes())
}

// Puts its line behind that.
fn push_place(body: &mut Bytes, line: u32) -> Result<(), AllocError>
    ensures { OnOk result (body.new ≡ body.old ++ codes " at line " ++ decimal line ++ codes "\n") }
{
    let mut buffer = Buffer::new();
    body.push_slice(b" at line ")?;
    body.push_slice(buffer.format(line).as_bytes())?;
    body.push_slice(b"\n")
}

// Puts the text of a script fault behind a body.
fn push_fault(body: &mut Bytes, fault: ScriptFault, line: u32) -> Result<(), AllocError>
    ensures { OnOk result (body.new ≡ body.old ++ fixed_text (ends.Fault fault line)) }
{
    push_name(body, fault)?;
    push_place(body, line)
}

// Puts the text of an uncaught exception behind a body.
fn push_uncaught(body: &mut Bytes, class: &Bytes) -> Result<(), AllocError>
    ensures { OnOk result (body.new ≡ body.old ++ fixed_text (ends.Uncaught class.now)) }
{
    body.push_slice(b"Uncaught ")?;
    body.push_slice(class.as_slice())?;
    body.push_slice(b"\n")
}

// Puts the text of an end behind a body.
fn push_fixed(body: &mut Bytes, end: &End) -> Result<(), AllocError>
    ensures { OnOk result (body.new ≡ body.old ++ fixed_text end.now) }
{
    match end {
        End::Served => Ok(()),
        End::NotFound => body.push_slice(b"Not found\n"),
        End::Uncaught(class) => push_uncaught(body, class),
        End::Fault(fault, line) => push_fault(body, *fault, *line),
        End::Keeper => body.push_slice(b"Keeper fault\n"),
    }
}

// The type of the answer for a path, where no header tells it.
fn kind_at(end: &End, path: &[u8]) -> &'static [u8]
    ensures { result.now ≡ kind_at end.now path.now }
{
    match end {
        End::NotFound => PLAIN_KIND,
        End::Served | End::Uncaught(_) | End::Fault(_, _) | End::Keeper => kind_of(path),
    }
}

// The answer of a request that ends so, with what left.
fn with_parts(
    alloc: Global,
    path: &[u8],
    head_only: bool,
    end: End,
    left: Finished,
) -> Result<Answer, AllocError>
    ensures { (s : TheStage) → left.status ≡ s.status → left.headers ≡ s.headers → left.body ≡ s.body → left.mail ≡ s.mail → left.journal ≡ s.journal
        → IfOk result (λ o. o ≡ with_parts path.now head_only end s) }
{
    let status = status_of(&end, left.status);
    let kind = kind_at(&end, path);
    let headers = left.headers.into_list(alloc)?;
    let mut body = left.body;
    push_fixed(&mut body, &end)?;
    let length = body.as_slice().len();
    let head = response_head(alloc, status, &headers, kind, length)?;
    Ok(Answer {
        end,
        status,
        headers,
        head,
        body,
        head_only,
        mail: left.mail,
        journal: left.journal,
    })
}

/// The answer to a request for a path, by how its steps came to their end and the machine that they left. `Err` for want of memory alone, which
/// may have been the end of the steps.
pub(crate) fn answer_for(
    alloc: Global,
    path: &[u8],
    head_only: bool,
    finish: Result<Finish, Stop>,
    m: Machine,
) -> Result<Answer, AllocError>
    ensures outcome { IfOk result (λ o. o ≡ outcome path.now head_only finish m) }
    ensures memory { OnOk result (finish ≢ Err stop.Memory) }
    ensures lawful { Tied m → IfOk result (λ o. IsLawful m.request o) }
{
    let end = end_of(alloc, finish, &m)?;
    with_parts(alloc, path, head_only, end, m.finish())
}

// Puts the line of an event behind others, where it has one.
fn push_line(alloc: Global, text: &mut Bytes, number: u64, event: &Event) -> Result<(), AllocError>
    ensures { OnOk result (text.new ≡ text.old ++ unwrap_or (line_of number event.now) []) }
{
    match denial_line(alloc, number, event)? {
        Some(line) => text.push_slice(line.as_slice()),
        None => Ok(()),
    }
}

/// The log of an answer of this number: the lines of its journal's denials, in order.
pub fn log_text(alloc: Global, number: u64, journal: &Journal) -> Result<Bytes, AllocError>
    ensures { IfOk result (λ text. text ≡ log_of number journal.now) }
{
    let events = journal.as_slice();
    let mut text = Bytes::new(alloc);
    for event in events {
        push_line(alloc, &mut text, number, event)?;
    }
    Ok(text)
}

/// The response of a stream that is refused with this status: `Request refused: s` and a newline, as plain text.
pub fn refusal(alloc: Global, status: u16) -> Result<Bytes, AllocError>
    ensures { IfOk result (λ text. text ≡ refusal_text status) }
{
    let headers = HeaderList::new(alloc);
    let body = refused(alloc, status)?;
    response_text(alloc, status, &headers, PLAIN_KIND, body.as_slice(), false)
}

// The body of a refusal.
fn refused(alloc: Global, status: u16) -> Result<Bytes, AllocError>
    ensures { IfOk result (λ text. text ≡ refused status) }
{
    let mut buffer = Buffer::new();
    let mut body = Bytes::from_slice(alloc, b"Request refused: ")?;
    body.push_slice(buffer.format(status).as_bytes())?;
    body.push_slice(b"\n")?;
    Ok(body)
}
