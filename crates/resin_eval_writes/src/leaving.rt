//! What a write that leaves carries, by its channel.
ghost use Rattle.resin_eval_nested.specs.Under.meaning_forms.Runs.{Runs};
ghost use Rattle.resin_eval_nested.specs.Under.meaning_forms.Writes.{IsTold, chain_for, channel_of, joined_mail, plain, prepared, sent};
ghost use Rattle.resin_eval_nested.specs.Under.journal.Access.{is_among};
ghost use Rattle.resin_eval_nested.specs.Under.journal.Channels.{is_leaving};
ghost use Rattle.resin_eval_nested.specs.Under.lstr.Texts.{first_run, policies_in_order};
ghost use Rattle.resin_eval_nested.specs.Under.machine.Leaving.{IsUnderWay, MayAskNow, MaySendNow};
ghost use Rattle.resin_eval_nested.specs.Under.meaning.LeavingWrites.{judged};
ghost use Rattle.resin_eval_nested.specs.Under.value.Changes.{empty as no_entries, put};
ghost use Rattle.resin_eval_nested.specs.Under.value.Keys.{is_lawful};
ghost use Rattle.resin_eval_nested.specs.Under.value.Trees.{text as text_tree};
ghost use Rattle.resin_eval_nested.specs.Under.value.declared.key.Key.{Key as AnyKey};
ghost use Rattle.std.specs.Prelude.{IfOk, IsTrue, List, OnOk, [], codes, false, unwrap_or, ℕ, ◌++◌, ◌<◌, ◌∷◌, ◌≡◌};

use crate::headers::header_line;
use resin_eval_nested::under::heap::PreludeClass;
use resin_eval_nested::under::journal::Channel;
use resin_eval_nested::under::lstr::LText;
use resin_eval_nested::under::machine::{Machine, Stop};
use resin_eval_nested::under::meaning_forms::Outgoing;
use resin_eval_nested::under::step_parts::reads::plain;
use resin_eval_nested::under::step_parts::values::behind;
use resin_eval_nested::under::value::{Arr, Key, KeyText, Value};
use std::alloc::{AllocError, Global};

/// The channel of a write.
pub fn channel_of(what: &Outgoing) -> Channel
    ensures value { result ≡ channel_of what.now }
    ensures leaving { IsTrue (is_leaving result) }
{
    match what {
        Outgoing::Page => Channel::Http,
        Outgoing::Header(_) | Outgoing::Status(_) => Channel::Header,
        Outgoing::Mail(_, _) => Channel::Email,
    }
}

/// The filters that are asked, as their chain stands; none about a status.
pub fn chain_for(alloc: Global, m: &Machine, what: &Outgoing) -> Result<Vec<u32>, AllocError>
    ensures { IfOk result (λ chain. chain.items ≡ chain_for what.now m.now) }
{
    match what {
        Outgoing::Status(_) => Ok(Vec::new(alloc)),
        _ => Ok(m.chains().chain(channel_of(what)).to_vec(alloc)?),
    }
}

/// The text that the policies are asked about: a header line is tested, and ValueError is thrown where it sets no header; a mail is joined,
/// and TextTooLong comes where no text is that long.
pub fn prepare(alloc: Global, m: &mut Machine, what: &Outgoing, text: LText) -> Result<LText, Stop>
    ensures { Runs (prepared what.now text) m.old result m.new }
{
    match what {
        Outgoing::Page => Ok(text),
        Outgoing::Status(_) => Ok(text),
        Outgoing::Header(_) => match header_line(alloc, text.bytes())? {
            Some(_) => Ok(text),
            None => m.throw(PreludeClass::ValueError, b""),
        },
        Outgoing::Mail(to, subject) => joined_mail(alloc, m, to, subject, &text),
    }
}

// An address, a subject and a message, on lines of their own.
fn joined_mail(
    alloc: Global,
    m: &mut Machine,
    to: &LText,
    subject: &LText,
    message: &LText,
) -> Result<LText, Stop>
    ensures { Runs (joined_mail to.now subject.now message.now) m.old result m.new }
{
    let line = plain(alloc, b"\n")?;
    let below = behind(alloc, m, &line, message)?;
    let named = behind(alloc, m, subject, &below)?;
    let rest = behind(alloc, m, &line, &named)?;
    behind(alloc, m, to, &rest)
}

/// The text goes out, of which exactly the policies returned in the write under way.
pub fn send(
    alloc: Global,
    m: &mut Machine,
    what: &Outgoing,
    write: u64,
    text: LText,
) -> Result<(), Stop>
    requires may { MaySendNow write text m.old }
    requires told { IsTold what.now text }
    ensures { Runs (sent what.now write text) m.old result m.new }
{
    match what {
        Outgoing::Page => m.send_page(write, text),
        Outgoing::Header(replace) => match header_line(alloc, text.bytes())? {
            Some(h) => m.send_header(write, text, h.name.as_slice(), h.value.as_slice(), *replace),
            None => m.throw(PreludeClass::ValueError, b""),
        },
        Outgoing::Status(status) => m.send_status(write, text, *status),
        Outgoing::Mail(_, _) => m.send_mail(write, text),
    }
}

/// A key with these bytes.
pub fn text_key(alloc: Global, bytes: &[u8]) -> Result<Key, AllocError>
    ensures { IfOk result (λ k. k ≡ AnyKey.Text bytes.now) }
{
    Ok(Key::Text(KeyText::from_slice(alloc, bytes)?))
}

/// An array with a text put at a key.
pub fn with_text(mut a: Arr, key: &Key, text: LText) -> Result<Arr, AllocError>
    requires { IsTrue (is_lawful key.now) }
    ensures { IfOk result (λ b. b ≡ put key.now (text_tree text) a) }
{
    match a.put(key, Value::Text(text)) {
        Ok(()) => Ok(a),
        Err(_) => Err(AllocError),
    }
}

/// What a check or a filter of a channel is told.
pub fn context_of(alloc: Global, name: &[u8]) -> Result<Arr, AllocError>
    ensures { IfOk result (λ a. a ≡ put (AnyKey.Text (codes "type")) (text_tree (plain name.now)) no_entries) }
{
    let key = text_key(alloc, b"type")?;
    with_text(Arr::new(alloc)?, &key, plain(alloc, name)?)
}

// The first range of bytes that carry a policy: its start and its end. Both are 0 where no byte does.
fn carrying_run(text: &LText, policy: u32) -> (usize, usize)
    ensures value { result ≡ unwrap_or (first_run policy text.now) (0, 0) }
    ensures range { IsTrue (is_among policy (policies_in_order text.now)) → result.0 < result.1 }
{
    match text.first_run_of(policy) {
        Some(run) => run,
        None => (0, 0),
    }
}

/// What the end of a policy's check means for the write under way: it passed, or the denial is noted and the exception goes on. The text
/// carries the policy.
pub fn judge(
    m: &mut Machine,
    write: u64,
    channel: Channel,
    text: &LText,
    policy: u32,
    end: Result<(), u32>,
) -> Result<(), Stop>
    requires may { MayAskNow write policy m.old }
    requires leaving { IsTrue (is_leaving channel) }
    requires carried { IsTrue (is_among policy (policies_in_order text.now)) }
    ensures does { Runs (judged write channel text.now policy end) m.old result m.new }
    ensures passed { OnOk result ((ps : List ℕ) → IsUnderWay write ps m.old → is_among policy ps ≡ false
        → IsUnderWay write (ps ++ policy ∷ []) m.new) }
{
    match end {
        Ok(()) => m.pass(write, policy),
        Err(thrown) => {
            let (from, to) = carrying_run(text, policy);
            m.deny(write, channel, policy, from as u64, to as u64, thrown)?;
            Err(Stop::Thrown(thrown))
        }
    }
}
