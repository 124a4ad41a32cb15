//! Sessions of visitors: which one a request has, what becomes `$_SESSION` before its file, and what is kept after it.
ghost use Rattle.std.specs.Prelude.{◌≡◌, IfOk, Some, None};
ghost use Rattle.std.specs.List.{list_all};
ghost use Rattle.std.specs.Option.{option_map};
ghost use Rattle.resin_inputs.specs.Under.scalar.Stops.{GivesOrNoMemory};
ghost use Rattle.resin_inputs.specs.Under.value.Seen.{tree_of};
ghost use Rattle.resin_interp.specs.Under.base.FileStore.{entry_of};
ghost use Rattle.resin_interp.specs.Under.eval_nested.Running.{Performs};
ghost use Rattle.resin_interp.specs.Under.meaning_forms.Runs.{Runs, on_ok};
ghost use Rattle.resin_interp.specs.Under.meaning_forms.Sessions as names;
ghost use Rattle.resin_interp.specs.Under.store.Entries.{AreWritten, Marked, lift};
ghost use Rattle.resin_request.specs.Sessions as spec;

use resin_inputs::InputArrays;
use resin_inputs::under::lstr::LText;
use resin_inputs::under::value::{Arr, CallStop, Key, KeyText, ScriptFault, Value};
use resin_interp::under::base::{Entry, Files, Tables};
use resin_interp::{
    Machine, Run, Stop, charge_bytes, freeze_text, session, set_session, thaw_entry,
};
use resin_session::{SessionFault, read_session, write_session};
use resin_shadow::encode;
use std::alloc::{AllocError, Global};

// `0` to `9`, or `a` to `f`.
fn is_name_byte(b: u8) -> bool
    ensures { result ≡ names.is_name_byte b }
{
    matches!(b, b'0'..=b'9' | b'a'..=b'f')
}

// Whether all bytes of a text may stand in a name.
fn are_name_bytes(text: &[u8]) -> bool
    ensures { result ≡ list_all names.is_name_byte text.now }
{
    text.iter().all(|b| is_name_byte(*b))
}

// Whether a text names a session.
fn is_session_name(name: &[u8]) -> bool
    ensures { result ≡ names.is_session_name name.now }
{
    name.len() == 32 && are_name_bytes(name)
}

// The name that a text is, if it is one.
fn name_in(text: &[u8]) -> Option<&[u8]>
    ensures { option_map (λ n. n.now) result ≡ spec.name_in text.now }
{
    if is_session_name(text) {
        Some(text)
    } else {
        None
    }
}

// The session that a value names: a text alone names one.
fn named_in(value: &Value) -> Option<&[u8]>
    ensures { option_map (λ n. n.now) result ≡ spec.named_in (tree_of value.now) }
{
    match value {
        Value::Text(text) => name_in(text.bytes()),
        _ => None,
    }
}

// The session that a cookie names, if there is one that does.
fn named_by(cookie: Option<&Value>) -> Option<&[u8]>
    ensures { option_map (λ n. n.now) result ≡ spec.named_by (option_map (λ v. tree_of v.now) cookie.entry) }
{
    match cookie {
        Some(value) => named_in(value),
        None => None,
    }
}

/// The session of a request: that which its cookie `sid` names as it came, by 32 bytes `0` to `9` or `a` to `f`, if it does.
pub(crate) fn session_of(alloc: Global, inputs: &InputArrays) -> Result<Option<&[u8]>, AllocError>
    ensures { IfOk result (λ name. option_map (λ n. n.now) name ≡ spec.session_of inputs.now) }
{
    let sid = Key::Text(KeyText::from_slice(alloc, b"sid")?);
    Ok(named_by(inputs.cookie.get(&sid)))
}

// The path of the entry of a session.
fn session_path(alloc: Global, name: &[u8]) -> Result<Vec<u8>, AllocError>
    ensures { IfOk result (λ path. path.items ≡ names.session_path name.now) }
{
    let mut path = Vec::from_slice(alloc, b".resin/s=")?;
    path.extend_from_slice(name)?;
    Ok(path)
}

// The array that a text keeps becomes `$_SESSION`.
fn set_kept(m: &mut Machine, kept: Option<Arr>) -> Result<(), Stop>
    ensures { Runs (spec.set_kept kept) m.old result m.new }
{
    match kept {
        Some(array) => {
            set_session(m, array);
            Ok(())
        }
        None => Err(m.fault(ScriptFault::BadSession)),
    }
}

// What an entry keeps becomes `$_SESSION`.
fn set_entry(alloc: Global, m: &mut Machine, e: &Entry) -> Result<(), Stop>
    ensures { Runs (spec.set_found (Some (lift e.now))) m.old result m.new }
{
    charge_bytes(m, e.bytes.as_slice().len() as u64)?;
    let text = thaw_entry(alloc, m, e)?;
    let kept = read_session(alloc, &text)?;
    set_kept(m, kept)
}

// `$_SESSION` is empty.
fn set_empty(alloc: Global, m: &mut Machine) -> Result<(), Stop>
    ensures { Runs (spec.set_found None) m.old result m.new }
{
    let empty = Arr::new(alloc)?;
    set_session(m, empty);
    Ok(())
}

// What was found becomes `$_SESSION`.
fn set_found(alloc: Global, m: &mut Machine, found: &Option<Entry>) -> Result<(), Stop>
    ensures { Runs (spec.set_found (option_map lift found.now)) m.old result m.new }
{
    match found {
        Some(e) => set_entry(alloc, m, e),
        None => set_empty(alloc, m),
    }
}

/// Reads the entry of a session, makes what it keeps `$_SESSION`, and answers the entry as it was found.
///
/// # Errors
///
/// `Keeper` where the read failed; `FuelSpent` where there is not a tick for each 256 bytes of the entry and for each policy that it keeps;
/// `TextTooLong` and `BadShadow` where it can't be thawed; `BadSession` where its text keeps no array.
pub(crate) fn begin_session<F: Files, T: Tables>(
    alloc: Global,
    run: &mut Run<F, T>,
    name: &[u8],
) -> Result<Option<Entry>, Stop>
    ensures { Performs F.Files T.Tables (spec.begin_session name.now) run.old (on_ok (option_map lift) result) run.new }
{
    let path = session_path(alloc, name)?;
    let found = run.read_file(path.as_slice())?;
    set_found(alloc, &mut run.machine, &found)?;
    Ok(found)
}

// The session text of an array.
fn text_of_array(alloc: Global, a: &Arr) -> Result<LText, CallStop>
    ensures { GivesOrNoMemory result (spec.text_of_entries a.now.entries) }
{
    match write_session(alloc, a) {
        Ok(text) => Ok(text),
        Err(SessionFault::NotStorable) => Err(CallStop::Fault(ScriptFault::NotStorable)),
        Err(SessionFault::TooLong) => Err(CallStop::Fault(ScriptFault::TextTooLong)),
        Err(SessionFault::Memory) => Err(CallStop::Memory),
    }
}

// The session text of a value.
fn text_of_value(alloc: Global, v: &Value) -> Result<LText, CallStop>
    ensures { GivesOrNoMemory result (spec.text_of_value v.now) }
{
    match v {
        Value::Arr(array) => text_of_array(alloc, array),
        _ => Err(CallStop::Fault(ScriptFault::NotStorable)),
    }
}

// Whether two entries have the same bytes and the same shadow text.
fn are_same(bytes: &[u8], shadow: &[u8], held: &[u8], held_shadow: &[u8]) -> bool
    ensures { result ≡ spec.is_same (entry_of bytes.now shadow.now) (entry_of held.now held_shadow.now) }
{
    bytes == held && shadow == held_shadow
}

// Whether these bytes and this shadow text are what was found, where nothing counts as empty.
fn is_held(found: &Option<Entry>, bytes: &[u8], shadow: &[u8]) -> bool
    ensures { result ≡ spec.is_same (entry_of bytes.now shadow.now) (spec.held (option_map lift found.now)) }
{
    match found {
        Some(e) => are_same(bytes, shadow, e.bytes.as_slice(), e.shadow.as_slice()),
        None => are_same(bytes, shadow, &[], &[]),
    }
}

// Writes an entry, where it isn't the one that was found.
fn write_changed<F: Files, T: Tables>(
    run: &mut Run<F, T>,
    path: &[u8],
    found: &Option<Entry>,
    bytes: &[u8],
    shadow: &[u8],
) -> Result<(), Stop>
    ensures { (d : Marked) → AreWritten bytes.now shadow.now d
        → Performs F.Files T.Tables (spec.write_changed path.now (option_map lift found.now) d) run.old result run.new }
{
    if is_held(found, bytes, shadow) {
        return Ok(());
    }
    run.write_file(path, bytes, shadow)
}

// A session text is charged, its policies are frozen, and it is written where it changed.
fn keep_text<F: Files, T: Tables>(
    alloc: Global,
    run: &mut Run<F, T>,
    name: &[u8],
    found: &Option<Entry>,
    text: &LText,
) -> Result<(), Stop>
    ensures { Performs F.Files T.Tables (spec.keep_text name.now (option_map lift found.now) text.now) run.old result run.new }
{
    charge_bytes(&mut run.machine, text.len() as u64)?;
    let marks = freeze_text(alloc, &run.machine, text)?;
    let _len = marks.len();
    let shadow = encode(alloc, &marks)?;
    let path = session_path(alloc, name)?;
    write_changed(run, path.as_slice(), found, text.bytes(), shadow.as_slice())
}

/// Keeps what `$_SESSION` holds, by a write exactly where bytes or shadow text differ from those that were found; where none were, from empty
/// ones.
///
/// # Errors
///
/// In this order: `NotStorable` where `$_SESSION` is no array, or holds what is neither an integer nor a text; `TextTooLong` where its text would
/// be longer than 16,777,216 bytes; `FuelSpent` where there is not a tick for each 256 bytes of it; `NotStorable` for a policy that can't be kept;
/// `Keeper` where the write failed.
pub(crate) fn end_session<F: Files, T: Tables>(
    alloc: Global,
    run: &mut Run<F, T>,
    name: &[u8],
    found: &Option<Entry>,
) -> Result<(), Stop>
    ensures { Performs F.Files T.Tables (spec.end_session name.now (option_map lift found.now)) run.old result run.new }
{
    let kept = text_of_value(alloc, session(&run.machine));
    let text = run.machine.settle(kept)?;
    keep_text(alloc, run, name, found, &text)
}
