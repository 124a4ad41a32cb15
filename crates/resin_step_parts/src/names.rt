//! The names by which scripts call functions.
ghost use Rattle.std.specs.Prelude.{◌≡◌, IfOk};
ghost use Rattle.resin_meaning_forms.specs.Names.{state_named, channel_named, own_named, find_callee};
ghost use Rattle.resin_meaning_forms.specs.Runs.{Runs};
ghost use Rattle.resin_step_parts.specs.Callees.{IsCalled};

use resin_meaning_forms::under::builtin::builtin_named;
use resin_meaning_forms::under::machine::{Machine, Stop};
use resin_meaning_forms::under::scan::words::spells;
use resin_meaning_forms::{Callee, ChannelFunction, StateFunction};

/// The function that works on the state and has this name, in any case of ASCII letters, `None` exactly where there is none.
#[tactic(auto, unfolding(resin_meaning_forms::specs::Names::state_named, resin_meaning_forms::specs::Names::state_names))]
pub fn state_named(name: &[u8]) -> Option<StateFunction>
    ensures { result ≡ state_named name.now }
{
    if spells(b"policy_add", name) {
        Some(StateFunction::PolicyAdd)
    } else if spells(b"policy_remove", name) {
        Some(StateFunction::PolicyRemove)
    } else if spells(b"policy_get", name) {
        Some(StateFunction::PolicyGet)
    } else if spells(b"filter_add", name) {
        Some(StateFunction::FilterAdd)
    } else if spells(b"filter_remove", name) {
        Some(StateFunction::FilterRemove)
    } else if spells(b"filter_func_add", name) {
        Some(StateFunction::FilterFunctionAdd)
    } else if spells(b"get_class", name) {
        Some(StateFunction::GetClass)
    } else if spells(b"sql_structure", name) {
        Some(StateFunction::SqlStructure)
    } else if spells(b"html_structure", name) {
        Some(StateFunction::HtmlStructure)
    } else {
        None
    }
}

/// The function of a channel that has this name, in any case of ASCII letters, `None` exactly where there is none.
#[tactic(auto, unfolding(resin_meaning_forms::specs::Names::channel_named, resin_meaning_forms::specs::Names::channel_names))]
pub fn channel_named(name: &[u8]) -> Option<ChannelFunction>
    ensures { result ≡ channel_named name.now }
{
    if spells(b"ob_start", name) {
        Some(ChannelFunction::BufferStart)
    } else if spells(b"ob_get_clean", name) {
        Some(ChannelFunction::BufferGetClean)
    } else if spells(b"ob_end_clean", name) {
        Some(ChannelFunction::BufferEndClean)
    } else if spells(b"ob_end_flush", name) {
        Some(ChannelFunction::BufferEndFlush)
    } else if spells(b"header", name) {
        Some(ChannelFunction::Header)
    } else if spells(b"http_response_code", name) {
        Some(ChannelFunction::ResponseCode)
    } else if spells(b"mail", name) {
        Some(ChannelFunction::Mail)
    } else if spells(b"file_put_contents", name) {
        Some(ChannelFunction::FilePutContents)
    } else if spells(b"file_get_contents", name) {
        Some(ChannelFunction::FileGetContents)
    } else if spells(b"unlink", name) {
        Some(ChannelFunction::Unlink)
    } else if spells(b"file_exists", name) {
        Some(ChannelFunction::FileExists)
    } else if spells(b"sql_query", name) {
        Some(ChannelFunction::SqlQuery)
    } else {
        None
    }
}

/// The function of the runtime that has a name, `None` exactly where there is none: a script may then declare one of it.
pub fn own_named(name: &[u8]) -> Option<Callee>
    ensures { result ≡ own_named name.now }
{
    if let Some(f) = state_named(name) {
        return Some(Callee::State(f));
    }
    if let Some(f) = channel_named(name) {
        return Some(Callee::Channel(f));
    }
    match builtin_named(name) {
        Some(b) => Some(Callee::Builtin(b)),
        None => None,
    }
}

/// What a call by name reaches. UndefinedFunction comes exactly where there is nothing of the name.
pub fn find_callee(m: &Machine, name: &[u8]) -> Result<Callee, Stop>
    ensures runs { Runs (find_callee name.now) m.now result m.now }
    ensures called { IfOk result (λ callee. IsCalled name.now callee) }
{
    if let Some(callee) = own_named(name) {
        return Ok(callee);
    }
    Ok(Callee::Script(m.find_function(name)?))
}
