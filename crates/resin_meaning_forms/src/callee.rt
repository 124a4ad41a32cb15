//! What a call by name reaches.

use resin_builtin::Builtin;
use resin_target::under::tree::Function;

/// A function that works on the state of the request: it marks data, sets filters, or looks at what data are marked with.
#[derive(Clone, Copy, Debug, Eq, PartialEq)]
pub enum StateFunction {
    /// `policy_add`
    PolicyAdd,
    /// `policy_remove`
    PolicyRemove,
    /// `policy_get`
    PolicyGet,
    /// `filter_add`
    FilterAdd,
    /// `filter_remove`
    FilterRemove,
    /// `filter_func_add`
    FilterFunctionAdd,
    /// `get_class`
    GetClass,
    /// `sql_structure`
    SqlStructure,
    /// `html_structure`
    HtmlStructure,
}

/// A function of a channel: a check, a merge or a filter that the runtime called may not use it, but for those that only look.
#[derive(Clone, Copy, Debug, Eq, PartialEq)]
pub enum ChannelFunction {
    /// `ob_start`
    BufferStart,
    /// `ob_get_clean`
    BufferGetClean,
    /// `ob_end_clean`
    BufferEndClean,
    /// `ob_end_flush`
    BufferEndFlush,
    /// `header`
    Header,
    /// `http_response_code`
    ResponseCode,
    /// `mail`
    Mail,
    /// `file_put_contents`
    FilePutContents,
    /// `file_get_contents`
    FileGetContents,
    /// `unlink`
    Unlink,
    /// `file_exists`
    FileExists,
    /// `sql_query`
    SqlQuery,
}

/// What a call by name reaches.
#[derive(Drop)]
pub enum Callee {
    /// A function of a script.
    Script(Function),
    /// A function that works on its arguments alone.
    Builtin(Builtin),
    /// A function that works on the state of the request.
    State(StateFunction),
    /// A function of a channel.
    Channel(ChannelFunction),
}
