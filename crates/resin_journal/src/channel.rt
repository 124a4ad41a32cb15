//! Channels.
ghost use Rattle.std.specs.Prelude.{◌≡◌};
ghost use Rattle.resin_journal.specs.Channels.{channel_name};

/// A way that data takes. Data leaves by the first three; it is kept by files and tables, comes in as source text or input, and goes into
/// functions of scripts.
#[derive(Clone, Copy, Debug, Eq, PartialEq)]
pub enum Channel {
    /// The body of the response.
    Http,
    /// Header lines and the status of the response.
    Header,
    /// Mail.
    Email,
    /// Files that scripts read and write.
    File,
    /// Statements on tables, and the cells that they answer.
    Sql,
    /// Source text.
    Code,
    /// What the request brings.
    Input,
    /// Arguments of functions.
    Func,
}

impl Channel {
    /// The name by which scripts and the denial log call the channel.
    pub fn name(self) -> &'static str
        ensures { result.now ≡ channel_name self }
    {
        match self {
            Channel::Http => "http",
            Channel::Header => "header",
            Channel::Email => "email",
            Channel::File => "file",
            Channel::Sql => "sql",
            Channel::Code => "code",
            Channel::Input => "input",
            Channel::Func => "func",
        }
    }
}
