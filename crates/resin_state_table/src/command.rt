//! Words in acts.
use resin_stage::under::journal::Channel;

/// The channel that a word names; another word is a function's.
pub fn channel(word: &str) -> Channel {
    match word {
        "http" => Channel::Http,
        "header" => Channel::Header,
        "email" => Channel::Email,
        "file" => Channel::File,
        "sql" => Channel::Sql,
        "code" => Channel::Code,
        "input" => Channel::Input,
        _ => Channel::Func,
    }
}
