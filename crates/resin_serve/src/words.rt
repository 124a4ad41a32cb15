//! The words of the program.
ghost use Rattle.std.specs.Prelude.{◌≡◌, map, string_bytes};
ghost use Rattle.resin_serve.specs.Words.{is_word, number_up_to, logging_of, run_with, sample_of, task_of};

use crate::logging::Logging;

/// What the words ask for.
#[derive(Clone, Copy, Debug, PartialEq, Eq)]
pub enum Task {
    /// A run, with what its answers put into the log, and the ticks of each request.
    Run { logging: Logging, fuel: u32 },
    /// An audit.
    Audit,
    /// The run of the sample with so many pairs of requests.
    Sample { number: u32 },
}

/// What the words ask for: a run by `serve` and `record`, with 1,000,000 ticks for each request, or by one of them and `--fuel N`, with N from 1 to
/// 100,000,000 in decimal without sign or leading zero; an audit by `audit`; the sample by `sample N`, with N from 1 to 10,000 in the same form; None
/// for all other words. It takes no memory.
pub(crate) fn task_of(words: &[String]) -> Option<Task>
    ensures { result ≡ task_of (map string_bytes words.now) }
{
    if words.len() == 1 {
        if is_word(&words[0], b"audit") {
            return Some(Task::Audit);
        }
        return run_with(logging_of(&words[0]), Some(1_000_000));
    }
    if words.len() == 2 {
        if !is_word(&words[0], b"sample") {
            return None;
        }
        return sample_of(number_up_to(10_000, words[1].as_bytes()));
    }
    if words.len() != 3 {
        return None;
    }
    if !is_word(&words[1], b"--fuel") {
        return None;
    }
    run_with(
        logging_of(&words[0]),
        number_up_to(100_000_000, words[2].as_bytes()),
    )
}

// What the log of a run tells that begins with this word.
fn logging_of(word: &String) -> Option<Logging>
    ensures { result ≡ logging_of (string_bytes word.now) }
{
    if is_word(word, b"serve") {
        return Some(Logging::Denials);
    }
    if is_word(word, b"record") {
        return Some(Logging::Journals);
    }
    None
}

// A run with this log and so much fuel, where both are said.
fn run_with(logging: Option<Logging>, fuel: Option<u32>) -> Option<Task>
    ensures { result ≡ run_with logging fuel }
{
    match (logging, fuel) {
        (Some(logging), Some(fuel)) => Some(Task::Run { logging, fuel }),
        _ => None,
    }
}

// The sample of this size, where it is said.
fn sample_of(number: Option<u32>) -> Option<Task>
    ensures { result ≡ sample_of number }
{
    let number = number?;
    Some(Task::Sample { number })
}

fn is_word(word: &String, wanted: &[u8]) -> bool
    ensures { result ≡ is_word (string_bytes word.now) wanted.now }
{
    word.as_bytes() == wanted
}

// The number from 1 to the largest one that a word is.
fn number_up_to(most: u32, text: &[u8]) -> Option<u32>
    ensures { result ≡ number_up_to most text.now }
{
    if text.len() == 0 || text.len() > 9 {
        return None;
    }
    if text[0] == b'0' {
        return None;
    }
    let mut number: u64 = 0;
    for digit in text {
        if !digit.is_ascii_digit() {
            return None;
        }
        number = number * 10 + u64::from(*digit - b'0');
    }
    if number > u64::from(most) {
        return None;
    }
    Some(number as u32)
}
