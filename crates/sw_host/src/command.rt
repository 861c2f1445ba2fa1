//! The words.

ghost use Rattle.std.specs.Prelude.{◌≡◌, ◌≤◌, IfSome};
ghost use Rattle.sw_host.specs.Words.{AreWithin, by_workers, command_of, needs_disk, number_of, number_within, one_word, three_words, two_words};

use itoa::Buffer;

/// What the words ask for.
#[derive(Debug, Clone, Copy, PartialEq, Eq)]
pub enum Command {
    /// Formats the disk.
    Init,
    /// Runs a recording on the disk, by so many workers.
    Replay(u32),
    /// The same, with look-ups beside the lock.
    Watch(u32),
    /// Runs a recording on the disk by one worker, and forgets keys while what is kept takes more bytes than these.
    Quota(u32),
    /// Prints what the disk keeps.
    Show,
    /// Runs the generated recording of this number and size on a disk of its own.
    Gen(u32, u32),
    /// Checks imported scripts, as a recording says.
    Imports,
    /// Says whether a transcript is one that a recording can have.
    Audit,
    /// Plays the lines of a roster.
    Roster,
    /// Prints how the program is called.
    Help,
    /// Prints the program's name and version.
    Version,
    /// No command.
    Unknown,
}

// The number that a word is.
fn number_of(word: &str) -> Option<u32>
    ensures { result ≡ number_of word.now }
{
    match word.parse::<u32>() {
        Ok(number) => {
            let mut buffer = Buffer::new();
            if buffer.format(number) == word {
                Some(number)
            } else {
                None
            }
        }
        Err(_) => None,
    }
}

// The number that a word is, where it is one from `least` to `most`.
fn number_within(word: &str, least: u32, most: u32) -> Option<u32>
    ensures number { result ≡ number_within least most word.now }
    ensures within { IfSome result (λ number. (least ≤ number) × (number ≤ most)) }
{
    match number_of(word) {
        Some(number) => {
            if least <= number && number <= most {
                Some(number)
            } else {
                None
            }
        }
        None => None,
    }
}

// The command that is one word.
fn one_word(word: &str) -> Command
    ensures command { result ≡ one_word word.now }
    ensures within { AreWithin result }
{
    if word == "init" {
        Command::Init
    } else if word == "replay" {
        Command::Replay(1)
    } else if word == "show" {
        Command::Show
    } else if word == "imports" {
        Command::Imports
    } else if word == "audit" {
        Command::Audit
    } else if word == "roster" {
        Command::Roster
    } else if word == "--help" {
        Command::Help
    } else if word == "--version" {
        Command::Version
    } else {
        Command::Unknown
    }
}

// The command of a word and so many workers.
fn by_workers(word: &str, workers: u32) -> Command
    requires some { 1 ≤ workers }
    requires few { workers ≤ 16 }
    ensures command { result ≡ by_workers word.now workers }
    ensures within { AreWithin result }
{
    if word == "replay" {
        Command::Replay(workers)
    } else if word == "watch" {
        Command::Watch(workers)
    } else {
        Command::Unknown
    }
}

// The command that is two words.
fn two_words(word: &str, number: &str) -> Command
    ensures command { result ≡ two_words word.now number.now }
    ensures within { AreWithin result }
{
    if word == "quota" {
        return match number_of(number) {
            Some(limit) => Command::Quota(limit),
            None => Command::Unknown,
        };
    }
    match number_within(number, 1, 16) {
        Some(workers) => by_workers(word, workers),
        None => Command::Unknown,
    }
}

// The command that is three words.
fn three_words(word: &str, number: &str, size: &str) -> Command
    ensures command { result ≡ three_words word.now number.now size.now }
    ensures within { AreWithin result }
{
    if word != "gen" {
        return Command::Unknown;
    }
    match (number_of(number), number_within(size, 1, 4096)) {
        (Some(number), Some(size)) => Command::Gen(number, size),
        _ => Command::Unknown,
    }
}

// What the words ask for.
pub(crate) fn command_of(words: &[String]) -> Command
    ensures command { result ≡ command_of words.now }
    ensures within { AreWithin result }
{
    match words {
        [word] => one_word(word.as_str()),
        [word, number] => two_words(word.as_str(), number.as_str()),
        [word, number, size] => three_words(word.as_str(), number.as_str(), size.as_str()),
        _ => Command::Unknown,
    }
}

/// The words ask for the disk. Other words leave it as it is.
pub fn needs_disk(words: &[String]) -> bool
    ensures { result ≡ needs_disk (command_of words.now) }
{
    matches!(
        command_of(words),
        Command::Init
            | Command::Replay(_)
            | Command::Watch(_)
            | Command::Quota(_)
            | Command::Show
            | Command::Audit
    )
}
