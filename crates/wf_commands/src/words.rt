//! The words on the command line.

ghost use Rattle.std.specs.Prelude.{◌≡◌};
ghost use Rattle.wf_commands.specs.Words.{are_batch, are_check};

/// One word of a command line.
pub type Word = String;

/// What a person can do about words that are no command.
pub const GRAMMAR: &str = "usage: conductor batch\n\
\x20 answers the HTTP requests on standard input, one after another, on standard output\n\
usage: conductor check\n\
\x20 says whether the document on standard input is a valid definition";

/// The words are `batch` and nothing else.
pub fn is_batch(words: &[Word]) -> bool
    ensures { result ≡ are_batch words.now }
{
    match words {
        [word] => word.as_str() == "batch",
        _ => false,
    }
}

/// The words are `check` and nothing else.
pub fn is_check(words: &[Word]) -> bool
    ensures { result ≡ are_check words.now }
{
    match words {
        [word] => word.as_str() == "check",
        _ => false,
    }
}
