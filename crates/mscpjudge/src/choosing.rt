// What the words of a command line ask for: which log is read, and what is asked of it.

ghost use Rattle.mscpjudge.specs.Common.{string_bytes, Gives, asked_of, call_flagged, call_named, chosen, flagged, seen};
ghost use Rattle.std.specs.Prelude.{◌≡◌, ◌∷◌, [], map};

use crate::fault::Fault;

/// What is asked of a log.
#[derive(Clone, Copy)]
pub enum Call {
    /// Whether it is legal.
    Legal,
    /// What hosts would have heard.
    Host,
    /// Whether what went over the wire keeps the manual's rules.
    Wire,
    /// All that doesn't.
    All,
    /// What went over the wire, in words.
    Show,
}

/// What is asked, and the file that the log is in: `-` is standard input.
#[derive(Clone, Copy)]
pub struct Asked<'a> {
    pub call: Call,
    pub file: &'a str,
}

/// What a word asks for.
fn call_named(word: &str) -> Result<Call, Fault>
    ensures { result ≡ call_named word.now }
{
    match word {
        "legal" => Ok(Call::Legal),
        "host" => Ok(Call::Host),
        "wire" => Ok(Call::Wire),
        _ => Err(Fault::Usage),
    }
}

/// What a word behind `wire` asks for.
fn call_flagged(flag: &str) -> Option<Call>
    ensures { result ≡ call_flagged flag.now }
{
    match flag {
        "--all" => Some(Call::All),
        "--show" => Some(Call::Show),
        _ => None,
    }
}

/// What two words ask for, if the second is a flag of the first.
fn flagged(word: &str, flag: &str) -> Option<Call>
    ensures { result ≡ flagged word.now flag.now }
{
    match word {
        "wire" => call_flagged(flag),
        _ => None,
    }
}

/// What a word asks for of the log in this file.
fn about<'a>(word: &str, file: &'a str) -> Result<Asked<'a>, Fault>
    ensures { Gives seen result (asked_of file.now (call_named word.now)) }
{
    Ok(Asked {
        call: call_named(word)?,
        file,
    })
}

/// What two words ask for: `wire` and a flag, or another word and a file.
fn one_or_two<'a>(word: &str, second: &'a str) -> Result<Asked<'a>, Fault>
    ensures { Gives seen result (chosen (word.now ∷ second.now ∷ [])) }
{
    match flagged(word, second) {
        Some(call) => Ok(Asked { call, file: "-" }),
        None => about(word, second),
    }
}

/// What three words ask for: `wire`, a flag and a file.
fn with_flag<'a>(word: &str, flag: &str, file: &'a str) -> Result<Asked<'a>, Fault>
    ensures { Gives seen result (chosen (word.now ∷ flag.now ∷ file.now ∷ [])) }
{
    match flagged(word, flag) {
        Some(call) => Ok(Asked { call, file }),
        None => Err(Fault::Usage),
    }
}

/// What the words of a command line ask for, without the program's name: `legal`, `host`, or `wire` with or without
/// `--all` or `--show`, and a file or none. It is `legal` if there are none. It takes no memory.
pub(crate) fn asking_of(words: &[String]) -> Result<Asked<'_>, Fault>
    ensures { Gives seen result (chosen (map string_bytes words.now)) }
{
    match words {
        [] => Ok(Asked {
            call: Call::Legal,
            file: "-",
        }),
        [word] => about(word.as_str(), "-"),
        [word, second] => one_or_two(word.as_str(), second.as_str()),
        [word, flag, file] => with_flag(word.as_str(), flag.as_str(), file.as_str()),
        _ => Err(Fault::Usage),
    }
}
