// The words behind a program's name.
ghost use Rattle.std.specs.Prelude.{◌≡◌, map, string_bytes};
ghost use Rattle.commandline.specs.Requests.{request_in, option};

/// What a program is asked for. A program that does not take an option answers it as `Unknown`.
#[derive(Clone, Copy, Debug, PartialEq, Eq)]
pub enum Request {
    /// no word at all: the program's plain work
    Plain,
    /// `--help`
    Help,
    /// `--map`
    Map,
    /// `--demo`
    Demo,
    /// any other word, or more than one
    Unknown,
}

/// The request in the words behind the program's name. An option stands alone.
pub fn request_in(words: &[String]) -> Request
    ensures { result ≡ request_in (map string_bytes words.now) }
{
    match words {
        [] => Request::Plain,
        [word] => option(word.as_bytes()),
        _ => Request::Unknown,
    }
}

// What one word asks for.
#[tactic(auto, unfolding(crate::specs::Requests::option))]
fn option(word: &[u8]) -> Request
    ensures { result ≡ option word.now }
{
    match word {
        b"--help" => Request::Help,
        b"--map" => Request::Map,
        b"--demo" => Request::Demo,
        _ => Request::Unknown,
    }
}
