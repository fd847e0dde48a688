// The commands, their words, and how much they read.

ghost use Rattle.std.specs.Prelude.{◌≡◌, ◌↔◌, IsTrue, MatchOption, string_bytes};
ghost use Rattle.br_top.specs.Commands.{AreWordsOf, AreWords, limit_of, reads_input};

use br_sexpr::MOST_BYTES;

/// What the program can be asked to do.
#[derive(Clone, Copy, Debug, PartialEq, Eq)]
pub enum Command {
    /// From a source text on the input to the text of its image.
    Compile,
    /// From a source text on the input to the canonical text of the same trees.
    Print,
    /// From the text of an image on the input to its listing.
    List,
    /// From a run script and the text of an image on the input to what the run shows.
    Run,
    /// From an interp script and a source text on the input to what the run shows.
    Interp,
    /// From nothing to the canonical text of the lightbulb's firmware. The input is not read.
    Firmware,
    /// From a trace text on the input to the verdict on its events.
    Judge,
}

/// The command with these words, which leave out the program's own name.
pub(crate) fn command_of(words: &[String]) -> Option<Command>
    ensures { MatchOption result (¬ AreWords words.now) (λ command. AreWordsOf words.now command) }
{
    match words {
        [word] if is_text(word, "compile") => Some(Command::Compile),
        [word] if is_text(word, "print") => Some(Command::Print),
        [word] if is_text(word, "list") => Some(Command::List),
        [word] if is_text(word, "run") => Some(Command::Run),
        [word] if is_text(word, "interp") => Some(Command::Interp),
        [word] if is_text(word, "firmware") => Some(Command::Firmware),
        [word] if is_text(word, "judge") => Some(Command::Judge),
        _ => None,
    }
}

fn is_text(word: &String, text: &str) -> bool
    ensures { IsTrue result ↔ (string_bytes word.now ≡ text.now) }
{
    word.as_str() == text
}

/// Whether a command reads its input.
pub(crate) fn reads_input(command: Command) -> bool
    ensures { result ≡ reads_input command }
{
    !matches!(command, Command::Firmware)
}

// The most bytes of any other input than a source text, a script and a text after it together.
const MOST_OTHER_BYTES: usize = 16_777_216;

/// How many bytes of input a command reads at most, which is 0 where it does not read it.
pub(crate) fn limit_of(command: Command) -> usize
    ensures { result ≡ limit_of command }
{
    match command {
        Command::Compile | Command::Print => MOST_BYTES,
        Command::List | Command::Run | Command::Interp | Command::Judge => MOST_OTHER_BYTES,
        Command::Firmware => 0,
    }
}
