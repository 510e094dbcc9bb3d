//! The words of the command line.
ghost use Rattle.std.specs.Prelude.{◌≡◌, ◌≢◌, ◌≤◌, ◌∷◌, [], ℕ, IfNone, IfSome, decimal};
ghost use Rattle.command_line.specs.Words.{texts};
ghost use Rattle.tool_program.specs.Words.{IsCommand, IsUsage};

use command_line::read_number;

/// What the program is to do.
#[derive(Clone, Copy, Debug, PartialEq, Eq)]
pub enum Command {
    /// Report the update whose text is in lines of so many characters.
    Show(u64),

    /// Answer a script request by request, whose updates are in lines of so many characters.
    Serve(u64),

    /// Answer a script, whose updates are in lines of so many characters, by so many workers.
    Watch(u64, u64),

    /// Make an update of so many entries, and read it back.
    Make(u64),
}

/// The most entries of an update that is made.
const MOST_ENTRIES: u64 = 10_000;

/// The most workers that answer a script.
const MOST_WORKERS: u64 = 8;

// The number from 1 to `most` that the text writes.
fn count(text: &str, most: u64) -> Option<u64>
    ensures some { IfSome result (λ n. (text.now ≡ decimal n) × (1 ≤ n) × (n ≤ most)) }
    ensures none { IfNone result ((n : ℕ) → 1 ≤ n → n ≤ most → text.now ≢ decimal n) }
{
    let n = read_number(text)?;
    if 1 <= n && n <= most { Some(n) } else { None }
}

// The command that these two words write.
fn two_words(name: &str, digits: &str) -> Option<Command>
    ensures some { IfSome result (λ command. IsCommand (name.now ∷ digits.now ∷ []) command) }
    ensures none { IfNone result (IsUsage (name.now ∷ digits.now ∷ [])) }
{
    match name {
        "show" => Some(Command::Show(read_number(digits)?)),
        "serve" => Some(Command::Serve(read_number(digits)?)),
        "make" => Some(Command::Make(count(digits, MOST_ENTRIES)?)),
        _ => None,
    }
}

// The command that these three words write.
fn three_words(name: &str, digits: &str, workers: &str) -> Option<Command>
    ensures some { IfSome result (λ command. IsCommand (name.now ∷ digits.now ∷ workers.now ∷ []) command) }
    ensures none { IfNone result (IsUsage (name.now ∷ digits.now ∷ workers.now ∷ [])) }
{
    match name {
        "watch" => {
            let width = read_number(digits)?;
            let workers = count(workers, MOST_WORKERS)?;
            Some(Command::Watch(width, workers))
        }
        _ => None,
    }
}

/// The command that the words write, none where they are no command.
pub fn read_words(words: &[String]) -> Option<Command>
    ensures some { IfSome result (λ command. IsCommand (texts words.now) command) }
    ensures none { IfNone result (IsUsage (texts words.now)) }
{
    match words {
        [name, digits] => two_words(name.as_str(), digits.as_str()),
        [name, digits, workers] => three_words(name.as_str(), digits.as_str(), workers.as_str()),
        _ => None,
    }
}
