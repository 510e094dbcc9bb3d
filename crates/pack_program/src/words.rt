//! The words of the command line.
ghost use Rattle.std.specs.Prelude.{◌∷◌, [], IfNone, IfSome};
ghost use Rattle.command_line.specs.Words.{texts};
ghost use Rattle.pack_program.specs.Views.{order_of};
ghost use Rattle.pack_program.specs.Words.{IsCommand, IsUsage};

use command_line::read_number;

/// What the program is to pack.
#[derive(Clone, Copy, Debug, PartialEq, Eq)]
pub struct Command<'w> {
    /// The path of the manifest.
    pub manifest: &'w str,

    /// How many characters a line of the text has.
    pub width: u64,
}

// The command that these three words write.
fn three_words<'w>(name: &str, manifest: &'w str, digits: &str) -> Option<Command<'w>>
    ensures some { IfSome result (λ command. IsCommand (name.now ∷ manifest.now ∷ digits.now ∷ []) (order_of command)) }
    ensures none { IfNone result (IsUsage (name.now ∷ manifest.now ∷ digits.now ∷ [])) }
{
    match name {
        "pack" => Some(Command {
            manifest,
            width: read_number(digits)?,
        }),
        _ => None,
    }
}

/// The command that the words write, none where they are no command.
pub fn read_words(words: &[String]) -> Option<Command<'_>>
    ensures some { IfSome result (λ command. IsCommand (texts words.now) (order_of command)) }
    ensures none { IfNone result (IsUsage (texts words.now)) }
{
    match words {
        [name, manifest, digits] => {
            three_words(name.as_str(), manifest.as_str(), digits.as_str())
        }
        _ => None,
    }
}
