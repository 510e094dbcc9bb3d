//! A law of the command line.
ghost use Rattle.tool_program.specs.Words.{WordsAreOneCommand};

/// The words of a command line are one command at most.
pub fn words_are_one_command()
    ensures { WordsAreOneCommand }
{}
