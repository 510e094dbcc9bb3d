//! A law of the command line.
ghost use Rattle.pack_program.specs.Words.{WordsAreOneOrder};

/// The words of a command line are one order at most.
pub fn words_are_one_order()
    ensures { WordsAreOneOrder }
{}
