//! How commands are spelled.
ghost use Rattle.script_lang.specs.Spelling.{CommandsHaveLines, LinesAreSpelled, SpellingsAreRead, SpellingsDiffer};

/// A law, which does nothing: a line is read as a command exactly where its words are those of the
/// command and the command may stand there. Of the commands that may stand in one place no two have
/// the same words, and each has a line.
pub fn commands_are_their_words()
    ensures read { LinesAreSpelled }
    ensures spelled { SpellingsAreRead }
    ensures each { CommandsHaveLines }
    ensures one_meaning { SpellingsDiffer }
{}
