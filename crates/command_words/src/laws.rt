//! What holds of all words of the command line, proved as the contract of a function that does nothing.
ghost use Rattle.std.specs.Prelude.{◌≡◌, ◌↔◌, ℕ, List, Some};
ghost use Rattle.command_words.specs.Command.{IsInBounds, command_of, words_of};
ghost use Rattle.command_words.specs.declared.command.Command.{Command as TheCommand};

/// Words are a command exactly where they are its words, so each command has one list of words, and no list is two commands'.
pub fn commands_have_one_list_of_words()
    ensures { (words : List (List ℕ)) (command : TheCommand)
        → (command_of words ≡ Some command) ↔ ((words ≡ words_of command) × IsInBounds command) }
{}
