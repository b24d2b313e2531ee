ghost use Rattle.krs_commands.specs.Command.{HaveTheirWords};

/// The first word of each command is read as that command: no two have one word.
pub fn each_command_has_its_word()
    ensures { HaveTheirWords }
{}
