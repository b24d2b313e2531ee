ghost use Rattle.std.specs.Prelude.{◌+◌, ◌<◌, ◌^◌, ◌≡◌, ◌≤◌, Bool, IfErr, IfOk, ℕ};
ghost use Rattle.krs_words.specs.declared.{output.Output.Output, stop.Stop.Stop};
ghost use Rattle.krs_commands.specs.declared.command.Command.{Command};
ghost use Rattle.krs_script.specs.Running.{IsCause};

use krs_commands::Command;
use krs_words::{Output, Stop};
use std::alloc::Global;

/// A client, which carries commands out.
pub trait Carries {
    // What a contract sees of it between two commands.
    ghost State: { Type 0 };

    ghost state: { Self → State };

    // What no command changes.
    ghost Kept: { Type 0 };

    ghost kept: { Self → Kept };

    // How many asks were made, where that is counted.
    ghost asked: { State → ℕ };

    ghost refused: { State → Bool };

    // What a command does, from one state to another, and what it comes to.
    ghost acts: { State → Command → Output → State → Type 0 };

    // What one did that broke off, and for which cause.
    ghost breaks: { State → Command → Stop → State → Type 0 };

    /// What a command comes to, which takes two asks at most.
    fn act(&mut self, alloc: Global, command: Command) -> Result<Output, Stop>
        requires { asked (state self.old) + 2 < 2 ^ 64 }
        ensures ok { IfOk result (λ output. acts (state self.old) command output (state self.new)) }
        ensures err { IfErr result (λ stop. breaks (state self.old) command stop (state self.new)) }
        ensures causes { IfErr result IsCause }
        ensures few { asked (state self.new) ≤ asked (state self.old) + 2 }
        ensures kept { kept self.new ≡ kept self.old };

    /// Whether an ask was refused.
    fn is_refused(&self) -> bool
        ensures { result ≡ refused (state self.now) };
}
