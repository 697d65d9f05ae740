ghost use Rattle.std.specs.Prelude.{◌≡◌};
ghost use Rattle.jsh_commands.specs.Commands.{act_of};

use jsh_snippet::{Act, Question, Target};

/// What a line asks for that is a command.
#[derive(Drop)]
pub enum Command {
    /// A snippet is taken back.
    Drop(Target),
    /// The run with this number is stopped.
    Stop(u32),
    /// All snippets are taken back.
    Reset,
    /// The client is done.
    Exit,
    Ask(Question),
}

impl Command {
    /// The act that the engine is asked for. None for the exit.
    pub fn act(self) -> Option<Act>
        ensures { result ≡ act_of self }
    {
        match self {
            Command::Drop(target) => Some(Act::Drop { target }),
            Command::Stop(run) => Some(Act::Stop { run }),
            Command::Reset => Some(Act::Reset),
            Command::Exit => None,
            Command::Ask(question) => Some(Act::Ask { question }),
        }
    }
}
