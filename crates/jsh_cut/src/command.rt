use jsh_snippet::Act;
use jsh_tree::SrcText;

/// What a client asks for.
#[derive(Drop)]
pub enum Command {
    /// The snippet with this source is to be evaluated.
    Eval(SrcText),
    /// This act is to be done, for a line that is a command.
    Slash(Act),
    /// The client is done.
    Exit,
}
