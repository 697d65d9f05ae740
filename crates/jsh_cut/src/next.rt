use crate::cutting::Cutting;
use crate::held::Held;
use jsh_snippet::Act;
use jsh_tree::SrcText;

/// What comes next of a line.
#[derive(Drop)]
pub enum Next {
    /// The snippet with this source is to be evaluated, and this is left.
    Eval(SrcText, Cutting),
    /// This act is to be done, and this is left.
    Slash(Act, Cutting),
    /// Nothing is left but this text, which waits for a line.
    Waits(Held),
    /// Nothing is left, and the line ends the input.
    Exit,
}
