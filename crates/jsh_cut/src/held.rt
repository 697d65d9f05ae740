use crate::waiting::Waiting;

/// The text that waits for a line.
#[derive(Debug, Drop)]
pub enum Held {
    Nothing,
    /// The text is a snippet, and more may follow.
    MayEnd(Waiting),
    /// More must follow.
    MustGoOn(Waiting),
}
