use crate::kinds::Status;
use jsh_text::UText;

/// A change of a snippet (`jdk.jshell.SnippetEvent`).
#[derive(Drop)]
pub struct Event {
    pub id: u32,
    /// The snippet's name as feedback shows it.
    pub name: UText,
    pub before: Status,
    pub after: Status,
    /// Code that was compiled against the snippet doesn't fit it any more.
    pub signature_changed: bool,
    /// The text of the default value that a variable was given anew.
    pub reset: Option<UText>,
    /// The snippet whose entry caused this event. None for that snippet's own event.
    pub cause: Option<u32>,
}
