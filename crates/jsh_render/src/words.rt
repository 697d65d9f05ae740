//! The words for values of enums.

ghost use Rattle.std.specs.Prelude.{◌≡◌};
ghost use Rattle.jsh_render.specs.Words as spec;

use jsh_snippet::{Fate, LimitKind, Status};
use jsh_tree::Modifier;

pub fn status_word(status: Status) -> &'static str
    ensures { result.now ≡ spec.status_word status }
{
    match status {
        Status::Valid => "VALID",
        Status::RecoverableDefined => "RECOVERABLE_DEFINED",
        Status::RecoverableNotDefined => "RECOVERABLE_NOT_DEFINED",
        Status::Dropped => "DROPPED",
        Status::Overwritten => "OVERWRITTEN",
        Status::Rejected => "REJECTED",
        Status::Nonexistent => "NONEXISTENT",
    }
}

pub fn fate_word(fate: Fate) -> &'static str
    ensures { result.now ≡ spec.fate_word fate }
{
    match fate {
        Fate::Live => "LIVE",
        Fate::Done => "DONE",
        Fate::Overwritten => "OVERWRITTEN",
        Fate::Dropped => "DROPPED",
        Fate::Rejected => "REJECTED",
    }
}

pub fn modifier_word(modifier: Modifier) -> &'static str
    ensures { result.now ≡ spec.modifier_word modifier }
{
    match modifier {
        Modifier::Public => "public",
        Modifier::Protected => "protected",
        Modifier::Private => "private",
        Modifier::Static => "static",
        Modifier::Final => "final",
        Modifier::Volatile => "volatile",
        Modifier::Abstract => "abstract",
    }
}

/// The name of a limit as it is printed.
pub fn limit_name(limit: LimitKind) -> &'static str
    ensures { result.now ≡ spec.limit_name limit }
{
    match limit {
        LimitKind::Source => "Source",
        LimitKind::Records => "Records",
        LimitKind::History => "History",
        LimitKind::HistoryBytes => "HistoryBytes",
        LimitKind::Clients => "Clients",
        LimitKind::Threads => "Threads",
    }
}
