ghost use Rattle.std.specs.Prelude.{◌≡◌, ◌<◌, ℕ, List, IfOk, IfErr, MatchResult};
ghost use Rattle.jsh_snippet.specs.declared.acts.Entry.{Entry};
ghost use Rattle.jsh_core.specs.History.{replies_of, IsLegal};
ghost use Rattle.jsh_replay.specs.declared.journal_error.JournalError.TheVariants as error;
ghost use Rattle.jsh_replay.specs.Journal.{IsBadPlace, IsJournal};
ghost use Rattle.jsh_replay.specs.Faults.{HasCause, IsReplay, IsShortOr};

use crate::journal_error::JournalError;
use crate::reading::read_journal;
use jsh_core::Core;
use jsh_snippet::{Entry, Reply};
use jsh_steps::Steps;
use jsh_text::NoMemory;
use std::alloc::Global;
use std::marker::Brand;
use std::sync::ledger::{Blank, Ledger};

/// The replies to a legal history, by an engine of its own.
fn replies_to<L: Ledger>(
    alloc: Global,
    history: Vec<Entry>,
    blank: Blank,
) -> Result<Vec<Reply>, NoMemory>
    requires legal { IsLegal history.items }
    requires name { blank.name ≡ L.name }
    requires parts { blank.parts ≡ L.parts }
    requires some { 0 < L.parts }
    ensures { IfOk result (λ replies. replies.items ≡ replies_of history.items) }
{
    let mut steps = Steps::<L>::open(blank);
    let mut core = Core::new(alloc)?;
    let mut replies = Vec::new(alloc);
    for entry in history {
        let reply = core.apply(alloc, entry, &mut steps)?;
        replies.push(reply)?;
    }
    Ok(replies)
}

fn replayed(alloc: Global, bytes: &[u8]) -> Result<Vec<Reply>, JournalError>
    ensures { MatchResult result (λ replies. IsReplay bytes.now replies.items) (λ why. HasCause bytes.now why) }
{
    let history = read_journal(alloc, bytes)?;
    let replies = replies_to::<Brand>(alloc, history, Blank::new(1))?;
    Ok(replies)
}

/// The replies of the one-thread engine to the history whose journal these bytes are.
pub fn replay(alloc: Global, bytes: &[u8]) -> Result<Vec<Reply>, JournalError>
    ensures replies { IfOk result (λ replies. IsReplay bytes.now replies.items) }
    ensures place { IfErr result (λ why. HasCause bytes.now why) }

    // There is no other answer but want of memory.
    ensures journals { (history : List Entry) → IsJournal bytes.now history → MatchResult result (λ replies. replies.items ≡ replies_of history) (λ why. why ≡ error.NoMemory) }
    ensures places { (place : ℕ) → IsBadPlace bytes.now place → MatchResult result (λ replies. ⊥) (λ why. IsShortOr place why) }
{
    replayed(alloc, bytes)
}
