ghost use Rattle.std.specs.Prelude.{◌≡◌, ◌-◌, ◌≤◌, ℕ, List, length, IfOk, IfErr, IfSome, IfNone, MatchResult};
ghost use Rattle.jsh_snippet.specs.declared.acts.Entry.{Entry};
ghost use Rattle.jsh_replay.specs.declared.journal_error.JournalError.TheVariants as error;
ghost use Rattle.jsh_replay.specs.Journal.{BeginsWithEntry, IsBadPlace, IsJournal, IsNext};
ghost use Rattle.jsh_replay.specs.Faults.{HasCause, IsShortOr};

use crate::entries::{behind_end, behind_header, entry_at};
use crate::halt::Halt;
use crate::journal_error::JournalError;
use crate::past::Past;
use jsh_snippet::Entry;
use jsh_text::NoMemory;
use std::alloc::Global;

/// The next entry, where one comes that may come behind those so far, and the bytes behind it.
fn next_entry<'a>(
    alloc: Global,
    past: &Past,
    bytes: &'a [u8],
) -> Result<Option<(Entry, &'a [u8])>, NoMemory>
    ensures found { IfOk result (λ next. IfSome next (λ x. IsNext past.now bytes.now x.0 x.1.now)) }
    ensures none { IfOk result (λ next. IfNone next (BeginsWithEntry past.now bytes.now → ⊥)) }
{
    match entry_at(alloc, bytes) {
        Ok((entry, rest)) => {
            if past.may_come(&entry) {
                Ok(Some((entry, rest)))
            } else {
                Ok(None)
            }
        }
        Err(Halt::NoItem) => Ok(None),
        Err(Halt::NoMemory) => Err(NoMemory),
    }
}

fn read_items(alloc: Global, bytes: &[u8]) -> Result<Vec<Entry>, JournalError>
    ensures { MatchResult result (λ history. IsJournal bytes.now history.items) (λ why. HasCause bytes.now why) }
{
    let Some(behind) = behind_header(bytes) else {
        return Err(JournalError::BadJournal { place: 0 });
    };
    let mut past = Past::new(alloc)?;
    let mut rest = behind;
    while let Some((entry, after)) = next_entry(alloc, &past, rest)? {
        past.push(entry)?;
        rest = after;
    }
    match behind_end(past.len(), rest) {
        None => Err(bad_journal(bytes, rest)),
        Some([]) => Ok(past.into_entries()),
        Some(more) => Err(bad_journal(bytes, more)),
    }
}

/// The bytes are bad where this rest of them begins.
fn bad_journal(bytes: &[u8], rest: &[u8]) -> JournalError
    requires { length rest.now ≤ length bytes.now }
    ensures { result ≡ error.BadJournal (length bytes.now - length rest.now) }
{
    JournalError::BadJournal {
        place: (bytes.len() - rest.len()) as u64,
    }
}

/// The history whose journal these bytes are. It goes over them once.
pub fn read_journal(alloc: Global, bytes: &[u8]) -> Result<Vec<Entry>, JournalError>
    ensures journal { IfOk result (λ history. IsJournal bytes.now history.items) }
    ensures place { IfErr result (λ why. HasCause bytes.now why) }

    // There is no other answer but want of memory.
    ensures journals { (history : List Entry) → IsJournal bytes.now history → MatchResult result (λ found. found.items ≡ history) (λ why. why ≡ error.NoMemory) }
    ensures places { (place : ℕ) → IsBadPlace bytes.now place → MatchResult result (λ found. ⊥) (λ why. IsShortOr place why) }
{
    read_items(alloc, bytes)
}
