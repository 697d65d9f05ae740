//! What holds of all lists of bytes.

ghost use Rattle.std.specs.Prelude.{◌≡◌, ◌<◌, ◌⊎◌, ℕ, List};
ghost use Rattle.std.specs.List.{AllByRecursion};
ghost use Rattle.jsh_snippet.specs.declared.acts.Entry.{Entry};
ghost use Rattle.jsh_replay.specs.Journal.{IsBadPlace, IsJournal};

/// Bytes are the journal of one history, or have one bad place, and never both.
pub fn one_reading()
    ensures some { (bytes : List ℕ) → AllByRecursion (λ byte. byte < 256) bytes → ((history : List Entry) × IsJournal bytes history) ⊎ ((place : ℕ) × IsBadPlace bytes place) }
    // No two histories share bytes.
    ensures history { (bytes : List ℕ) (one other : List Entry) → IsJournal bytes one → IsJournal bytes other → one ≡ other }
    ensures place { (bytes : List ℕ) (one other : ℕ) → IsBadPlace bytes one → IsBadPlace bytes other → one ≡ other }
    ensures not_both { (bytes : List ℕ) (history : List Entry) (place : ℕ) → IsJournal bytes history → IsBadPlace bytes place → ⊥ }
{}
