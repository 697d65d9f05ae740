ghost use Rattle.std.specs.Prelude.{◌≡◌, ◌≢◌, ℕ, List};
ghost use Rattle.jsh_snippet.specs.declared.acts.Entry.{Entry};
ghost use Rattle.jsh_core.specs.State.{State};
ghost use Rattle.jsh_shell.specs.Progress.{Follows, Progress};
ghost use Rattle.jsh_shell.specs.Progress.Phase.{CutShort};

/// The entries of a journal take a client's progress one way, but for a turn that want of memory cut short.
pub fn one_way()
    ensures whole { (budget client : ℕ) (s : State) (p q r : Progress) (entries : List Entry) → Follows budget client s p entries q → Follows budget client s p entries r → q.phase ≢ CutShort → r.phase ≢ CutShort → q ≡ r }
    ensures rest { (budget client : ℕ) (s : State) (p q r : Progress) (entries : List Entry) → Follows budget client s p entries q → Follows budget client s p entries r → q ≡ record r { phase = q.phase } }
{}
