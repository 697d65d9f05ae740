//! What holds of every history.

ghost use Rattle.std.specs.Prelude.{◌≡◌, ◌↔◌, ◌⊎◌, ℕ, List, Some, false};
ghost use Rattle.std.specs.Fmt.{signed_decimal};
ghost use Rattle.jsh_snippet.specs.declared.acts.Act.TheVariants as act;
ghost use Rattle.jsh_snippet.specs.declared.acts.Entry.{Entry};
ghost use Rattle.jsh_snippet.specs.declared.replies.Outcome.TheVariants as outcome;
ghost use Rattle.jsh_sum.specs.declared.sums.Sum.{Sum};
ghost use Rattle.jsh_sum.specs.Sum.{value_of};
ghost use Rattle.jsh_verdict.specs.declared.verdict.Verdict.TheVariants.{Accepted};
ghost use Rattle.jsh_verdict.specs.Verdict.{verdict};
ghost use Rattle.jsh_core.specs.declared.world.Run.{Run};
ghost use Rattle.jsh_core.specs.Snippets.{run_of};
ghost use Rattle.jsh_core.specs.Threads.{is_thread_alive};
ghost use Rattle.jsh_core.specs.Runs.{outcome_of};
ghost use Rattle.jsh_core.specs.Step.{step};
ghost use Rattle.jsh_core.specs.Causes.{IsOwnRun};
ghost use Rattle.jsh_core.specs.Fates.{WasStopped};
ghost use Rattle.jsh_core.specs.History.{state_after, state_of};

/// Who has stopped a run that is there is the client whose stop came while the run hadn't ended.
pub fn stops_have_entries()
    ensures stopper { (history : List Entry) (owner number who : ℕ) (run : Run) → IsOwnRun (state_of history) owner number run → (run.stopper ≡ Some who) ↔ WasStopped history who number }
{}

/// A run that a sum was given comes to the sum's value, whatever is done meanwhile, unless a client stops it.
pub fn sums_have_values()
    ensures value { (history more : List Entry) (client : ℕ) (source : List ℕ) (sum : Sum) (number : ℕ) (run : Run) → verdict source ≡ Accepted sum →
        let submitted = step (state_of history) (record { client = client; act = act.Submit source }) in
        run_of submitted.reply.body ≡ Some number → IsOwnRun (state_after submitted.state more) client number run →
        is_thread_alive (state_after submitted.state more).world run.main ≡ false →
        (outcome_of (state_after submitted.state more).world run ≡ outcome.Value (signed_decimal (value_of sum))) ⊎ ((who : ℕ) × (run.stopper ≡ Some who)) }
{}
