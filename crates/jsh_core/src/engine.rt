use crate::acts::perform;
use crate::allowed::is_allowed;
use crate::delivery::deliver;
use crate::lists::push_reserved;
use crate::log::{Log, kept_entry, make_room, new_log, push_entry, with_steps};
use crate::parts::{GenerationParts, Parts, WorldParts};
use crate::runs::view_run;
use crate::world::RunView;
use jsh_sched::ThreadState;
use jsh_snippet::{Entry, Reply};
use jsh_steps::Steps;
use jsh_text::{NoMemory, UText};
use std::alloc::Global;
use std::marker::Model;
use std::sync::ledger::Ledger;

/// The one-thread engine. Contracts see it as its history.
#[derive(Drop)]
pub struct Core {
    log: Log,
    parts: Parts,
}

impl Model for Core {
    ghost use Rattle.std.specs.Prelude.{List};
    ghost use Rattle.jsh_snippet.specs.declared.acts.Entry.{Entry};

    ghost Value = { List Entry };

    ghost use Rattle.jsh_core.specs.Stands.{StandsFor};

    ghost view = { λ c. c.log.history.items };

    ghost invariant = { λ c. StandsFor c.log c.parts };
}

impl Core {
    ghost use Rattle.std.specs.Prelude.{◌≡◌, ◌↔◌, ℕ, ◌∷◌, ◌++◌, [], ◌<◌, ◌^◌, length, slice_get, IfOk, IsOk, IsTrue, OnErr};
    ghost use Rattle.std.specs.Option.{option_copied, option_map};
    ghost use Rattle.jsh_snippet.specs.declared.acts.Act.TheVariants as act;
    ghost use Rattle.jsh_core.specs.declared.world.RunView.{RunView};
    ghost use Rattle.jsh_core.specs.Step.{kept, step};
    ghost use Rattle.jsh_core.specs.Runs.{run_view};
    ghost use Rattle.jsh_core.specs.Causes.{AnswerHasCause};
    ghost use Rattle.jsh_core.specs.Fates.{HasRun};
    ghost use Rattle.jsh_core.specs.History.{closed_at, source_bytes, state_of, Allows, IsLegal};
    ghost use Rattle.jsh_core.specs.Stands.{IsCutShort};

    /// An engine with client 0 alone, and room for its leave and its close.
    pub fn new(alloc: Global) -> Result<Core, NoMemory>
        ensures empty { IfOk result (λ core. core ≡ []) }
    {
        let log = new_log(alloc)?;
        let mut clients = Vec::with_capacity(alloc, 1)?;
        push_reserved(&mut clients, true);
        let mut pending = Vec::with_capacity(alloc, 1)?;
        push_reserved(&mut pending, UText::new(alloc));
        Ok(Core {
            log,
            parts: Parts {
                book: Vec::new(alloc),
                generation: GenerationParts {
                    number: 0,
                    live: Vec::new(alloc),
                },
                world: WorldParts {
                    cells: Vec::new(alloc),
                    states: Vec::new(alloc),
                    threads: Vec::new(alloc),
                    runs: Vec::new(alloc),
                    pending,
                    alive: 0,
                },
                clients,
            },
        })
    }

    /// Whether an entry may come next: what a host asks before `apply`.
    pub fn may_come(&self, entry: &Entry) -> bool
        ensures allows { IsTrue result ↔ Allows self.now entry.now }
    {
        is_allowed(&self.log, &self.parts, entry)
    }

    /// Does an entry, and answers it. After want of memory all is as before, but a turn keeps the
    /// steps that it has done. No act ticks yet.
    pub fn apply<L: Ledger>(
        &mut self,
        alloc: Global,
        entry: Entry,
        _steps: &mut Steps<L>,
    ) -> Result<Reply, NoMemory>
        requires { Allows self.old entry }
        ensures reply { IfOk result (λ reply. reply ≡ (step (state_of self.old) entry).reply) }
        ensures causes { IfOk result (λ reply. AnswerHasCause (state_of self.old) entry reply.body) }
        ensures history { IfOk result (λ reply. self.new ≡ self.old ++ kept entry reply ∷ []) }
        ensures err { OnErr result (IsCutShort self.old entry self.new) }

        // A client can always leave, and client 0 can always close.
        ensures leave { entry.act ≡ act.Leave → IsOk result }
        ensures close { entry.act ≡ act.Close → IsOk result }
        ensures ticks { _steps.new ≡ _steps.old }
    {
        make_room(&mut self.log, &entry.act)?;
        match perform(&mut self.parts, alloc, entry.client, &entry.act) {
            Ok(body) => {
                let reply = deliver(&mut self.parts, alloc, entry.client, body);
                push_entry(&mut self.log, kept_entry(entry, &reply));
                Ok(reply)
            }
            Err(cut) => {
                if cut.done > 0 {
                    push_entry(&mut self.log, with_steps(entry, cut.done));
                }
                Err(NoMemory)
            }
        }
    }

    /// The number of entries.
    pub fn len(&self) -> u64
        ensures entries { result ≡ length self.now }
    {
        self.log.history.len() as u64
    }

    /// How many clients were numbered, client 0 included.
    pub fn numbers(&self) -> u32
        ensures clients { result ≡ length (state_of self.now).clients }
    {
        self.parts.clients.len() as u32
    }

    /// The bytes of all sources in the history.
    pub fn source_bytes(&self) -> u64
        ensures bytes { result ≡ source_bytes self.now }
    {
        self.log.bytes
    }

    /// The place of the close, if one stands.
    pub fn closed_at(&self) -> Option<u64>
        ensures place { result ≡ closed_at self.now }
    {
        self.log.closed
    }

    /// A run, or None where it was never made, was collected or was dropped.
    pub fn run(&self, run: u32) -> Option<RunView>
        ensures view { result ≡ run_view (state_of self.now) run }

        // Whoever it is shown with made it, and has neither got it handed out nor left since, and nobody has reset all.
        ensures made { (owner : ℕ) → (option_map (λ (view : RunView). view.owner) result ≡ Some owner) ↔ HasRun self.now owner run }
    {
        view_run(&self.parts, run)
    }

    /// The state of thread i + 1 at place i.
    pub fn states(&self) -> &[ThreadState]
        ensures threads { result.now ≡ (state_of self.now).world.states }
        ensures few { length result.now < 2 ^ 32 }
    {
        self.parts.world.states.as_slice()
    }

    /// The entry at this place, from 0.
    pub fn entry(&self, place: u64) -> Option<&Entry>
        ensures found { option_copied result ≡ slice_get self.now place }
    {
        self.log.history.get(place as usize)
    }

    /// The entries, first to last.
    pub fn into_history(self) -> Vec<Entry>
        ensures items { result.items ≡ self }
        ensures legal { IsLegal self }
    {
        let Core { log, parts: _ } = self;
        let Log {
            history,
            bytes: _,
            closed: _,
        } = log;
        history
    }
}

#[cfg(test)]
mod tests;
