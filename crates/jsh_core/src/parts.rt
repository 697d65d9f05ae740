ghost use Rattle.std.specs.Prelude.{◌≡◌, ◌+◌, ◌<◌, ◌≤◌, ◌^◌, ◌++◌, length, option_map, IsSome, OnOk, Option, vec_len, vec_capacity};
ghost use Rattle.std.specs.Option.{option_to_list};
ghost use Rattle.jsh_core.specs.declared.world.Body.{Body};
ghost use Rattle.jsh_core.specs.declared.world.Thread.{Thread};
ghost use Rattle.jsh_core.specs.Limits.{most_entries, most_threads};
ghost use Rattle.jsh_core.specs.Parts.{generation_of, state_from, world_of, IsWorld};
ghost use Rattle.jsh_core.specs.Snippets.{main_thread, next_generation, with_run_of};

use crate::generation::Live;
use crate::lists::push_reserved;
use crate::world::{Cell, Run, Thread};
use jsh_sched::ThreadState;
use jsh_snippet::Record;
use jsh_text::{NoMemory, UText};

/// What the one-thread engine keeps beside its history.
#[derive(Drop)]
pub struct Parts {
    /// The snippets since the last reset.
    pub book: Vec<Record>,
    pub generation: GenerationParts,
    pub world: WorldParts,
    /// For each client that was numbered, whether it is still there.
    pub clients: Vec<bool>,
}

/// What is in force.
#[derive(Drop)]
pub struct GenerationParts {
    pub number: u64,
    /// By rising numbers of their records.
    pub live: Vec<Live>,
}

/// What snippets work on while they run.
#[derive(Drop)]
pub struct WorldParts {
    /// In the order in which their links were given.
    pub cells: Vec<Cell>,
    /// The state of thread i + 1 stands at place i, and so for what it runs.
    pub states: Vec<ThreadState>,
    pub threads: Vec<Thread>,
    pub runs: Vec<Run>,
    /// For each client, what its threads have printed and no reply has handed over.
    pub pending: Vec<UText>,
    /// How many threads are alive.
    pub alive: usize,
}

/// Room for a snippet and all that it may make.
pub fn reserve_snippet(parts: &mut Parts) -> Result<(), NoMemory>
    ensures same { state_from parts.new ≡ state_from parts.old }
    ensures alive { parts.new.world.alive ≡ parts.old.world.alive }
    ensures book { OnOk result (vec_len parts.new.book < vec_capacity parts.new.book) }
    ensures live { OnOk result (vec_len parts.new.generation.live < vec_capacity parts.new.generation.live) }
    ensures cells { OnOk result (vec_len parts.new.world.cells < vec_capacity parts.new.world.cells) }
    ensures states { OnOk result (vec_len parts.new.world.states < vec_capacity parts.new.world.states) }
    ensures threads { OnOk result (vec_len parts.new.world.threads < vec_capacity parts.new.world.threads) }
    ensures runs { OnOk result (vec_len parts.new.world.runs < vec_capacity parts.new.world.runs) }
{
    parts.book.reserve(1)?;
    parts.generation.live.reserve(1)?;
    parts.world.cells.reserve(1)?;
    parts.world.states.reserve(1)?;
    parts.world.threads.reserve(1)?;
    parts.world.runs.reserve(1)?;
    Ok(())
}

/// The next generation has a declaration more, where there is one. There is room for it.
pub fn add_live(generation: &mut GenerationParts, live: Option<Live>)
    requires room { vec_len generation.old.live < vec_capacity generation.old.live }
    requires few { generation.old.number + 1 < 2 ^ 64 }
    ensures after { generation_of generation.new ≡ next_generation (generation_of generation.old) live }
    ensures number { generation.new.number ≤ generation.old.number + 1 }
{
    if let Some(live) = live {
        generation.number += 1;
        push_reserved(&mut generation.live, live);
    }
}

/// A variable stands behind the others, where one is made. There is room for it.
pub fn add_cell(cells: &mut Vec<Cell>, made: Option<Cell>)
    requires { vec_len cells.old < vec_capacity cells.old }
    ensures { cells.new.items ≡ cells.old.items ++ option_to_list made }
{
    if let Some(cell) = made {
        push_reserved(cells, cell);
    }
}

/// A run of a client's snippet, where a thread is to evaluate it, and the number of the run. There is
/// room for it.
pub fn add_run(
    world: &mut WorldParts,
    client: u32,
    snippet: u32,
    thread: Option<Thread>,
) -> Option<u32>
    requires states { vec_len world.old.states < vec_capacity world.old.states }
    requires threads { vec_len world.old.threads < vec_capacity world.old.threads }
    requires runs { vec_len world.old.runs < vec_capacity world.old.runs }
    requires alive { IsSome thread → world.old.alive < most_threads }
    requires few_threads { length world.old.threads.items ≤ most_entries }
    requires few_runs { length world.old.runs.items ≤ most_entries }
    ensures after { (what : Option Body) → thread ≡ option_map (main_thread client) what → world_of world.new ≡ with_run_of (world_of world.old) client snippet what }
    ensures number { result ≡ option_map (λ (started : Thread). length world.old.runs.items + 1) thread }
    ensures sound { IsWorld world.old → IsWorld world.new }
{
    let thread = thread?;
    let main = world.threads.len() as u32 + 1;
    let number = world.runs.len() as u32 + 1;
    push_reserved(&mut world.states, ThreadState::Ready);
    push_reserved(&mut world.threads, thread);
    let run = Run {
        owner: client,
        main,
        snippet,
        stopper: None,
        gone: false,
    };
    push_reserved(&mut world.runs, run);
    world.alive += 1;
    Some(number)
}
