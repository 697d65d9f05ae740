//! How clients come and go, and what all of them lose together.

ghost use Rattle.std.specs.Prelude.{◌≡◌, ℕ, ◌+◌, ◌<◌, ◌^◌, length, map, IfOk, OnErr};
ghost use Rattle.jsh_core.specs.Clients as spec;
ghost use Rattle.jsh_core.specs.Generations.{emptied};
ghost use Rattle.jsh_core.specs.Runs.{dropped, dropped_for};
ghost use Rattle.jsh_core.specs.Parts.{generation_of, state_from, IsSound, IsWithin};

use crate::limits::MOST_CLIENTS;
use crate::lists::push_reserved;
use crate::parts::{GenerationParts, Parts};
use crate::stopping::stop_threads;
use crate::world::Run;
use jsh_snippet::{LimitKind, Refusal, ReplyBody};
use jsh_text::{NoMemory, UText};
use std::alloc::Global;

/// A further client gets the next number, up to a limit.
pub fn number_client(parts: &mut Parts, alloc: Global) -> Result<ReplyBody, NoMemory>
    requires sound { IsSound parts.old }
    ensures ok { IfOk result (λ answer. record { state = state_from parts.new; body = answer } ≡ spec.enter (state_from parts.old)) }
    ensures err { OnErr result (state_from parts.new ≡ state_from parts.old) }
    ensures sound { IsSound parts.new }
    ensures within { (entries : ℕ) → IsWithin entries parts.old → IsWithin entries parts.new }
{
    let number = parts.clients.len();
    if number >= MOST_CLIENTS {
        return Ok(ReplyBody::Refused(Refusal::Limit {
            which: LimitKind::Clients,
            count: MOST_CLIENTS as u64,
        }));
    }
    parts.clients.reserve(1)?;
    parts.world.pending.reserve(1)?;
    push_reserved(&mut parts.clients, true);
    push_reserved(&mut parts.world.pending, UText::new(alloc));
    Ok(ReplyBody::Entered {
        number: number as u32,
    })
}

/// A run after the runs of a client are dropped.
fn dropped_for_client(client: u32, run: Run) -> Run
    ensures { result ≡ dropped_for client run }
{
    Run {
        gone: run.gone || run.owner == client,
        ..run
    }
}

/// The runs of a client are dropped.
fn drop_runs_of(runs: &mut [Run], client: u32)
    ensures { runs.new ≡ map (dropped_for client) runs.old }
{
    for run in runs.iter_mut() {
        *run = dropped_for_client(client, *run);
    }
}

/// Every run is dropped.
fn drop_runs(runs: &mut [Run])
    ensures { runs.new ≡ map dropped runs.old }
{
    for run in runs.iter_mut() {
        run.gone = true;
    }
}

/// A client goes. It takes no memory.
pub fn dismiss_client(parts: &mut Parts, alloc: Global, client: u32) -> ReplyBody
    requires sound { IsSound parts.old }
    requires there { client < length parts.old.clients.items }
    ensures ok { record { state = state_from parts.new; body = result } ≡ spec.leave (state_from parts.old) client }
    ensures sound { IsSound parts.new }
    ensures within { (entries : ℕ) → IsWithin entries parts.old → IsWithin entries parts.new }
{
    stop_threads(&mut parts.world, alloc, Some(client));
    drop_runs_of(&mut parts.world.runs, client);
    parts.clients[client as usize] = false;
    ReplyBody::Left
}

/// Nothing is in force any more.
fn empty_generation(generation: &mut GenerationParts, alloc: Global)
    requires { generation.old.number + 1 < 2 ^ 64 }
    ensures { generation_of generation.new ≡ emptied (generation_of generation.old) }
{
    generation.number += 1;
    generation.live = Vec::new(alloc);
}

/// All snippets are taken back. It takes no memory.
pub fn reset_all(parts: &mut Parts, alloc: Global) -> ReplyBody
    requires sound { IsSound parts.old }
    requires few { parts.old.generation.number + 1 < 2 ^ 64 }
    ensures ok { record { state = state_from parts.new; body = result } ≡ spec.reset (state_from parts.old) }
    ensures sound { IsSound parts.new }
    ensures within { (entries : ℕ) → IsWithin entries parts.old → IsWithin (entries + 1) parts.new }
{
    let records = parts.book.len() as u32;
    stop_threads(&mut parts.world, alloc, None);
    drop_runs(&mut parts.world.runs);
    empty_generation(&mut parts.generation, alloc);
    parts.book = Vec::new(alloc);
    parts.world.cells = Vec::new(alloc);
    ReplyBody::ResetDone { records }
}
