ghost use Rattle.std.specs.Prelude.{◌≡◌, ℕ, ◌^◌, ◌++◌, ◌∷◌, [], ◌<◌, ◌≤◌, ◌↔◌, ◌⊎◌, List, Option, Some, IfSome, IsNone, IsSomeAnd, OnErr, OnOk, length, vec_len, vec_capacity};
ghost use Rattle.std.specs.List.{All};
ghost use Rattle.jsh_snippet.specs.declared.acts.Act.TheVariants as act;
ghost use Rattle.jsh_io.specs.Inputs.{IsEmptyWhereTold};
ghost use Rattle.jsh_core.specs.Step.{step};
ghost use Rattle.jsh_core.specs.History.{Allows, IsLegal, state_of};
ghost use Rattle.jsh_shell.specs.Journal.{entry_of, IsFramed, IsServed};
ghost use Rattle.jsh_shell.specs.Serving.{IsOpen, TakesLeave, farewell, is_unheard};
ghost use Rattle.jsh_shell.specs.Statuses.{memory_short};

use crate::acts::{entry_at, write_shown};
use crate::reports::{ClientReport, Report};
use crate::serving::{PIECE, serve_pieces};
use crate::session::Session;
use crate::statuses::{MEMORY_SHORT, WRITE_FAILED};
use jsh_core::Core;
use jsh_io::{Sink, Source};
use jsh_snippet::{Act, Entry, Reply};
use jsh_steps::Steps;
use jsh_text::NoMemory;
use std::alloc::Global;
use std::sync::ledger::Ledger;

/// The root closes the engine.
fn close<L: Ledger>(alloc: Global, core: &mut Core, steps: &mut Steps<L>)
    requires { Allows core.old (entry_of 0 act.Close) }
    ensures { core.new ≡ core.old ++ entry_of 0 act.Close ∷ [] }
{
    let entry = Entry {
        client: 0,
        act: Act::Close,
    };
    match core.apply(alloc, entry, steps) {
        Ok(_reply) => (),
        Err(_refused) => unreachable!(),
    }
}

/// A client goes.
fn dismiss<L: Ledger>(alloc: Global, core: &mut Core, client: u32, steps: &mut Steps<L>) -> Reply
    requires { IsOpen client core.old }
    ensures reply { result ≡ (step (state_of core.old) (entry_of client act.Leave)).reply }
    ensures grows { core.new ≡ core.old ++ entry_of client act.Leave ∷ [] }
{
    let entry = Entry {
        client,
        act: Act::Leave,
    };
    match core.apply(alloc, entry, steps) {
        Ok(reply) => reply,
        Err(_refused) => unreachable!(),
    }
}

/// Whether a client with this status is written no more.
fn is_unheard(status: u8) -> bool
    ensures { result ≡ is_unheard status }
{
    status == WRITE_FAILED || status == MEMORY_SHORT
}

/// A client leaves, and is written what is said to that, unless a write has failed or memory was short
/// before. The answer is its status then.
#[tactic(none)]
fn leave<O: Sink, L: Ledger>(
    alloc: Global,
    core: &mut Core,
    client: u32,
    sink: &mut O,
    status: u8,
    steps: &mut Steps<L>,
) -> u8
    requires { IsOpen client core.old }
    ensures grows { core.new ≡ core.old ++ entry_of client act.Leave ∷ [] }
    ensures written { TakesLeave status result (farewell core.old client) (O.held sink.old) (O.held sink.new) (O.faults sink.old) (O.faults sink.new) }
    ensures stream { O.stream sink.new ≡ O.stream sink.old }
{
    let place = core.len();
    let reply = dismiss(alloc, core, client, steps);
    if is_unheard(status) {
        return status;
    }
    match write_shown(alloc, entry_at(core, place), &reply, sink) {
        Ok(()) => (),
        Err(why) => return why.status(),
    }
    status
}

/// The root enters the first client.
fn enter_first<L: Ledger>(
    alloc: Global,
    core: &mut Core,
    steps: &mut Steps<L>,
) -> Result<(), NoMemory>
    requires first { core.old ≡ [] }
    requires allows { Allows core.old (entry_of 0 act.Enter) }
    ensures ok { OnOk result (core.new ≡ entry_of 0 act.Enter ∷ []) }
    ensures err { OnErr result (core.new ≡ []) }
{
    let entry = Entry {
        client: 0,
        act: Act::Enter,
    };
    match core.apply(alloc, entry, steps) {
        Ok(_reply) => Ok(()),
        Err(refused) => Err(refused),
    }
}

/// A report without clients.
pub fn report_without<I, O>(
    status: u8,
    journal: Vec<Entry>,
    clients: Vec<ClientReport<I, O>>,
) -> Report<I, O>
    ensures status { result.status ≡ status }
    ensures journal { result.journal.items ≡ journal.items }
    ensures clients { result.clients.items ≡ clients.items }
    ensures no_file { IsNone result.journal_sink × (result.journal_status ≡ 0) }
{
    Report {
        status,
        journal,
        clients,
        journal_sink: None,
        journal_status: 0,
    }
}

/// Serves the one client over these streams, from the engine's opening to its close.
#[tactic(none)]
pub fn serve_client<I: Source + Drop, O: Sink + Drop, L: Ledger>(
    alloc: Global,
    budget: u64,
    source: I,
    sink: O,
    buffer: &mut [u8],
    clients: Vec<ClientReport<I, O>>,
    steps: &mut Steps<L>,
) -> Report<I, O>
    requires none { clients.items ≡ [] }
    requires room { vec_len clients < vec_capacity clients }
    requires piece { length buffer.old ≡ PIECE }
    requires empty { IsEmptyWhereTold (O.held sink) }
    ensures legal { IsLegal result.journal.items }
    ensures served { All (λ r. (r.number ≡ 1) × (r.status ≡ result.status)
        × IsServed budget r.number r.status result.journal.items (I.left source) (I.left r.source) (O.held r.sink)
        (I.faults source) (I.faults r.source) (O.faults sink) (O.faults r.sink)) result.clients.items }
    ensures stream { All (λ r. O.stream r.sink ≡ O.stream sink) result.clients.items }
    ensures alone { (result.clients.items ≡ []) → (result.status ≡ memory_short)
        × ((result.journal.items ≡ []) ⊎ (result.journal.items ≡ entry_of 0 act.Close ∷ [])) }
    ensures empty { (result.journal.items ≡ []) → (result.clients.items ≡ []) }
    ensures one { length result.clients.items ≤ 1 }
    ensures no_file { IsNone result.journal_sink × (result.journal_status ≡ 0) }
    ensures framed { (result.journal.items ≡ []) ⊎ IsFramed (length result.clients.items) result.journal.items }
{
    let mut core = match Core::new(alloc) {
        Ok(core) => core,
        Err(_refused) => return report_without(MEMORY_SHORT, Vec::new(alloc), clients),
    };
    match enter_first(alloc, &mut core, steps) {
        Ok(()) => (),
        Err(_refused) => {
            close(alloc, &mut core, steps);
            return report_without(MEMORY_SHORT, core.into_history(), clients);
        }
    }
    let mut source = source;
    let mut sink = sink;
    let mut session = Session {
        core,
        last_turn: 0,
        cursor: 0,
    };
    let served = serve_pieces(
        alloc,
        &mut session,
        1,
        budget,
        &mut source,
        &mut sink,
        buffer,
        steps,
    );
    let mut core = session.core;
    let status = leave(alloc, &mut core, 1, &mut sink, served, steps);
    close(alloc, &mut core, steps);
    let mut clients = clients;
    push_report(
        &mut clients,
        ClientReport {
            number: 1,
            status,
            source,
            sink,
        },
    );
    report_without(status, core.into_history(), clients)
}

/// A push for which there is room.
pub fn push_report<T: Drop>(items: &mut Vec<T>, item: T)
    requires { vec_len items.old < vec_capacity items.old }
    ensures { items.new.items ≡ items.old.items ++ item ∷ [] }
{
    match items.push(item) {
        Ok(()) => (),
        Err(_) => unreachable!(),
    }
}
