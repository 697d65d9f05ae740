ghost use Rattle.std.specs.Prelude.{◌≡◌, ℕ, ◌<◌, ◌≤◌, ◌==◌, if◌then◌else◌, min, Err, IfErr, IfOk, IfNone, IfSome};
ghost use Rattle.jsh_core.specs.Limits.{most_steps};
ghost use Rattle.jsh_shell.specs.declared.halts.Halt.TheVariants as halt;
ghost use Rattle.jsh_shell.specs.Driving.{done_of, HasTurn};
ghost use Rattle.jsh_shell.specs.Serving.{Drives, DrivesPart, DrivesTo, GoesOnNoMore, IsOpen};

use crate::halts::Halt;
use crate::session::Session;
use jsh_core::{MOST_ENTRIES, MOST_STEPS};
use jsh_sched::pick;
use jsh_snippet::{Act, Entry, Reply, ReplyBody};
use jsh_steps::Steps;
use std::alloc::Global;
use std::sync::ledger::Ledger;

/// How the turns of a run came to an end.
#[derive(Clone, Copy, Debug, PartialEq, Eq)]
pub enum Driven {
    /// The run is over, or no thread is Ready.
    Still,
    /// The budget is used.
    Spent,
}

/// Whose turn it is.
#[derive(Clone, Copy, Debug)]
pub struct NextTurn {
    pub thread: u32,
    /// The main thread of the run that is evaluated.
    pub main: u32,
}

/// Whose turn it is in the evaluation of a run.
fn next_turn(session: &Session, run: u32) -> Option<NextTurn>
    ensures some { IfSome result (λ turn. HasTurn session.now run turn) }
    ensures none { IfNone result ((client : ℕ) → GoesOnNoMore session.now.core client run) }
{
    let view = match session.core.run(run) {
        Some(view) => view,
        None => return None,
    };
    if view.over {
        return None;
    }
    let main_first = session.last_turn != view.main;
    match pick(
        session.core.states(),
        session.cursor,
        Some(view.main),
        main_first,
    ) {
        Some(thread) => Some(NextTurn {
            thread,
            main: view.main,
        }),
        None => None,
    }
}

/// The steps that a turn has done.
fn steps_done(reply: &Reply) -> u32
    ensures { result ≡ done_of reply.now.body }
{
    match reply.body {
        ReplyBody::Turned { steps } => steps,
        _ => 0,
    }
}

/// The steps that a turn is given where so many are left.
fn turn_steps(left: u64) -> u32
    ensures { result ≡ min most_steps left }
{
    if left < MOST_STEPS as u64 {
        left as u32
    } else {
        MOST_STEPS
    }
}

/// The turns of a session behind one more.
fn note_turn(session: &mut Session, turn: NextTurn)
    ensures { session.new ≡ record session.old {
      last_turn = turn.thread;
      cursor = if turn.thread == turn.main then session.old.cursor else turn.thread;
    } }
{
    session.last_turn = turn.thread;
    if turn.thread != turn.main {
        session.cursor = turn.thread;
    }
}

/// Takes a turn, where so many steps of the budget are used. The answer is how many are used then.
#[tactic(none)]
fn take_turn<L: Ledger>(
    alloc: Global,
    session: &mut Session,
    client: u32,
    budget: u64,
    run: u32,
    used: u64,
    turn: NextTurn,
    steps: &mut Steps<L>,
) -> Result<u64, Halt>
    requires open { IsOpen client session.old.core }
    requires below { used < budget }
    requires turn { HasTurn session.old run turn }
    ensures ok { IfOk result (λ now. Drives budget client run used now session.old session.new) }
    ensures more { IfOk result (λ now. (used < now) × (now ≤ budget)) }
    ensures err { IfErr result (λ why. DrivesPart why budget client run used session.old session.new) }
    ensures open { IsOpen client session.new.core }
    ensures sink { result ≡ Err halt.SinkFailed → ⊥ }
{
    if session.core.len() >= MOST_ENTRIES {
        return Err(Halt::Limit);
    }
    let entry = Entry {
        client,
        act: Act::Turn {
            thread: turn.thread,
            steps: turn_steps(budget - used),
        },
    };
    match session.core.apply(alloc, entry, steps) {
        Ok(reply) => {
            note_turn(session, turn);
            Ok(used + steps_done(&reply) as u64)
        }
        Err(_refused) => Err(Halt::NoMemory),
    }
}

/// Takes the turns of a run until it goes on no more or the budget is used.
#[tactic(none)]
pub fn drive<L: Ledger>(
    alloc: Global,
    session: &mut Session,
    client: u32,
    budget: u64,
    run: u32,
    steps: &mut Steps<L>,
) -> Result<Driven, Halt>
    requires { IsOpen client session.old.core }
    ensures ok { IfOk result (λ driven. DrivesTo driven budget client run session.old session.new) }
    ensures err { IfErr result (λ why. DrivesPart why budget client run 0 session.old session.new) }
    ensures open { IsOpen client session.new.core }
    ensures sink { result ≡ Err halt.SinkFailed → ⊥ }
{
    let mut used: u64 = 0;
    'turns: while used < budget {
        let turn = match next_turn(session, run) {
            Some(turn) => turn,
            None => return Ok(Driven::Still),
        };
        used = match take_turn(alloc, session, client, budget, run, used, turn, steps) {
            Ok(now) => now,
            Err(why) => return Err(why),
        };
    }
    Ok(Driven::Spent)
}
