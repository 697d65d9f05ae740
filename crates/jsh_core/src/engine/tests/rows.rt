//! Acts and their answers as rows of tables.

ghost use Rattle.std.specs.Prelude.{◌≡◌, ◌<◌};

use crate::engine::Core;
use jsh_snippet::{
    Act, Collected, Entry, Fate, LimitKind, Line, Outcome, Question, Refusal, Reply, ReplyBody,
    Target,
};
use jsh_steps::Steps;
use jsh_text::UText;
use jsh_tree::{Name, SrcText};
use std::alloc::Global;
use std::marker::Brand;
use std::sync::ledger::{Blank, Ledger};
use std::test::Fail;

/// What a client does.
#[derive(Clone, Copy)]
pub enum Doing {
    Enter,
    Submit(&'static str),
    Turn(u32, u32),
    Collect(u32),
    Expire(u32, u64),
    Stop(u32),
    DropId(u32),
    DropName(&'static str),
    List,
    Vars,
    Threads,
    Complete(&'static str),
    Invalid(&'static str),
    Reset,
    Leave,
    Close,
}

/// What it is answered.
#[derive(Clone, Copy)]
pub enum Wanted {
    /// Nothing: the entry may not come.
    Barred,
    Entered(u32),
    /// The number of the snippet, and that of its run.
    Submitted(u32, Option<u32>),
    Turned(u32),
    Running(u64),
    Value(&'static str),
    Stopped(u32),
    Spent(u64),
    StopDone(u32),
    Dropped(u32),
    Lines(&'static str),
    ResetDone(u32),
    Left,
    Closed,
    NoSuchSnippet(u32, u32),
    DroppedBefore(u32),
    RejectedBefore(u32),
    NoSuchName(u32),
    NoSuchRun(u32),
    NotOwner(u32),
    LimitClients(u64),
    LimitThreads(u64),
}

/// The client of an entry, what it does, and what it is answered.
#[derive(Clone, Copy)]
pub struct Row(pub u32, pub Doing, pub Wanted);

fn act_of(alloc: Global, doing: Doing) -> Result<Act, Fail> {
    Ok(match doing {
        Doing::Enter => Act::Enter,
        Doing::Submit(source) => Act::Submit {
            source: SrcText::from_text(alloc, source)?,
        },
        Doing::Turn(thread, steps) => Act::Turn { thread, steps },
        Doing::Collect(run) => Act::Collect { run },
        Doing::Expire(run, steps) => Act::Expire { run, steps },
        Doing::Stop(run) => Act::Stop { run },
        Doing::DropId(id) => Act::Drop {
            target: Target::Id(id),
        },
        Doing::DropName(name) => Act::Drop {
            target: Target::Named(Name::from_text(alloc, name)?),
        },
        Doing::Reset => Act::Reset,
        Doing::Leave => Act::Leave,
        Doing::Close => Act::Close,
        asking => Act::Ask {
            question: question_of(alloc, asking)?,
        },
    })
}

fn question_of(alloc: Global, asking: Doing) -> Result<Question, Fail> {
    Ok(match asking {
        Doing::List => Question::List,
        Doing::Vars => Question::Vars,
        Doing::Threads => Question::Threads,
        Doing::Complete(text) => Question::Complete(SrcText::from_text(alloc, text)?),
        Doing::Invalid(line) => Question::Invalid(SrcText::from_text(alloc, line)?),
        _ => Question::Help,
    })
}

/// The answer to an entry that may come.
fn answered<L: Ledger>(
    alloc: Global,
    core: &mut Core,
    steps: &mut Steps<L>,
    entry: Entry,
) -> Result<Option<ReplyBody>, Fail> {
    if !core.may_come(&entry) {
        return Ok(None);
    }
    let Reply { output, body } = core.apply(alloc, entry, steps)?;
    if !output.is_empty() {
        return Err(Fail::from("nothing prints"));
    }
    Ok(Some(body))
}

fn is_text(alloc: Global, text: &UText, wanted: &str) -> Result<bool, Fail> {
    Ok(text.to_utf8(alloc)?.as_slice() == wanted.as_bytes())
}

/// The texts of lines, each with a line feed.
fn are_lines(alloc: Global, lines: &[Line], wanted: &str) -> Result<bool, Fail> {
    let mut text = UText::new(alloc);
    for line in lines {
        text.append(&line.text)?;
        text.push(10)?;
    }
    is_text(alloc, &text, wanted)
}

fn is_outcome(alloc: Global, outcome: &Outcome, wanted: Wanted) -> Result<bool, Fail> {
    Ok(match (outcome, wanted) {
        (Outcome::Value(text), Wanted::Value(value)) => is_text(alloc, text, value)?,
        (Outcome::Stopped { by }, Wanted::Stopped(client)) => *by == client,
        (Outcome::Spent { steps }, Wanted::Spent(count)) => *steps == count,
        _ => false,
    })
}

fn is_limit(which: LimitKind, count: u64, wanted: Wanted) -> bool {
    match (which, wanted) {
        (LimitKind::Clients, Wanted::LimitClients(most)) => count == most,
        (LimitKind::Threads, Wanted::LimitThreads(most)) => count == most,
        _ => false,
    }
}

fn is_fate(id: u32, fate: Fate, wanted: Wanted) -> bool {
    match (fate, wanted) {
        (Fate::Dropped, Wanted::DroppedBefore(dropped)) => id == dropped,
        (Fate::Rejected, Wanted::RejectedBefore(rejected)) => id == rejected,
        _ => false,
    }
}

fn is_refusal(refusal: &Refusal, wanted: Wanted) -> bool {
    match (refusal, wanted) {
        (Refusal::NoSuchSnippet { id, count }, Wanted::NoSuchSnippet(absent, records)) => {
            *id == absent && *count == records
        }
        (Refusal::NotLive { id, fate }, _) => is_fate(*id, *fate, wanted),
        (Refusal::NoSuchName { matches, .. }, Wanted::NoSuchName(count)) => *matches == count,
        (Refusal::NoSuchRun { run }, Wanted::NoSuchRun(absent)) => *run == absent,
        (Refusal::NotOwner { owner }, Wanted::NotOwner(client)) => *owner == client,
        (Refusal::Limit { which, count }, _) => is_limit(*which, *count, wanted),
        _ => false,
    }
}

fn is_wanted(alloc: Global, body: &ReplyBody, wanted: Wanted) -> Result<bool, Fail> {
    Ok(match (body, wanted) {
        (ReplyBody::Entered { number }, Wanted::Entered(client)) => *number == client,
        (ReplyBody::Submitted(what), Wanted::Submitted(id, run)) => {
            what.id == id && what.run == run
        }
        (ReplyBody::Turned { steps }, Wanted::Turned(count)) => *steps == count,
        (ReplyBody::Collected(Collected::Running { steps }), Wanted::Running(count)) => {
            *steps == count
        }
        (ReplyBody::Collected(Collected::Over { outcome, .. }), _) => {
            is_outcome(alloc, outcome, wanted)?
        }
        (ReplyBody::StopDone { run }, Wanted::StopDone(stopped)) => *run == stopped,
        (ReplyBody::Dropped { id, .. }, Wanted::Dropped(dropped)) => *id == dropped,
        (ReplyBody::Answered(lines), Wanted::Lines(text)) => {
            are_lines(alloc, lines.as_slice(), text)?
        }
        (ReplyBody::ResetDone { records }, Wanted::ResetDone(count)) => *records == count,
        (ReplyBody::Left, Wanted::Left) => true,
        (ReplyBody::Closed, Wanted::Closed) => true,
        (ReplyBody::Refused(refusal), _) => is_refusal(refusal, wanted),
        _ => false,
    })
}

/// Does a row.
fn do_row<L: Ledger>(
    alloc: Global,
    core: &mut Core,
    steps: &mut Steps<L>,
    row: Row,
) -> Result<(), Fail> {
    let Row(client, doing, wanted) = row;
    let act = act_of(alloc, doing)?;
    let is_right = match answered(alloc, core, steps, Entry { client, act })? {
        Some(body) => is_wanted(alloc, &body, wanted)?,
        None => matches!(wanted, Wanted::Barred),
    };
    if !is_right {
        return Err(Fail::from("another answer"));
    }
    Ok(())
}

fn do_rows<L: Ledger>(
    alloc: Global,
    core: &mut Core,
    steps: &mut Steps<L>,
    rows: &[Row],
) -> Result<(), Fail> {
    for row in rows {
        do_row(alloc, core, steps, *row)?;
    }
    Ok(())
}

/// Client 0 has the first so many clients numbered.
fn enter_clients<L: Ledger>(
    alloc: Global,
    core: &mut Core,
    steps: &mut Steps<L>,
    count: u32,
) -> Result<(), Fail> {
    for before in 0..count {
        let wanted = Wanted::Entered(before + 1);
        do_row(alloc, core, steps, Row(0, Doing::Enter, wanted))?;
    }
    Ok(())
}

/// Client 0 hands in the first so many snippets.
fn submit_snippets<L: Ledger>(
    alloc: Global,
    core: &mut Core,
    steps: &mut Steps<L>,
    count: u32,
) -> Result<(), Fail> {
    for before in 0..count {
        let wanted = Wanted::Submitted(before + 1, Some(before + 1));
        do_row(alloc, core, steps, Row(0, Doing::Submit("1"), wanted))?;
    }
    Ok(())
}

fn crowded<L: Ledger>(
    alloc: Global,
    clients: u32,
    snippets: u32,
    rows: &[Row],
    blank: Blank,
) -> Result<Core, Fail>
    requires name { blank.name ≡ L.name }
    requires parts { blank.parts ≡ L.parts }
    requires some { 0 < L.parts }
{
    let mut steps = Steps::<L>::open(blank);
    let mut core = Core::new(alloc)?;
    enter_clients(alloc, &mut core, &mut steps, clients)?;
    submit_snippets(alloc, &mut core, &mut steps, snippets)?;
    do_rows(alloc, &mut core, &mut steps, rows)?;
    Ok(core)
}

/// An engine in which client 0 has entered so many clients and handed in so many snippets, after rows.
pub fn crowded_after(
    alloc: Global,
    clients: u32,
    snippets: u32,
    rows: &[Row],
) -> Result<Core, Fail> {
    crowded::<Brand>(alloc, clients, snippets, rows, Blank::new(1))
}

/// An engine with client 0 alone, after rows.
pub fn after(alloc: Global, rows: &[Row]) -> Result<Core, Fail> {
    crowded_after(alloc, 0, 0, rows)
}
