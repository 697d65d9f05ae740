ghost use Rattle.std.specs.Prelude.{◌≡◌, ℕ, List, ◌+◌, ◌∷◌, [], ◌<◌, ◌≤◌, ◌^◌, length, option_map, IfOk, IsSome, OnErr};
ghost use Rattle.std.specs.Str.{IsUtf8};
ghost use Rattle.jsh_snippet.specs.declared.replies.ReplyBody.TheVariants as body;
ghost use Rattle.jsh_snippet.specs.declared.replies.Refusal.TheVariants as refusal;
ghost use Rattle.jsh_snippet.specs.Keys.{temporary_name};
ghost use Rattle.jsh_verdict.specs.Verdict.{tree_of};
ghost use Rattle.jsh_core.specs.Limits.{most_entries, most_records, most_threads};
ghost use Rattle.jsh_core.specs.Snippets as spec;
ghost use Rattle.jsh_core.specs.Snippets.{submitted, temporary_key};
ghost use Rattle.jsh_core.specs.Parts.{generation_of, state_from, IsSound, IsWithin, IsWorld};

use crate::generation::{Live, Plan};
use crate::limits::{MOST_RECORDS, MOST_THREADS};
use crate::lists::push_reserved;
use crate::parts::{GenerationParts, Parts, add_cell, add_live, add_run, reserve_snippet};
use crate::world::{Body, Cell, Frame, Thread};
use jsh_snippet::{
    Event, Fate, Kind, LimitKind, Record, Refusal, ReplyBody, Status, Subkind, Submitted,
};
use jsh_sum::Sum;
use jsh_text::{NoMemory, UText, Value, print_unsigned};
use jsh_tree::{Diagnostic, Key, Link, Name, Seq, SrcText, Tree, TypeWritten};
use jsh_verdict::{Judged, Verdict, judge};
use std::alloc::Global;

/// The name of a temporary variable: `$` and its snippet's number.
pub fn temporary_name_of(alloc: Global, id: u32) -> Result<UText, NoMemory>
    ensures { IfOk result (λ name. name ≡ temporary_name id) }
{
    let mut name = UText::from_latin1(alloc, b"$")?;
    let digits = print_unsigned(alloc, id as u64)?;
    name.append(&digits)?;
    Ok(name)
}

/// A list of one item.
pub fn one<T: Drop>(alloc: Global, item: T) -> Result<Seq<T>, NoMemory>
    ensures { IfOk result (λ seq. seq ≡ item ∷ []) }
{
    let mut items = Vec::with_capacity(alloc, 1)?;
    push_reserved(&mut items, item);
    Ok(Seq::from_vec(items))
}

fn new_temporary_key(alloc: Global, id: u32) -> Result<Key, NoMemory>
    ensures { IfOk result (λ key. key ≡ temporary_key id) }
{
    let text = format!(in alloc; "${id}")?;
    Ok(Key::OfVar(Name::from_text(alloc, text.as_str())?))
}

fn new_temporary_link(
    alloc: Global,
    generation: &GenerationParts,
    id: u32,
) -> Result<Link, NoMemory>
    requires { generation.now.number + 1 < 2 ^ 64 }
    ensures { IfOk result (λ link. link ≡ spec.new_link (generation_of generation.now) id) }
{
    Ok(Link {
        key: new_temporary_key(alloc, id)?,
        generation: generation.number + 1,
    })
}

fn new_accepted_record(
    alloc: Global,
    id: u32,
    source: &SrcText,
    tree: Option<Tree>,
) -> Result<Record, NoMemory>
    requires { tree ≡ tree_of source.now }
    ensures { IfOk result (λ new. new ≡ spec.accepted_record id source.now) }
{
    let name = Name::from_text(alloc, "int")?;
    Ok(Record {
        id,
        source: source.clone()?,
        tree,
        fixed: Some(TypeWritten { name, dims: 0 }),
        kind: Some(Kind::Var),
        fate: Fate::Live,
    })
}

fn new_rejected_record(id: u32, source: &SrcText, tree: Option<Tree>) -> Result<Record, NoMemory>
    requires { tree ≡ tree_of source.now }
    ensures { IfOk result (λ new. new ≡ spec.rejected_record id source.now) }
{
    Ok(Record {
        id,
        source: source.clone()?,
        tree,
        fixed: None,
        kind: Some(Kind::Erroneous),
        fate: Fate::Rejected,
    })
}

fn new_accepted_event(alloc: Global, id: u32) -> Result<Event, NoMemory>
    ensures { IfOk result (λ event. event ≡ spec.accepted_event id) }
{
    let name = temporary_name_of(alloc, id)?;
    let default = UText::from_latin1(alloc, b"0")?;
    Ok(Event {
        id,
        name,
        before: Status::Nonexistent,
        after: Status::Valid,
        signature_changed: true,
        reset: Some(default),
        cause: None,
    })
}

fn new_rejected_event(alloc: Global, id: u32) -> Event
    ensures { result ≡ spec.rejected_event id }
{
    Event {
        id,
        name: UText::new(alloc),
        before: Status::Nonexistent,
        after: Status::Rejected,
        signature_changed: false,
        reset: None,
        cause: None,
    }
}

/// What a sum comes to.
fn plan_accepted(
    alloc: Global,
    generation: &GenerationParts,
    snippet: Record,
    sum: Sum,
) -> Result<Plan, NoMemory>
    requires { generation.now.number + 1 < 2 ^ 64 }
    ensures { IfOk result (λ plan. (source : List ℕ) → snippet ≡ spec.accepted_record snippet.id source → plan ≡ spec.accepted_plan (generation_of generation.now) snippet.id source sum) }
{
    let id = snippet.id;
    let live = Live {
        id,
        key: new_temporary_key(alloc, id)?,
        status: Status::Valid,
        given: Some(generation.number + 1),
    };
    let made = Cell {
        link: new_temporary_link(alloc, generation, id)?,
        value: Value::Int(0),
    };
    let body = Body {
        variable: new_temporary_link(alloc, generation, id)?,
        sum,
    };
    Ok(Plan {
        snippet,
        live: Some(live),
        made: Some(made),
        run: Some(body),
        kind: Kind::Var,
        subkind: Subkind::TempVarExpression,
        name: temporary_name_of(alloc, id)?,
        events: one(alloc, new_accepted_event(alloc, id)?)?,
        ignored: Seq::new(alloc),
        diagnostics: Seq::new(alloc),
        unresolved: Seq::new(alloc),
        value: None,
    })
}

/// What a source comes to that is no sum.
fn plan_rejected(
    alloc: Global,
    snippet: Record,
    diagnostics: Seq<Diagnostic>,
) -> Result<Plan, NoMemory>
    ensures { IfOk result (λ plan. (source : List ℕ) → snippet ≡ spec.rejected_record snippet.id source → plan ≡ spec.rejected_plan snippet.id source diagnostics) }
{
    let event = new_rejected_event(alloc, snippet.id);
    Ok(Plan {
        snippet,
        live: None,
        made: None,
        run: None,
        kind: Kind::Erroneous,
        subkind: Subkind::Unknown,
        name: UText::new(alloc),
        events: one(alloc, event)?,
        ignored: Seq::new(alloc),
        diagnostics,
        unresolved: Seq::new(alloc),
        value: None,
    })
}

/// What a source comes to that is handed in on this generation as the snippet with this number.
fn plan_snippet(
    alloc: Global,
    generation: &GenerationParts,
    id: u32,
    source: &SrcText,
) -> Result<Plan, NoMemory>
    requires few { generation.now.number + 1 < 2 ^ 64 }
    requires short { length source.now < 2 ^ 32 }
    ensures { IfOk result (λ plan. plan ≡ spec.planned (generation_of generation.now) id source.now) }
{
    let Judged { tree, verdict } = judge(alloc, source.as_str())?;
    match verdict {
        Verdict::Accepted(sum) => {
            let snippet = new_accepted_record(alloc, id, source, tree)?;
            plan_accepted(alloc, generation, snippet, sum)
        }
        Verdict::Rejected(diagnostics) => {
            let snippet = new_rejected_record(id, source, tree)?;
            plan_rejected(alloc, snippet, diagnostics)
        }
    }
}

/// A thread of this client that is to evaluate this.
fn new_main_thread(alloc: Global, owner: u32, body: Body) -> Result<Thread, NoMemory>
    ensures { IfOk result (λ thread. thread ≡ spec.main_thread owner body) }
{
    let frame = Frame {
        body,
        args: Seq::new(alloc),
        answers: Seq::new(alloc),
    };
    Ok(Thread {
        owner,
        steps: 0,
        frames: one(alloc, frame)?,
        end: None,
    })
}

/// The thread of a client's snippet, where there is something to evaluate.
fn new_thread_for(alloc: Global, owner: u32, run: Option<Body>) -> Result<Option<Thread>, NoMemory>
    ensures { IfOk result (λ thread. thread ≡ option_map (spec.main_thread owner) run) }
{
    match run {
        None => Ok(None),
        Some(body) => Ok(Some(new_main_thread(alloc, owner, body)?)),
    }
}

/// A limit is reached.
fn limited(which: LimitKind, count: u64) -> ReplyBody
    ensures { result ≡ body.Refused (refusal.Limit which count) }
{
    ReplyBody::Refused(Refusal::Limit { which, count })
}

/// What a snippet of a client comes to is put beside what is kept.
fn add_snippet(
    parts: &mut Parts,
    alloc: Global,
    client: u32,
    plan: Plan,
) -> Result<ReplyBody, NoMemory>
    requires sound { IsSound parts.old }
    requires within { IsWithin most_entries parts.old }
    requires room { length parts.old.book.items < most_records }
    requires alive { IsSome plan.run → parts.old.world.alive < most_threads }
    ensures ok { IfOk result (λ body. record { state = state_from parts.new; body = body } ≡ spec.published (state_from parts.old) client plan) }
    ensures err { OnErr result (state_from parts.new ≡ state_from parts.old) }
    ensures world { IsWorld parts.new.world }
{
    let Plan {
        snippet,
        live,
        made,
        run,
        kind,
        subkind,
        name,
        events,
        ignored,
        diagnostics,
        unresolved,
        value,
    } = plan;
    let id = snippet.id;
    let thread = new_thread_for(alloc, client, run)?;
    reserve_snippet(parts)?;
    push_reserved(&mut parts.book, snippet);
    add_live(&mut parts.generation, live);
    add_cell(&mut parts.world.cells, made);
    let run = add_run(&mut parts.world, client, id, thread);
    Ok(ReplyBody::Submitted(Submitted {
        id,
        kind,
        subkind,
        name,
        events,
        ignored,
        diagnostics,
        unresolved,
        run,
        value,
    }))
}

/// A snippet of a client stands.
fn publish(parts: &mut Parts, alloc: Global, client: u32, plan: Plan) -> Result<ReplyBody, NoMemory>
    requires sound { IsSound parts.old }
    requires within { IsWithin most_entries parts.old }
    requires room { length parts.old.book.items < most_records }
    requires alive { IsSome plan.run → parts.old.world.alive < most_threads }
    ensures ok { IfOk result (λ body. record { state = state_from parts.new; body = body } ≡ spec.published (state_from parts.old) client plan) }
    ensures err { OnErr result (state_from parts.new ≡ state_from parts.old) }
    ensures sound { IsSound parts.new }
    ensures within { (entries : ℕ) → IsWithin entries parts.old → IsWithin (entries + 1) parts.new }
{
    add_snippet(parts, alloc, client, plan)
}

/// A snippet of a client stands, where there may be a thread more or it wants none.
fn publish_below_limit(
    parts: &mut Parts,
    alloc: Global,
    client: u32,
    plan: Plan,
) -> Result<ReplyBody, NoMemory>
    requires sound { IsSound parts.old }
    requires within { IsWithin most_entries parts.old }
    requires room { length parts.old.book.items < most_records }
    ensures ok { IfOk result (λ body. record { state = state_from parts.new; body = body } ≡ spec.published_below_limit (state_from parts.old) client plan) }
    ensures err { OnErr result (state_from parts.new ≡ state_from parts.old) }
    ensures sound { IsSound parts.new }
    ensures within { (entries : ℕ) → IsWithin entries parts.old → IsWithin (entries + 1) parts.new }
{
    if plan.run.is_none() {
        return publish(parts, alloc, client, plan);
    }
    if parts.world.alive >= MOST_THREADS {
        return Ok(limited(LimitKind::Threads, MOST_THREADS as u64));
    }
    publish(parts, alloc, client, plan)
}

/// A snippet is handed in.
pub fn submit(
    parts: &mut Parts,
    alloc: Global,
    client: u32,
    source: &SrcText,
) -> Result<ReplyBody, NoMemory>
    requires sound { IsSound parts.old }
    requires within { IsWithin most_entries parts.old }
    requires short { length source.now < 2 ^ 32 }
    ensures utf8 { IsUtf8 source.now }
    ensures ok { IfOk result (λ body. record { state = state_from parts.new; body = body } ≡ submitted (state_from parts.old) client source.now) }
    ensures err { OnErr result (state_from parts.new ≡ state_from parts.old) }
    ensures sound { IsSound parts.new }
    ensures within { (entries : ℕ) → IsWithin entries parts.old → IsWithin (entries + 1) parts.new }
{
    let _text = source.as_str();
    if parts.book.len() >= MOST_RECORDS {
        return Ok(limited(LimitKind::Records, MOST_RECORDS as u64));
    }
    let id = parts.book.len() as u32 + 1;
    let plan = plan_snippet(alloc, &parts.generation, id, source)?;
    publish_below_limit(parts, alloc, client, plan)
}
