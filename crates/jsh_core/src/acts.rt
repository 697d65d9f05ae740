ghost use Rattle.std.specs.Prelude.{◌≡◌, true, IfErr, IfOk, IsOk};
ghost use Rattle.jsh_core.specs.Acts.{at_once, is_last, HandsInUtf8, IsCut, IsDone, IsServed};
ghost use Rattle.jsh_core.specs.Limits.{most_entries};
ghost use Rattle.jsh_core.specs.Parts.{state_from, IsSound, IsWithin};

use crate::clients::{dismiss_client, number_client, reset_all};
use crate::drops::drop_snippet;
use crate::parts::Parts;
use crate::questions::answer_question;
use crate::runs::{collect_run, expire_run, stop_run};
use crate::snippets::submit;
use crate::turns::{CutShort, turn_thread};
use jsh_snippet::{Act, ReplyBody};
use jsh_text::NoMemory;
use std::alloc::Global;

/// An act that has no steps is done whole or not at all.
fn at_once(outcome: Result<ReplyBody, NoMemory>) -> Result<ReplyBody, CutShort>
    ensures { result ≡ at_once outcome }
{
    match outcome {
        Ok(body) => Ok(body),
        Err(_) => Err(CutShort { done: 0 }),
    }
}

/// Does a client's act, and answers it.
pub fn perform(
    parts: &mut Parts,
    alloc: Global,
    client: u32,
    act: &Act,
) -> Result<ReplyBody, CutShort>
    requires sound { IsSound parts.old }
    requires within { IsWithin most_entries parts.old }
    requires served { IsServed (state_from parts.old) client act.now }
    ensures done { IfOk result (λ body. IsDone parts.old parts.new client act.now body) }
    ensures cut { IfErr result (λ cut. IsCut parts.old parts.new client act.now cut.done) }
    ensures last { is_last act.now ≡ true → IsOk result }
    ensures utf8 { HandsInUtf8 act.now }
{
    match act {
        Act::Enter => at_once(number_client(parts, alloc)),
        Act::Submit { source } => at_once(submit(parts, alloc, client, source)),
        Act::Turn { thread, steps } => turn_thread(parts, alloc, *thread, *steps),
        Act::Collect { run } => at_once(collect_run(parts, alloc, client, *run)),
        Act::Expire { run, steps } => at_once(expire_run(parts, alloc, client, *run, *steps)),
        Act::Stop { run } => Ok(stop_run(parts, alloc, client, *run)),
        Act::Drop { target } => at_once(drop_snippet(parts, alloc, target)),
        Act::Ask { question } => at_once(answer_question(parts, alloc, question)),
        Act::Reset => Ok(reset_all(parts, alloc)),
        Act::Leave => Ok(dismiss_client(parts, alloc, client)),
        Act::Close => Ok(ReplyBody::Closed),
    }
}
