//! Acts by their tags.

ghost use Rattle.std.specs.Prelude.{◌≡◌};
ghost use Rattle.jsh_replay.specs.Reading.{Gives};
ghost use Rattle.jsh_replay.specs.Reading as spec;

use crate::fields::{text_at, u16_at, u32_at, u64_at};
use crate::halt::Halt;
use jsh_snippet::{Act, Question, Target};
use jsh_tree::{Name, SrcText};
use std::alloc::Global;

fn source_at(alloc: Global, bytes: &[u8]) -> Result<(SrcText, &[u8]), Halt>
    ensures { Gives (λ x. (x.0, x.1.now)) result (spec.text_at bytes.now) }
{
    let (text, rest) = text_at(bytes)?;
    Ok((SrcText::from_text(alloc, text)?, rest))
}

#[tactic(auto, unfolding(crate::specs::Reading::target_by))]
fn target_by(alloc: Global, kind: u8, bytes: &[u8]) -> Result<(Target, &[u8]), Halt>
    ensures { Gives (λ x. (x.0, x.1.now)) result (spec.target_by kind bytes.now) }
{
    match kind {
        0 => {
            let (id, rest) = u32_at(bytes)?;
            Ok((Target::Id(id), rest))
        }
        1 => {
            let (text, rest) = text_at(bytes)?;
            Ok((Target::Named(Name::from_text(alloc, text)?), rest))
        }
        _ => Err(Halt::NoItem),
    }
}

#[tactic(auto, unfolding(crate::specs::Reading::target_at))]
fn target_at(alloc: Global, bytes: &[u8]) -> Result<(Target, &[u8]), Halt>
    ensures { Gives (λ x. (x.0, x.1.now)) result (spec.target_at bytes.now) }
{
    match bytes {
        [] => Err(Halt::NoItem),
        [kind, rest @ ..] => target_by(alloc, *kind, rest),
    }
}

/// A question that has no text.
#[tactic(auto, unfolding(crate::specs::Reading::plain_question))]
fn plain_question(kind: u8) -> Option<Question>
    ensures { result ≡ spec.plain_question kind }
{
    match kind {
        0 => Some(Question::List),
        1 => Some(Question::ListAll),
        2 => Some(Question::Vars),
        3 => Some(Question::Methods),
        4 => Some(Question::Types),
        5 => Some(Question::Imports),
        6 => Some(Question::Threads),
        7 => Some(Question::Help),
        _ => None,
    }
}

#[tactic(auto, unfolding(crate::specs::Reading::question_by))]
fn question_by(alloc: Global, kind: u8, bytes: &[u8]) -> Result<(Question, &[u8]), Halt>
    ensures { Gives (λ x. (x.0, x.1.now)) result (spec.question_by kind bytes.now) }
{
    match kind {
        8 => {
            let (text, rest) = source_at(alloc, bytes)?;
            Ok((Question::Complete(text), rest))
        }
        9 => {
            let (line, rest) = source_at(alloc, bytes)?;
            Ok((Question::Invalid(line), rest))
        }
        _ => match plain_question(kind) {
            Some(plain) => Ok((plain, bytes)),
            None => Err(Halt::NoItem),
        },
    }
}

#[tactic(auto, unfolding(crate::specs::Reading::question_at))]
fn question_at(alloc: Global, bytes: &[u8]) -> Result<(Question, &[u8]), Halt>
    ensures { Gives (λ x. (x.0, x.1.now)) result (spec.question_at bytes.now) }
{
    match bytes {
        [] => Err(Halt::NoItem),
        [kind, rest @ ..] => question_by(alloc, *kind, rest),
    }
}

#[tactic(auto, unfolding(crate::specs::Reading::submit_at))]
fn submit_at(alloc: Global, bytes: &[u8]) -> Result<(Act, &[u8]), Halt>
    ensures { Gives (λ x. (x.0, x.1.now)) result (spec.submit_at bytes.now) }
{
    let (source, rest) = source_at(alloc, bytes)?;
    Ok((Act::Submit { source }, rest))
}

#[tactic(auto, unfolding(crate::specs::Reading::turn_at))]
fn turn_at(bytes: &[u8]) -> Result<(Act, &[u8]), Halt>
    ensures { Gives (λ x. (x.0, x.1.now)) result (spec.turn_at bytes.now) }
{
    let (thread, rest) = u32_at(bytes)?;
    let (steps, rest) = u16_at(rest)?;
    let steps = steps as u32;
    Ok((Act::Turn { thread, steps }, rest))
}

#[tactic(auto, unfolding(crate::specs::Reading::collect_at))]
fn collect_at(bytes: &[u8]) -> Result<(Act, &[u8]), Halt>
    ensures { Gives (λ x. (x.0, x.1.now)) result (spec.collect_at bytes.now) }
{
    let (run, rest) = u32_at(bytes)?;
    Ok((Act::Collect { run }, rest))
}

#[tactic(auto, unfolding(crate::specs::Reading::expire_at))]
fn expire_at(bytes: &[u8]) -> Result<(Act, &[u8]), Halt>
    ensures { Gives (λ x. (x.0, x.1.now)) result (spec.expire_at bytes.now) }
{
    let (run, rest) = u32_at(bytes)?;
    let (steps, rest) = u64_at(rest)?;
    Ok((Act::Expire { run, steps }, rest))
}

#[tactic(auto, unfolding(crate::specs::Reading::stop_at))]
fn stop_at(bytes: &[u8]) -> Result<(Act, &[u8]), Halt>
    ensures { Gives (λ x. (x.0, x.1.now)) result (spec.stop_at bytes.now) }
{
    let (run, rest) = u32_at(bytes)?;
    Ok((Act::Stop { run }, rest))
}

#[tactic(auto, unfolding(crate::specs::Reading::drop_at))]
fn drop_at(alloc: Global, bytes: &[u8]) -> Result<(Act, &[u8]), Halt>
    ensures { Gives (λ x. (x.0, x.1.now)) result (spec.drop_at bytes.now) }
{
    let (target, rest) = target_at(alloc, bytes)?;
    Ok((Act::Drop { target }, rest))
}

#[tactic(auto, unfolding(crate::specs::Reading::ask_at))]
fn ask_at(alloc: Global, bytes: &[u8]) -> Result<(Act, &[u8]), Halt>
    ensures { Gives (λ x. (x.0, x.1.now)) result (spec.ask_at bytes.now) }
{
    let (question, rest) = question_at(alloc, bytes)?;
    Ok((Act::Ask { question }, rest))
}

/// The act with this tag, whose fields the bytes begin with.
#[tactic(auto, unfolding(crate::specs::Reading::act_by))]
pub fn act_by(alloc: Global, kind: u8, bytes: &[u8]) -> Result<(Act, &[u8]), Halt>
    ensures { Gives (λ x. (x.0, x.1.now)) result (spec.act_by kind bytes.now) }
{
    match kind {
        1 => Ok((Act::Enter, bytes)),
        2 => submit_at(alloc, bytes),
        3 => turn_at(bytes),
        4 => collect_at(bytes),
        5 => expire_at(bytes),
        6 => stop_at(bytes),
        7 => drop_at(alloc, bytes),
        8 => ask_at(alloc, bytes),
        9 => Ok((Act::Reset, bytes)),
        10 => Ok((Act::Leave, bytes)),
        11 => Ok((Act::Close, bytes)),
        _ => Err(Halt::NoItem),
    }
}
