ghost use Rattle.std.specs.Prelude.{◌≡◌, ◌≤◌, ◌<◌, ◌^◌, ◌++◌, length, IfOk, OnOk};
ghost use Rattle.std.specs.Int.{w16, w32, w64, to_be_bytes};
ghost use Rattle.jsh_tree.specs.Text.{most_source};
ghost use Rattle.jsh_core.specs.Limits.{most_steps};
ghost use Rattle.jsh_core.specs.History.{act_text, target_text, IsLegal};
ghost use Rattle.jsh_core.specs.Questions.{question_text};
ghost use Rattle.jsh_replay.specs.Journal as spec;
ghost use Rattle.jsh_replay.specs.Journal.{text_bytes, target_bytes, question_bytes, field_bytes, entry_bytes, journal_bytes, turn_steps, IsText, IsTargetField, IsQuestionField, FitsFields, IsWritable, IsJournal};

use jsh_snippet::{Act, Entry, Question, Target};
use jsh_text::NoMemory;
use std::alloc::Global;

#[tactic(auto, unfolding(crate::specs::Journal::text_bytes))]
fn push_text(out: &mut Vec<u8>, text: &str) -> Result<(), NoMemory>
    requires { length text.now ≤ most_source }
    ensures bytes { OnOk result (out.new.items ≡ out.old.items ++ text_bytes text.now) }
    ensures text { OnOk result (IsText text.now) }
{
    out.extend_from_slice(&(text.len() as u32).to_be_bytes())?;
    out.extend_from_slice(text.as_bytes())?;
    Ok(())
}

#[tactic(auto, unfolding(crate::specs::Journal::target_bytes, crate::specs::Journal::IsTargetField))]
fn push_target(out: &mut Vec<u8>, target: &Target) -> Result<(), NoMemory>
    requires { length (target_text target.now) ≤ most_source }
    ensures bytes { OnOk result (out.new.items ≡ out.old.items ++ target_bytes target.now) }
    ensures fits { OnOk result (IsTargetField target.now) }
{
    match target {
        Target::Id(id) => {
            out.push(0)?;
            out.extend_from_slice(&id.to_be_bytes())?;
            Ok(())
        }
        Target::Named(name) => {
            out.push(1)?;
            push_text(out, name.as_str())
        }
    }
}

/// A question without a text by its place among the variants, and one with a text by that and the text.
#[tactic(auto, unfolding(crate::specs::Journal::question_bytes, crate::specs::Journal::IsQuestionField))]
fn push_question(out: &mut Vec<u8>, question: &Question) -> Result<(), NoMemory>
    requires { length (question_text question.now) ≤ most_source }
    ensures bytes { OnOk result (out.new.items ≡ out.old.items ++ question_bytes question.now) }
    ensures fits { OnOk result (IsQuestionField question.now) }
{
    let kind = match question {
        Question::List => 0,
        Question::ListAll => 1,
        Question::Vars => 2,
        Question::Methods => 3,
        Question::Types => 4,
        Question::Imports => 5,
        Question::Threads => 6,
        Question::Help => 7,
        Question::Complete(text) => {
            out.push(8)?;
            return push_text(out, text.as_str());
        }
        Question::Invalid(line) => {
            out.push(9)?;
            return push_text(out, line.as_str());
        }
    };
    out.push(kind)?;
    Ok(())
}

/// Two numbers, of a thread and of its steps.
fn push_turn(out: &mut Vec<u8>, thread: u32, steps: u32) -> Result<(), NoMemory>
    requires { steps ≤ most_steps }
    ensures { OnOk result (out.new.items ≡ out.old.items ++ (to_be_bytes w32 thread ++ to_be_bytes w16 steps)) }
{
    out.extend_from_slice(&thread.to_be_bytes())?;
    out.extend_from_slice(&(steps as u16).to_be_bytes())?;
    Ok(())
}

/// Two numbers, of a run and of steps.
fn push_expire(out: &mut Vec<u8>, run: u32, steps: u64) -> Result<(), NoMemory>
    ensures { OnOk result (out.new.items ≡ out.old.items ++ (to_be_bytes w32 run ++ to_be_bytes w64 steps)) }
{
    out.extend_from_slice(&run.to_be_bytes())?;
    out.extend_from_slice(&steps.to_be_bytes())?;
    Ok(())
}

fn push_number(out: &mut Vec<u8>, number: u32) -> Result<(), NoMemory>
    ensures { OnOk result (out.new.items ≡ out.old.items ++ to_be_bytes w32 number) }
{
    out.extend_from_slice(&number.to_be_bytes())?;
    Ok(())
}

#[tactic(auto, unfolding(crate::specs::Journal::field_bytes, crate::specs::Journal::FitsFields))]
fn push_fields(out: &mut Vec<u8>, act: &Act) -> Result<(), NoMemory>
    requires text { length (act_text act.now) ≤ most_source }
    requires steps { turn_steps act.now ≤ most_steps }
    ensures bytes { OnOk result (out.new.items ≡ out.old.items ++ field_bytes act.now) }
    ensures fits { OnOk result (FitsFields act.now) }
{
    match act {
        Act::Enter | Act::Reset | Act::Leave | Act::Close => Ok(()),
        Act::Submit { source } => push_text(out, source.as_str()),
        Act::Turn { thread, steps } => push_turn(out, *thread, *steps),
        Act::Collect { run } => push_number(out, *run),
        Act::Expire { run, steps } => push_expire(out, *run, *steps),
        Act::Stop { run } => push_number(out, *run),
        Act::Drop { target } => push_target(out, target),
        Act::Ask { question } => push_question(out, question),
    }
}

/// The byte that tells an act.
#[tactic(auto, unfolding(crate::specs::Journal::tag))]
fn tag(act: &Act) -> u8
    ensures { result ≡ spec.tag act.now }
{
    match act {
        Act::Enter => 1,
        Act::Submit { .. } => 2,
        Act::Turn { .. } => 3,
        Act::Collect { .. } => 4,
        Act::Expire { .. } => 5,
        Act::Stop { .. } => 6,
        Act::Drop { .. } => 7,
        Act::Ask { .. } => 8,
        Act::Reset => 9,
        Act::Leave => 10,
        Act::Close => 11,
    }
}

#[tactic(auto, unfolding(crate::specs::Journal::entry_bytes))]
fn push_entry(out: &mut Vec<u8>, entry: &Entry) -> Result<(), NoMemory>
    requires client { entry.now.client < 2 ^ 8 }
    requires text { length (act_text entry.now.act) ≤ most_source }
    requires steps { turn_steps entry.now.act ≤ most_steps }
    ensures bytes { OnOk result (out.new.items ≡ out.old.items ++ entry_bytes entry.now) }
    ensures writable { OnOk result (IsWritable entry.now) }
{
    out.push(tag(&entry.act))?;
    out.push(entry.client as u8)?;
    push_fields(out, &entry.act)
}

/// The journal of a history.
pub fn write_journal(alloc: Global, history: &[Entry]) -> Result<Vec<u8>, NoMemory>
    requires { IsLegal history.now }
    ensures bytes { IfOk result (λ bytes. bytes.items ≡ journal_bytes history.now) }
    // So the same bytes are the journal of no other history.
    ensures journal { IfOk result (λ bytes. IsJournal bytes.items history.now) }
{
    let mut out = Vec::new(alloc);
    out.extend_from_slice(b"jshj1\n")?;
    for entry in history {
        push_entry(&mut out, entry)?;
    }
    out.push(255)?;
    out.extend_from_slice(&(history.len() as u32).to_be_bytes())?;
    Ok(out)
}
