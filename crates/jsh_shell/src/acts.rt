ghost use Rattle.std.specs.Prelude.{◌≡◌, ◌<◌, false, length, slice_get, Some, Err, IfErr, IfOk, OnErr, OnOk};
ghost use Rattle.std.specs.Io.KnownBytes.{append_known};
ghost use Rattle.jsh_render.specs.Texts.{shown};
ghost use Rattle.jsh_core.specs.Acts.{is_last};
ghost use Rattle.jsh_core.specs.Questions.{question_text};
ghost use Rattle.jsh_core.specs.Snippets.{run_of};
ghost use Rattle.jsh_core.specs.History.{act_bytes, target_text, MayDo};
ghost use Rattle.jsh_shell.specs.declared.halts.Halt.TheVariants as halt;
ghost use Rattle.jsh_shell.specs.Progress.{command_act, is_limit, is_source, run_behind};
ghost use Rattle.jsh_shell.specs.Transcript.{is_turn};
ghost use Rattle.jsh_shell.specs.Serving.{Counts, Fails, IsOpen, Shows, WritesPart};

use crate::halts::Halt;
use jsh_core::Core;
use jsh_cut::Command;
use jsh_io::{Sink, write_whole};
use jsh_render::show;
use jsh_snippet::{Act, Entry, Question, Refusal, Reply, ReplyBody, Target};
use jsh_steps::Steps;
use jsh_text::NoMemory;
use std::alloc::Global;
use std::sync::ledger::Ledger;

/// The act that a command stands for.
pub fn act_of(command: Command) -> Act
    ensures { result ≡ command_act command }
{
    match command {
        Command::Eval(source) => Act::Submit { source },
        Command::Slash(what) => what,
        Command::Exit => Act::Leave,
    }
}

/// Whether a command is a source.
pub fn is_source(command: &Command) -> bool
    ensures { result ≡ is_source command.now }
{
    matches!(command, Command::Eval(_))
}

/// The bytes of text that a question hands in.
fn question_len(question: &Question) -> usize
    ensures { result ≡ length (question_text question.now) }
{
    match question {
        Question::Complete(text) => text.as_str().len(),
        Question::Invalid(line) => line.as_str().len(),
        _ => 0,
    }
}

/// The bytes of a name by which a snippet is taken back.
fn target_len(target: &Target) -> usize
    ensures { result ≡ length (target_text target.now) }
{
    match target {
        Target::Id(_) => 0,
        Target::Named(name) => name.as_str().len(),
    }
}

/// The bytes of text that an act hands in.
pub fn text_len(what: &Act) -> usize
    ensures { result ≡ act_bytes what.now }
{
    match what {
        Act::Submit { source } => source.as_str().len(),
        Act::Drop { target } => target_len(target),
        Act::Ask { question } => question_len(question),
        _ => 0,
    }
}

/// Whether an act was refused at a limit.
fn is_limit(body: &ReplyBody) -> bool
    ensures { result ≡ is_limit body.now }
{
    matches!(body, ReplyBody::Refused(Refusal::Limit { .. }))
}

/// The run that a submitted snippet has.
fn run_of(body: &ReplyBody) -> Option<u32>
    ensures { result ≡ run_of body.now }
{
    match body {
        ReplyBody::Submitted(what) => what.run,
        _ => None,
    }
}

/// The run that is to be evaluated behind a source or another command.
pub fn run_behind(source: bool, body: &ReplyBody) -> Option<u32>
    ensures { result ≡ run_behind source body.now }
{
    if source { run_of(body) } else { None }
}

/// The entry at this place.
pub fn entry_at(core: &Core, place: u64) -> &Entry
    requires { place < length core.now }
    ensures { slice_get core.now place ≡ Some result.now }
{
    match core.entry(place) {
        Some(entry) => entry,
        None => unreachable!(),
    }
}

/// Writes what is said to an entry.
pub fn write_shown<O: Sink>(
    alloc: Global,
    entry: &Entry,
    reply: &Reply,
    sink: &mut O,
) -> Result<(), Halt>
    ensures ok { OnOk result (O.held sink.new ≡ append_known (O.held sink.old) (shown entry.now reply.now)) }
    ensures err { OnErr result (WritesPart (O.held sink.old) (O.held sink.new) (shown entry.now reply.now)) }
    ensures limit { result ≡ Err halt.Limit → ⊥ }
    ensures counts { Counts result (O.faults sink.old) (O.faults sink.new) }
    ensures stream { O.stream sink.new ≡ O.stream sink.old }
{
    let bytes = match show(alloc, entry, reply) {
        Ok(bytes) => bytes,
        Err(NoMemory) => return Err(Halt::NoMemory),
    };
    match write_whole(sink, &bytes) {
        Ok(()) => Ok(()),
        Err(_) => Err(Halt::SinkFailed),
    }
}

/// Does an act other than a turn, behind which the client stays, and writes what is said to it. An act
/// that is refused at a limit has its entry, and is answered as a halt.
pub fn perform<O: Sink, L: Ledger>(
    alloc: Global,
    core: &mut Core,
    entry: Entry,
    sink: &mut O,
    steps: &mut Steps<L>,
) -> Result<Reply, Halt>
    requires open { IsOpen entry.client core.old }
    requires may { MayDo core.old entry.client entry.act }
    requires quiet { is_turn entry.act ≡ false }
    requires stays { is_last entry.act ≡ false }
    ensures ok { IfOk result (λ reply. Shows core.old core.new entry reply (O.held sink.old) (O.held sink.new)) }
    ensures free { IfOk result (λ reply. is_limit reply.body ≡ false) }
    ensures err { IfErr result (λ why. Fails why core.old core.new entry (O.held sink.old) (O.held sink.new)) }
    ensures open { IsOpen entry.client core.new }
    ensures counts { Counts result (O.faults sink.old) (O.faults sink.new) }
    ensures stream { O.stream sink.new ≡ O.stream sink.old }
{
    let place = core.len();
    let reply = match core.apply(alloc, entry, steps) {
        Ok(reply) => reply,
        Err(_) => return Err(Halt::NoMemory),
    };
    match write_shown(alloc, entry_at(core, place), &reply, sink) {
        Ok(()) => {
            if is_limit(&reply.body) {
                return Err(Halt::Limit);
            }
            Ok(reply)
        }
        Err(why) => Err(why),
    }
}
