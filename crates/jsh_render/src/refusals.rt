//! Lines for an act that is refused.

ghost use Rattle.std.specs.Prelude.{◌≡◌, IfOk};
ghost use Rattle.std.specs.String.{string_bytes};
ghost use Rattle.jsh_render.specs.Texts.{refusal_line};

use crate::words::{fate_word, limit_name};
use jsh_snippet::Refusal;
use jsh_text::NoMemory;
use std::alloc::Global;

/// Why an act was refused. `asked` is the run that it asked for.
pub fn refusal_text(alloc: Global, asked: u32, refusal: &Refusal) -> Result<String, NoMemory>
    ensures { IfOk result (λ text. string_bytes text ≡ refusal_line asked refusal.now) }
{
    match refusal {
        Refusal::NoSuchSnippet { id, .. } => Ok(format!(in alloc; "|  no snippet {id}\n")?),
        Refusal::NotLive { id, fate } => {
            let fate = fate_word(*fate);
            Ok(format!(in alloc; "|  snippet {id} is {fate}\n")?)
        }
        Refusal::NoSuchName { name, matches } => {
            let name = name.as_str();
            Ok(format!(in alloc; "|  {matches} live snippets are named {name}\n")?)
        }
        Refusal::NoSuchRun { run } => Ok(format!(in alloc; "|  no run {run}\n")?),
        Refusal::NotOwner { owner } => {
            Ok(format!(in alloc; "|  run {asked} belongs to client {owner}\n")?)
        }
        Refusal::Limit { which, count } => {
            let name = limit_name(*which);
            Ok(format!(in alloc; "|  limit reached: {name} {count}\n")?)
        }
    }
}
