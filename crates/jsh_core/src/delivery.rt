ghost use Rattle.std.specs.Prelude.{◌≡◌, ℕ, [], slice_get, slice_set, unwrap_or};
ghost use Rattle.jsh_core.specs.Parts.{state_from, IsSound, IsWithin};
ghost use Rattle.jsh_core.specs.Step.{delivered, hands_over};

use crate::parts::Parts;
use jsh_snippet::{Reply, ReplyBody};
use jsh_text::UText;
use std::alloc::Global;
use std::mem::replace;

/// Whether a reply hands over what the client's threads have printed.
fn hands_over(body: &ReplyBody) -> bool
    ensures { result ≡ hands_over body.now }
{
    !matches!(body, ReplyBody::Turned { .. } | ReplyBody::Refused(_))
}

/// What a client's threads have printed, which isn't there any more.
fn take_pending(pending: &mut [UText], alloc: Global, client: u32) -> UText
    ensures taken { result ≡ unwrap_or (slice_get pending.old client) [] }
    ensures rest { pending.new ≡ slice_set pending.old client [] }
{
    let place = client as usize;
    if place >= pending.len() {
        return UText::new(alloc);
    }
    replace(&mut pending[place], UText::new(alloc))
}

/// The reply to a client. It takes no memory.
pub fn deliver(parts: &mut Parts, alloc: Global, client: u32, body: ReplyBody) -> Reply
    requires sound { IsSound parts.old }
    ensures step { record { state = state_from parts.new; reply = result } ≡ delivered client (record { state = state_from parts.old; body = body }) }
    ensures sound { IsSound parts.new }
    ensures within { (entries : ℕ) → IsWithin entries parts.old → IsWithin entries parts.new }
{
    let output = if hands_over(&body) {
        take_pending(&mut parts.world.pending, alloc, client)
    } else {
        UText::new(alloc)
    };
    Reply { output, body }
}
