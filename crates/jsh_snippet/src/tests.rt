use crate::{Act, Entry, Reply, ReplyBody};
use jsh_text::UText;
use std::test::Fail;

fn takes_send<T: Send>(_: &T) {}

/// Threads hand these to one another.
#[test]
fn entries_and_replies_are_sent(rt: HostRuntime) -> Result<(), Fail> {
    let entry = Entry {
        client: 1,
        act: Act::Leave,
    };
    takes_send(&entry);
    let reply = Reply {
        output: UText::new(rt.alloc()),
        body: ReplyBody::Left,
    };
    takes_send(&reply);
    Ok(())
}
