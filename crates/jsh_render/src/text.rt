//! Pieces of a line.

ghost use Rattle.std.specs.Prelude.{◌≡◌, ◌++◌, decimal, OnOk};
ghost use Rattle.jsh_text.specs.Utf.{utf8};

use itoa::Buffer;
use jsh_text::{NoMemory, UText};

pub fn push(bytes: &mut Vec<u8>, more: &[u8]) -> Result<(), NoMemory>
    ensures { OnOk result (bytes.new.items ≡ bytes.old.items ++ more.now) }
{
    bytes.extend_from_slice(more)?;
    Ok(())
}

pub fn push_text(bytes: &mut Vec<u8>, text: &UText) -> Result<(), NoMemory>
    ensures { OnOk result (bytes.new.items ≡ bytes.old.items ++ utf8 text.now) }
{
    let text = text.to_utf8(*bytes.allocator())?;
    push(bytes, text.as_slice())
}

pub fn push_decimal(bytes: &mut Vec<u8>, number: u64) -> Result<(), NoMemory>
    ensures { OnOk result (bytes.new.items ≡ bytes.old.items ++ decimal number) }
{
    let mut buffer = Buffer::new();
    push(bytes, buffer.format(number).as_bytes())
}
