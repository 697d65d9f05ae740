ghost use Rattle.std.specs.Prelude.{◌≡◌, ◌+◌, ◌<◌, ◌≤◌, ◌^◌, take};
ghost use Rattle.jsh_render.specs.Place.{begins_character, next_column, line_behind, column_behind, position_of};

const LINE_FEED: u8 = b'\n';

/// Where something stands in a text. Lines and characters count from 1.
#[derive(Clone, Copy, Debug, PartialEq, Eq)]
pub struct Position {
    pub line: u64,
    pub column: u64,
}

/// The position of a byte of a source.
pub fn position_at(source: &[u8], place: u32) -> Position
    ensures { result ≡ position_of source.now place }
{
    let before = before(source, place as usize);
    let line = line_number(before);
    let column = column_number(before);
    Position { line, column }
}

fn before(source: &[u8], place: usize) -> &[u8]
    ensures { result.now ≡ take place source.now }
{
    if place < source.len() {
        &source[..place]
    } else {
        source
    }
}

fn line_number(before: &[u8]) -> u64
    ensures { result ≡ line_behind before.now }
{
    let line_feeds = before.iter().filter(|byte| **byte == LINE_FEED).count();
    line_feeds as u64 + 1
}

fn column_number(before: &[u8]) -> u64
    ensures { result ≡ column_behind before.now }
{
    let mut column = 1;
    for byte in before {
        column = column_after(column, *byte);
    }
    column
}

// The column behind a byte that stands at this one.
fn column_after(column: u64, byte: u8) -> u64
    requires { column < 2 ^ 63 }
    ensures value { result ≡ next_column column byte }
    ensures bound { result ≤ column + 1 }
{
    if byte == LINE_FEED {
        1
    } else if begins(byte) {
        column + 1
    } else {
        column
    }
}

// Whether a byte begins a character.
fn begins(byte: u8) -> bool
    ensures { result ≡ begins_character byte }
{
    byte < 128 || 192 <= byte
}
