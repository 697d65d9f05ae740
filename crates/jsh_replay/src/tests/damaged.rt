//! The journal of a sum, cut short and changed.
use super::{ONE_SUM, Read, reading_of};
use std::test::Fail;

/// A reader that knows the six tags of that journal alone, and counts no limit.
#[derive(Clone, Copy)]
struct Plain {
    count: u64,
    numbered: usize,
    there: [bool; 256],
    closed: bool,
}

fn at_header() -> Plain {
    let mut there = [false; 256];
    there[0] = true;
    Plain {
        count: 0,
        numbered: 1,
        there,
        closed: false,
    }
}

fn behind(bytes: &[u8], count: usize) -> Option<&[u8]> {
    if count <= bytes.len() {
        Some(&bytes[count..])
    } else {
        None
    }
}

fn number(bytes: &[u8]) -> Option<u64> {
    match bytes {
        [a, b, c, d, ..] => {
            Some(((*a as u64 * 256 + *b as u64) * 256 + *c as u64) * 256 + *d as u64)
        }
        _ => None,
    }
}

/// A text of ASCII characters.
fn behind_text(bytes: &[u8]) -> Option<&[u8]> {
    let len = number(bytes)?;
    let rest = behind(bytes, 4)?;
    if len > 65536 || len > rest.len() as u64 {
        return None;
    }
    for byte in &rest[..len as usize] {
        if *byte >= 128 {
            return None;
        }
    }
    behind(rest, len as usize)
}

/// A thread and 1 to 256 steps.
fn behind_turn(bytes: &[u8]) -> Option<&[u8]> {
    match bytes {
        [_, _, _, _, 0, 0, ..] => None,
        [_, _, _, _, 0, _, rest @ ..] => Some(rest),
        [_, _, _, _, 1, 0, rest @ ..] => Some(rest),
        _ => None,
    }
}

impl Plain {
    /// What stands behind an entry that may come.
    fn behind_entry(self, bytes: &[u8]) -> Option<&[u8]> {
        let [tag, client, fields @ ..] = bytes else {
            return None;
        };
        if self.closed || !self.there[*client as usize] {
            return None;
        }
        match *tag {
            1 => Some(fields),
            2 => behind_text(fields),
            3 => behind_turn(fields),
            4 => behind(fields, 4),
            10 => Some(fields),
            11 => { if *client == 0 { Some(fields) } else { None } }
            _ => None,
        }
    }

    fn after(self, bytes: &[u8]) -> Plain {
        let mut next = self;
        next.count = next.count.wrapping_add(1);
        match bytes {
            [1, ..] => {
                if next.numbered < 64 {
                    next.there[next.numbered] = true;
                    next.numbered += 1;
                }
            }
            [10, client, ..] => next.there[*client as usize] = false,
            [11, ..] => next.closed = true,
            _ => (),
        }
        next
    }
}

/// Where the first bad item begins behind a header, counted from the end of the bytes.
fn left_at_fault(bytes: &[u8]) -> Option<usize> {
    let mut at = at_header();
    let mut rest = bytes;
    for _item in 0..bytes.len() {
        match at.behind_entry(rest) {
            Some(after) => {
                at = at.after(rest);
                rest = after;
            }
            None => return left_at_end(at.count, rest),
        }
    }
    left_at_end(at.count, rest)
}

fn left_at_end(count: u64, rest: &[u8]) -> Option<usize> {
    match rest {
        [255, told @ ..] => {
            if number(told) != Some(count) {
                Some(rest.len())
            } else if told.len() > 4 {
                Some(told.len() - 4)
            } else {
                None
            }
        }
        _ => Some(rest.len()),
    }
}

/// What a whole journal or a damaged one comes to.
fn plain_read(bytes: &[u8], entries: usize) -> Read {
    if !bytes.starts_with(b"jshj1\n") {
        return Read::Bad(0);
    }
    match left_at_fault(&bytes[6..]) {
        None => Read::Entries(entries),
        Some(left) => Read::Bad((bytes.len() as u64).saturating_sub(left as u64)),
    }
}

#[test]
fn a_journal_cut_short_is_bad_where_an_item_is_not_whole(rt: HostRuntime) {
    for len in 0..42 {
        let cut = &ONE_SUM[..len];
        assert_eq!(rt; reading_of(rt.alloc(), cut), plain_read(cut, 6), "{len}");
    }
}

#[test]
fn a_journal_with_a_byte_changed_is_read_alike(rt: HostRuntime) {
    for place in 0..42 {
        for byte in [0, 1, 255] {
            let mut bytes = ONE_SUM;
            bytes[place] = byte;
            assert_eq!(rt;
                reading_of(rt.alloc(), &bytes),
                plain_read(&bytes, 6),
                "{place} {byte}"
            );
        }
    }
}

#[test]
fn the_places_of_the_example_are_told(rt: HostRuntime) -> Result<(), Fail> {
    assert_eq!(rt; reading_of(rt.alloc(), &ONE_SUM), Read::Entries(6));
    assert_eq!(rt; reading_of(rt.alloc(), &ONE_SUM[..41]), Read::Bad(37));
    assert_eq!(rt; reading_of(rt.alloc(), &[]), Read::Bad(0));
    Ok(())
}
