//! Bytes that aren't a journal.
use super::{Read, reading_of, with_header};
use std::alloc::Global;
use std::process::Abort;
use std::test::Fail;

/// What stands behind the header, and the place that is bad.
#[derive(Clone, Copy)]
struct Row(&'static [u8], u64);

fn check(rt: &impl Abort, alloc: Global, row: Row) -> Result<(), Fail> {
    let bytes = with_header(alloc, row.0)?;
    assert_eq!(rt; reading_of(alloc, &bytes), Read::Bad(row.1), "{:?}", row.0);
    Ok(())
}

fn check_all(rt: &impl Abort, alloc: Global, rows: &[Row]) -> Result<(), Fail> {
    for row in rows {
        check(rt, alloc, *row)?;
    }
    Ok(())
}

#[test]
fn texts_and_names_are_refused(rt: HostRuntime) -> Result<(), Fail> {
    let rows = [
        // no UTF-8, alone and behind an entry: ff; a cut character; a surrogate; more than U+10FFFF
        Row(b"\x02\x00\x00\x00\x00\x01\xff", 6),
        Row(b"\x01\x00\x02\x01\x00\x00\x00\x02a\xc3", 8),
        Row(b"\x02\x00\x00\x00\x00\x03\xed\xa0\x80", 6),
        Row(b"\x08\x00\x09\x00\x00\x00\x04\xf4\x90\x80\x80", 6),
        // names that are no identifiers
        Row(b"\x07\x00\x01\x00\x00\x00\x011", 6),
        Row(b"\x07\x00\x01\x00\x00\x00\x00", 6),
        Row(b"\x07\x00\x01\x00\x00\x00\x03int", 6),
        Row(b"\x07\x00\x01\x00\x00\x00\x03a b", 6),
        Row(b"\x07\x00\x01\x00\x00\x00\x01\xff", 6),
        // a length past the end
        Row(b"\x01\x00\x02\x01\xff\xff\xff\xff", 8),
        Row(b"\x02\x00\x00\x00\x00\x02a", 6),
        Row(b"\x02\x00\x00\x00\x00", 6),
    ];
    check_all(&rt, rt.alloc(), &rows)
}

#[test]
fn clients_and_their_acts_are_refused(rt: HostRuntime) -> Result<(), Fail> {
    let rows = [
        // clients that were never numbered, and that have left
        Row(b"\x0a\x05", 6),
        Row(b"\x01\x01", 6),
        Row(b"\x01\x00\x0a\x01\x0a\x01", 10),
        Row(b"\x0a\x00\x01\x00", 8),
        // turns of 0 and of 257 steps
        Row(b"\x03\x00\x00\x00\x00\x01\x00\x00", 6),
        Row(b"\x03\x00\x00\x00\x00\x01\x01\x01", 6),
        // a close by another client, and an act behind the close
        Row(b"\x01\x00\x0b\x01", 8),
        Row(b"\x01\x00\x0b\x00\x09\x00\xff\x00\x00\x00\x03", 10),
        Row(b"\x0b\x00\x0a\x00", 8),
        // suggestions aren't asked for yet
        Row(b"\x08\x00\x08\x00\x00\x00\x00", 6),
    ];
    check_all(&rt, rt.alloc(), &rows)
}

#[test]
fn tags_and_ends_are_refused(rt: HostRuntime) -> Result<(), Fail> {
    let rows = [
        Row(b"", 6),
        Row(b"\x00\x00", 6),
        Row(b"\x0c\x00", 6),
        Row(b"\xfe\x00", 6),
        Row(b"\x01", 6),
        Row(b"\x07\x00", 6),
        Row(b"\x07\x00\x02\x00\x00\x00\x01", 6),
        Row(b"\x08\x00", 6),
        Row(b"\x08\x00\x0a", 6),
        // counts that are wrong or not whole
        Row(b"\x01\x00\xff\x00\x00\x00\x02", 8),
        Row(b"\x01\x00\xff\x00\x00\x00\x00", 8),
        Row(b"\xff\xff\xff\xff\xff", 6),
        Row(b"\x01\x00\xff\x01\x00\x00\x00", 8),
        Row(b"\xff\x00\x00\x00", 6),
        // bytes behind the end
        Row(b"\xff\x00\x00\x00\x00\x00", 11),
        Row(b"\x01\x00\xff\x00\x00\x00\x01\x01\x00", 13),
    ];
    check_all(&rt, rt.alloc(), &rows)
}

#[test]
fn headers_are_refused(rt: HostRuntime) {
    for bytes in [
        b"jshj2\n\xff\x00\x00\x00\x00".as_slice(),
        b"jshj1".as_slice(),
        b"jshj1\r\n\xff\x00\x00\x00\x00".as_slice(),
        b" jshj1\n\xff\x00\x00\x00\x00".as_slice(),
    ] {
        assert_eq!(rt; reading_of(rt.alloc(), bytes), Read::Bad(0));
    }
}
