//! The greatest client, and the longest text.
use super::{Read, reading_of, with_header};
use std::alloc::Global;
use std::test::Fail;

/// A journal of so many entries by client 0 that each number a client, and of a question by a client.
fn entered(alloc: Global, enters: u8, client: u8) -> Result<Vec<u8>, Fail> {
    let mut bytes = with_header(alloc, &[])?;
    for _time in 0..enters {
        bytes.extend_from_slice(&[1, 0])?;
    }
    bytes.extend_from_slice(&[8, client, 0, 255, 0, 0, 0])?;
    bytes.push(enters.wrapping_add(1))?;
    Ok(bytes)
}

/// A journal of one snippet of so many bytes.
fn submitted(alloc: Global, len: u32) -> Result<Vec<u8>, Fail> {
    let mut bytes = with_header(alloc, &[2, 0])?;
    bytes.extend_from_slice(&len.to_be_bytes())?;
    for _time in 0..len {
        bytes.push(b' ')?;
    }
    bytes.extend_from_slice(&[255, 0, 0, 0, 1])?;
    Ok(bytes)
}

#[test]
fn a_client_is_one_of_sixty_four(rt: HostRuntime) -> Result<(), Fail> {
    let rows = [
        (62, 62, Read::Entries(63)),
        (62, 63, Read::Bad(130)),
        (63, 63, Read::Entries(64)),
        (63, 64, Read::Bad(132)),
        // a further Enter is refused, and numbers nobody
        (64, 63, Read::Entries(65)),
        (64, 64, Read::Bad(134)),
        (64, 255, Read::Bad(134)),
    ];
    for (enters, client, want) in rows {
        let bytes = entered(rt.alloc(), enters, client)?;
        assert_eq!(rt; reading_of(rt.alloc(), &bytes), want, "{enters} {client}");
    }
    Ok(())
}

#[test]
fn a_text_has_at_most_65536_bytes(rt: HostRuntime) -> Result<(), Fail> {
    let rows = [(65_536, Read::Entries(1)), (65_537, Read::Bad(6))];
    for (len, want) in rows {
        let bytes = submitted(rt.alloc(), len)?;
        assert_eq!(rt; reading_of(rt.alloc(), &bytes), want, "{len}");
    }
    Ok(())
}
