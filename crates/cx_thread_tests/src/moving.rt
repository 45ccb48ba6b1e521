use cx_io::{Buffer, Bytes, ReadFail, StdIn, StdOut, SureBuffer, SureBytes, read_all, write_all};
use std::test::Fail;

const TEXT: &[u8] = b"twenty bytes of text";

#[test]
fn reads_to_the_end_or_past_the_limit(rt: HostRuntime) -> Result<(), Fail> {
    let alloc = rt.alloc();
    for (limit, want) in [(100, 20), (20, 20), (19, 20), (7, 8), (0, 1)] {
        let mut source = Bytes::new(TEXT.to_vec(alloc)?, 3, Vec::new(alloc));
        let bytes = read_all(alloc, &mut source, limit)?;
        assert_eq!(rt; bytes.len(), want, "at {limit}");
        assert!(rt; TEXT.starts_with(&bytes), "at {limit}");
    }
    let mut source = SureBytes::new(TEXT.to_vec(alloc)?, 1);
    let bytes = read_all(alloc, &mut source, 100)?;
    assert_eq!(rt; bytes.as_slice(), TEXT);
    Ok(())
}

#[test]
fn writes_the_whole_text(rt: HostRuntime) -> Result<(), Fail> {
    let alloc = rt.alloc();
    let mut sink = Buffer::new(b"> ".to_vec(alloc)?, 3, Vec::new(alloc));
    assert!(rt; write_all(&mut sink, TEXT));
    assert_eq!(rt; sink.bytes(), b"> twenty bytes of text".as_slice());
    let mut sink = SureBuffer::new(Vec::new(alloc), 1);
    assert!(rt; write_all(&mut sink, TEXT));
    assert_eq!(rt; sink.bytes(), TEXT);
    Ok(())
}

#[test]
fn a_failed_call_ends_the_move(rt: HostRuntime) -> Result<(), Fail> {
    let alloc = rt.alloc();
    for call in [0, 1, 2] {
        let mut source = Bytes::new(TEXT.to_vec(alloc)?, 9, vec![in alloc; call]?);
        assert_eq!(rt;
            read_all(alloc, &mut source, 100).err(),
            Some(ReadFail::Failed),
            "at {call}"
        );
    }
    for (call, want) in [(0, 0), (1, 8), (2, 16)] {
        let mut sink = Buffer::new(Vec::new(alloc), 8, vec![in alloc; call]?);
        assert!(rt; !write_all(&mut sink, TEXT), "at {call}");
        assert_eq!(rt; sink.bytes(), &TEXT[..want], "at {call}");
    }
    Ok(())
}

#[test]
fn the_sides_of_the_system(rt: HostRuntime) -> Result<(), Fail> {
    let alloc = rt.alloc();
    let mut source = StdIn::new(TEXT);
    let bytes = read_all(alloc, &mut source, 100)?;
    assert_eq!(rt; bytes.as_slice(), TEXT);
    let mut room = [0u8; 8];
    let mut sink = StdOut::new(&mut room[..]);
    assert!(rt; write_all(&mut sink, &TEXT[..8]));
    assert!(rt;
        !write_all(&mut sink, &TEXT[8..]),
        "a writer that takes nothing is a fault"
    );
    Ok(())
}
