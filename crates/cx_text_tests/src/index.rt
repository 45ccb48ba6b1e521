use cx_index::NameIndex;
use cx_names::NoMemory;

#[test]
fn names_are_found_at_their_first_place(rt: HostRuntime) -> Result<(), NoMemory> {
    let mut index = NameIndex::new(rt.alloc());
    for name in [b"tick".as_slice(), b"a", b"tock", b"a", b"tic"] {
        index.push(name)?;
    }
    assert!(rt; index.len() == 5);
    assert!(rt; index.find(b"tick") == Some(0));
    assert!(rt; index.find(b"a") == Some(1));
    assert!(rt; index.find(b"tock") == Some(2));
    assert!(rt; index.find(b"tic") == Some(4));
    assert!(rt; index.find(b"ti").is_none());
    assert!(rt; index.find(b"").is_none());
    Ok(())
}
