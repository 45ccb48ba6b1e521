use cx_names::{NoMemory, Outcome, Reply, ThreadNo};

#[test]
fn replies_are_written(rt: HostRuntime) -> Result<(), NoMemory> {
    let rows = [
        (Reply::Ok, "ok"),
        (Reply::OverExpected, "over-expected"),
        (Reply::Nobody, "none"),
        (Reply::Number(-7), "-7"),
        (Reply::Thread(ThreadNo(2)), "worker"),
        (Reply::Threw(4), "threw 4"),
        (Reply::Outcome(Outcome::Value(-1)), "value -1"),
        (Reply::Outcome(Outcome::Exception(9)), "exception 9"),
        (Reply::Outcome(Outcome::Broken), "broken_promise"),
    ];
    for (reply, text) in rows {
        assert_eq!(rt; reply.word(rt.alloc(), "worker")?.as_str(), text);
    }
    Ok(())
}
