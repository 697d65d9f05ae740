// How a program embeds the shell, as the README shows it.
use super::run;
use jsh_io::{MemoryDesk, MemorySink, MemorySource, OpenGate};
use std::test::Fail;

#[test]
fn evaluates_a_line(rt: HostRuntime) -> Result<(), Fail> {
    let alloc = rt.alloc();
    let source = MemorySource::new(b"1 + 2\n".to_vec(alloc)?, 8192, Vec::new(alloc));
    let sink = MemorySink::new(Vec::new(alloc), 8192, Vec::new(alloc), Vec::new(alloc));
    let mut desk = MemoryDesk::new(alloc, source, sink, Vec::new(alloc));
    let report = run(&rt, alloc, &[], &mut desk, &OpenGate);
    assert_eq!(rt; report.status, 0);
    for client in report.clients.as_slice() {
        assert!(rt; client.sink.bytes() == b"$1 ==> 3\n".as_slice());
    }
    Ok(())
}
