//! Adapters over readers and writers, and streams in memory whose calls fail where they are to.

ghost use Rattle.std.specs.Prelude.{◌≡◌, ◌≢◌};

use a64_run::{
    Failed, MemSink, MemSource, Ran, ReadSource, Sink, Source, SureSink, SureSource, WriteSink, run,
};
use std::alloc::Global;
use std::test::Fail;

/// The status of a run.
fn status_of(ran: Ran) -> u8
    ensures { result ≡ ran.status }
{
    ran.status
}

/// The status of a run over a source and sinks that never fail: neither a failed read nor a failed
/// write.
fn status_of_sure_run(alloc: Global, words: &[String], bytes: Vec<u8>) -> u8
    ensures read { result ≢ 3 }
    ensures write { result ≢ 4 }
{
    let mut source = SureSource::new(bytes);
    let mut sink = SureSink::new();
    let mut errs = SureSink::new();
    status_of(run(alloc, words, &mut source, &mut sink, &mut errs))
}

#[test]
fn sure_streams_never_fail(rt: HostRuntime) -> Result<(), Fail> {
    let alloc = rt.alloc();
    let mut words = Vec::new(alloc);
    words.push(String::from_str(alloc, "unknown")?)?;
    assert_eq!(rt; status_of_sure_run(alloc, &words, Vec::new(alloc)), 2);
    let file = Vec::from_slice(alloc, b"Nop4\nRet\n")?;
    assert_eq!(rt; status_of_sure_run(alloc, &[], file), 0);
    Ok(())
}

#[test]
fn calls_fail_where_they_are_to(rt: HostRuntime) -> Result<(), Fail> {
    let alloc = rt.alloc();
    let bytes = Vec::from_slice(alloc, b"abc")?;
    let mut source = MemSource::new(bytes, 2, vec![in alloc; 1, 3]?);
    let mut buf = [0; 8];
    for want in [Err(Failed), Ok(2), Err(Failed), Ok(1), Ok(0)] {
        assert!(rt; source.read(&mut buf) == want);
    }
    let mut sink = MemSink::new(alloc, 3, 2, vec![in alloc; 2]?)?;
    for want in [Ok(2), Err(Failed), Ok(1), Err(Failed)] {
        assert!(rt; sink.write(b"abcd") == want);
    }
    assert_eq!(rt; sink.bytes(), b"aba".as_slice());
    Ok(())
}

#[test]
fn adapters_pass_bytes_on(rt: HostRuntime) -> Result<(), Fail> {
    let mut source = ReadSource::new(b"abc".as_slice());
    let mut buf = [0; 2];
    for want in [Ok(2), Ok(1), Ok(0)] {
        assert!(rt; source.read(&mut buf) == want);
    }
    let mut bytes = Vec::new(rt.alloc());
    let mut sink = WriteSink::new(&mut bytes);
    assert!(rt; sink.write(b"abc") == Ok(3));
    assert_eq!(rt; bytes.as_slice(), b"abc".as_slice());
    // a writer that takes nothing has failed
    let mut room = [0; 2];
    let mut sink = WriteSink::new(room.as_mut_slice());
    assert!(rt; sink.write(b"abc") == Ok(2));
    assert!(rt; sink.write(b"c") == Err(Failed));
    Ok(())
}
