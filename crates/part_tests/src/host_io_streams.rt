//! Sources and sinks in memory, of which a call is to fail.
use crate::wrong::Wrong;
use host_io::{Failed, Gate, MemSink, MemSource, NoGate, Sink, Source};

// Whether a source gives these bytes, three at most; nothing where it fails.
fn gives(source: &mut MemSource, bytes: Option<&[u8]>) -> bool {
    let mut buf = [0; 3];
    match (source.read(&mut buf), bytes) {
        (Ok(count), Some(bytes)) => count <= buf.len() && &buf[..count] == bytes,
        (Err(Failed), None) => true,
        _ => false,
    }
}

#[test]
fn a_source_gives_its_bytes_and_fails_where_it_is_to(rt: HostRuntime) -> Result<(), Wrong> {
    let bytes = b"abcde".to_vec(rt.alloc())?;
    let mut source = MemSource::new(bytes, vec![in rt.alloc(); 1]?)?;
    assert!(rt; gives(&mut source, Some(b"abc")) && gives(&mut source, None));
    assert!(rt; source.faults() == 1);
    assert!(rt; gives(&mut source, Some(b"de")) && gives(&mut source, Some(b"")));
    Ok(())
}

// How many bytes a sink takes; nothing where it fails.
fn takes(sink: &mut MemSink, bytes: &[u8]) -> Option<usize> {
    sink.write(bytes).ok()
}

fn has_written(sink: &MemSink, bytes: &[u8]) -> bool {
    sink.written() == bytes
}

#[test]
fn a_sink_keeps_its_bytes_and_fails_where_it_is_to(rt: HostRuntime) -> Result<(), Wrong> {
    let mut sink = MemSink::new(rt.alloc(), vec![in rt.alloc(); 1]?)?;
    assert!(rt; takes(&mut sink, b"ab") == Some(2) && takes(&mut sink, b"cd").is_none());
    assert!(rt; sink.faults() == 1);
    assert!(rt; takes(&mut sink, b"ef") == Some(2) && has_written(&sink, b"abef"));
    NoGate.before(0, 0, 0);
    Ok(())
}
