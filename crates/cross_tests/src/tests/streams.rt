//! Streams of the machine.
use std::test::Fail;
use tb_io::{InSource, OutSink, put_all, take_source};

#[test]
fn real_output_is_written(rt: HostRuntime) {
    let mut out = OutSink::new(rt.stdout());
    assert!(rt; put_all(&mut out, b"written\n").is_ok());
}

#[test]
fn reader_is_a_source(rt: HostRuntime) -> Result<(), Fail> {
    let mut source = InSource::new(b"a script".as_slice());
    let taken = take_source(rt.alloc(), &mut source, 8)?;
    assert!(rt; taken.as_slice() == b"a script".as_slice());
    Ok(())
}
