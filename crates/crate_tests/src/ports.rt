// The bytes that the adapters over std move, and the ports that no call of which fails.
use eq_ports::{
    Files, Sink, Source, StdFiles, StdSink, StdSource, SureSink, SureSource, write_whole,
};
use std::process::Abort;
use std::test::Fail;

/// Reads into three bytes again and again, and expects these texts, one for each read.
fn expect_reads<S: Source>(rt: &impl Abort, source: &mut S, texts: &[&str]) {
    for text in texts {
        let mut into = [0; 3];
        match source.read(&mut into) {
            Ok(count) => assert_eq!(rt; &into[..count], text.as_bytes()),
            Err(_) => panic!(rt; "failed at {text}"),
        }
    }
}

#[test]
fn reads_to_the_end(rt: HostRuntime) -> Result<(), Fail> {
    expect_reads(
        &rt,
        &mut StdSource::new("abcd".as_bytes()),
        &["abc", "d", ""],
    );
    let mut sure = SureSource::new(b"abcd".to_vec(rt.alloc())?);
    expect_reads(&rt, &mut sure, &["abc", "d", ""]);
    Ok(())
}

#[test]
fn writes_while_there_is_room(rt: HostRuntime) -> Result<(), Fail> {
    let mut sink = SureSink::new(Vec::with_capacity(rt.alloc(), 3)?);
    for (piece, count) in [("ab", Some(2)), ("cd", Some(1)), ("x", None), ("", Some(0))] {
        assert_eq!(rt; sink.write(piece.as_bytes()).ok(), count, "at {piece}");
    }
    assert_eq!(rt; sink.written(), "abc".as_bytes());
    Ok(())
}

#[test]
fn writes_to_a_writer(rt: HostRuntime) -> Result<(), Fail> {
    let mut bytes = Vec::new(rt.alloc());
    let mut sink = StdSink::new(&mut bytes);
    assert!(rt; write_whole(&mut sink, b"abc").is_ok());
    drop(sink);
    assert_eq!(rt; bytes.as_slice(), "abc".as_bytes());
    Ok(())
}

#[test]
fn reads_files_of_the_system(rt: HostRuntime) {
    let mut files = StdFiles::new(&rt);
    for (name, is_there, count) in [
        ("/dev/zero", true, Some(3)),
        ("/dev/null/a", false, None),
        ("/dev/null", true, Some(0)),
    ] {
        assert_eq!(rt; files.choose(name).is_ok(), is_there, "at {name}");
        let mut into = [0; 3];
        assert_eq!(rt; files.read(&mut into).ok(), count, "at {name}");
    }
}
