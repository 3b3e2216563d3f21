// The pieces in which a stream takes its bytes.
use eq_ports::MemorySource;
use std::alloc::Global;
use std::process::Abort;
use std::test::Fail;
use term_input::{SourceState, Stream};

/// The place from which on a stream is to hold bytes, and what it holds and knows after one more read.
type Step<'a> = (u64, &'a str, SourceState);

/// Gives up the bytes before a place, takes what one read gives, and expects what the step says.
fn expect_step(
    rt: &impl Abort,
    stream: &mut Stream,
    source: &mut MemorySource,
    (place, bytes, state): Step<'_>,
) {
    if stream.place() <= place && place <= stream.taken_count() {
        stream.drop_to(place);
    }
    assert!(rt; stream.take_more(source).is_ok());
    assert_eq!(rt; stream.place(), place);
    assert_eq!(rt; stream.bytes(), bytes.as_bytes());
    assert_eq!(rt; stream.state(), state);
}

/// Takes a text of which a read gives three bytes and one read may fail (0 for none), up to six bytes.
fn expect_stream(
    rt: &impl Abort,
    alloc: Global,
    text: &str,
    fails: u64,
    steps: &[Step<'_>],
) -> Result<(), Fail> {
    let bytes = text.as_bytes().to_vec(alloc)?;
    let mut source = MemorySource::new(bytes, 3, vec![in alloc; fails]?);
    let mut stream = Stream::new(alloc, 6)?;
    for step in steps {
        expect_step(rt, &mut stream, &mut source, *step);
    }
    Ok(())
}

#[test]
fn takes_pieces(rt: HostRuntime) -> Result<(), Fail> {
    let behind_the_limit = [
        (0, "abc", SourceState::Open),
        (1, "bcdef", SourceState::Open),
        (5, "fg", SourceState::Open),
        (5, "fg", SourceState::Open),
    ];
    expect_stream(&rt, rt.alloc(), "abcdefghi", 0, &behind_the_limit)?;
    let behind_the_end = [
        (0, "ab", SourceState::Open),
        (0, "ab", SourceState::AtEnd),
        (0, "ab", SourceState::AtEnd),
    ];
    expect_stream(&rt, rt.alloc(), "ab", 3, &behind_the_end)?;
    let behind_a_failure = [
        (0, "abc", SourceState::Open),
        (0, "abc", SourceState::Failed),
        (0, "abc", SourceState::Failed),
    ];
    expect_stream(&rt, rt.alloc(), "abcdef", 2, &behind_a_failure)?;
    Ok(())
}
