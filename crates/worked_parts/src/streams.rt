//! Properties outside the contracts: signals and flushes, and that some sources and sinks never fail.
ghost use Rattle.std.specs.Prelude.{◌≡◌, ◌<◌, ◌≤◌, length, IfOk};

use memory_streams::{SureSink, SureSource};
use script_play::{PlaySource, TallySink};
use script_streams::{Failed, Sink, Source, StdSink, StdSource};
use std::io;
use std::io::{Error, ErrorKind, Read, Write};
use std::process::Abort;
use std::test::Fail;

/// Reads once for each of the pieces, with a buffer of four bytes. `!` marks a read that fails.
fn expect_reads<S: Source>(rt: &impl Abort, source: &mut S, pieces: &[&str]) {
    let mut buf = [0; 4];
    for piece in pieces {
        match source.read(&mut buf) {
            Ok(count) => assert_eq!(rt; &buf[..count], piece.as_bytes()),
            Err(Failed) => assert_eq!(rt; *piece, "!"),
        }
    }
}

/// Writes the rest of the text once for each of the answers. `None` marks a write that fails.
fn expect_writes<K: Sink>(rt: &impl Abort, sink: &mut K, text: &str, answers: &[Option<usize>]) {
    let mut rest = text.as_bytes();
    for answer in answers {
        let written = sink.write(rest);
        if let Ok(count) = written {
            rest = &rest[count..];
        }
        assert_eq!(rt; written.ok(), *answer, "of {text}");
    }
}

/// Accepts only a source and a sink that never fail.
fn expect_sure<S: Source, K: Sink>(_source: &S, _sink: &K)
    requires source { (s : S) → (S.state s).faults ≡ 0 }
    requires sink { (s : K) → (K.state s).faults ≡ 0 }
{}

#[test]
fn sure_ones_meet_what_a_generic_caller_asks(rt: HostRuntime) -> Result<(), Fail> {
    let source = SureSource::new(rt.alloc(), b"", 1)?;
    let sink = SureSink::new(rt.alloc(), 0, 1)?;
    expect_sure(&source, &sink);
    expect_sure(&PlaySource::new(0, 0), &TallySink::new());
    Ok(())
}

/// Five lines with the seed 7.
const PLAYED: &str = r#"{"cmd":"open","text":""}
{"cmd":"decos","at":[0,0]}
{"cmd":"edit","ops":[{"at":[0,0],"text":"("}]}
{"cmd":"undo"}
{"cmd":"redo"}
"#;

/// Reads the text and then the end, with this buffer each time.
fn expect_text<S: Source>(rt: &impl Abort, source: &mut S, text: &str, buf: &mut [u8])
    requires { 0 < length buf.old }
{
    for piece in text.as_bytes().chunks(buf.len()) {
        match source.read(buf) {
            Ok(count) => assert_eq!(rt; &buf[..count], piece),
            Err(Failed) => assert!(rt; false, "a read failed"),
        }
    }
    assert_eq!(rt; source.read(buf), Ok(0));
}

#[test]
fn a_script_is_played(rt: HostRuntime) {
    let mut in_pieces = PlaySource::new(5, 7);
    expect_text(&rt, &mut in_pieces, PLAYED, &mut [0; 3]);

    let mut at_once = PlaySource::new(5, 7);
    expect_text(&rt, &mut at_once, PLAYED, &mut [0; 200]);

    let mut sink = TallySink::new();
    expect_writes(&rt, &mut sink, PLAYED, &[Some(129), Some(0)]);
    assert_eq!(rt; (sink.count(), sink.sum()), (129, 9778));
}

/// The first call is interrupted by a signal, the second reads or writes at most two bytes, and all later ones fail.
#[derive(Drop)]
struct Faulty {
    calls: u8,
    flushes: u8,
}

impl Faulty {
    fn turn(&mut self, len: usize) -> io::Result<usize>
        ensures { IfOk result (λ n. n ≤ len) }
    {
        self.calls = self.calls.saturating_add(1);
        match self.calls {
            1 => Err(Error::from(ErrorKind::Interrupted)),
            2 => Ok(len.min(2)),
            _ => Err(Error::from(ErrorKind::BrokenPipe)),
        }
    }
}

impl Read for Faulty {
    fn read(&mut self, buf: &mut [u8]) -> io::Result<usize> {
        self.turn(buf.len())
    }
}

impl Write for Faulty {
    fn write(&mut self, buf: &[u8]) -> io::Result<usize> {
        self.turn(buf.len())
    }

    fn flush(&mut self) -> io::Result<()> {
        self.flushes = self.flushes.saturating_add(1);
        Ok(())
    }
}

#[test]
fn sources_over_readers(rt: HostRuntime) {
    let mut source = StdSource::new(b"abcdef".as_slice());
    expect_reads(&rt, &mut source, &["abcd", "ef", "", ""]);

    let mut source = StdSource::new(Faulty {
        calls: 0,
        flushes: 0,
    });
    expect_reads(&rt, &mut source, &["\0\0", "!", "!"]);
}

#[test]
fn sinks_over_writers(rt: HostRuntime) {
    let mut sink = StdSink::new(Vec::new(rt.alloc()));
    expect_writes(&rt, &mut sink, "abc", &[Some(3), Some(0)]);
    assert_eq!(rt; sink.into_inner().as_slice(), b"abc".as_slice());

    let mut sink = StdSink::new(Faulty {
        calls: 0,
        flushes: 0,
    });
    expect_writes(&rt, &mut sink, "abcdef", &[Some(2), None, None]);
    assert_eq!(rt; sink.into_inner().flushes, 1);

    let mut sink = StdSink::new(rt.stdout());
    expect_writes(&rt, &mut sink, "", &[Some(0)]);
}
