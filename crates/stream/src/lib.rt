// Reads and writes that a signal may interrupt: such a call is made again, and any other error is told.
// Nothing says that the signals end, so a loop ends after a number of turns that no run uses up.
#![tactic(auto)]

ghost use Rattle.std.specs.Prelude.{◌≡◌, IsSome, IfSome, IfNone, OnSome, Some, None, ◌<◌, ◌≤◌, length, take};
ghost use Rattle.std.specs.Io.KnownBytes.{Appends, Consumes, IsAtEnd, Keeps};

use std::io::{Error, ErrorKind, Read, Write};

// A reader or a writer, and the error of its last call that failed, if one did: it stays here for the end of the program, which says it.
#[derive(Drop)]
pub struct Stream<S> {
    pub inner: S,
    pub failure: Option<Error>,
}

impl<S> Stream<S> {
    pub fn new(inner: S) -> Stream<S>
        ensures inner { result.inner ≡ inner }
        ensures failure { result.failure ≡ None }
    {
        Stream {
            inner,
            failure: None,
        }
    }
}

// How many bytes came, 0 at the input's end; `None` after a read that failed.
pub fn read_some<R: Read>(input: &mut Stream<R>, buffer: &mut [u8]) -> Option<usize>
    ensures count { IfSome result (λ count. count ≤ length buffer.new) }
    ensures bytes { IfSome result (λ count. Consumes (R.remaining input.old.inner) (R.remaining input.new.inner)
        (take count buffer.new)) }
    ensures end { result ≡ Some 0 → 0 < length buffer.new → IsAtEnd (R.remaining input.new.inner) }
    ensures unread { IfNone result (Keeps (R.remaining input.old.inner) (R.remaining input.new.inner)) }
    ensures told { IfNone result (IsSome input.new.failure) }
    ensures kept { OnSome result (input.new.failure ≡ input.old.failure) }
{
    for _ in 0..u64::MAX {
        match input.inner.read(buffer) {
            Ok(count) => return Some(count),
            Err(error) => {
                if error.kind() != ErrorKind::Interrupted {
                    input.failure = Some(error);
                    return None;
                }
            }
        }
    }
    input.failure = Some(Error::from(ErrorKind::Interrupted));
    None
}

// Writes all the bytes, however many a write takes; `None` after a write that failed.
pub fn write_bytes<W: Write>(output: &mut Stream<W>, bytes: &[u8]) -> Option<()>
    ensures bytes { OnSome result (Appends (W.contents output.old.inner) (W.contents output.new.inner) bytes.now) }
    ensures told { IfNone result (IsSome output.new.failure) }
    ensures kept { OnSome result (output.new.failure ≡ output.old.failure) }
{
    let mut done = 0;
    for _ in 0..u64::MAX {
        if done == bytes.len() {
            return Some(());
        }
        match output.inner.write(&bytes[done..]) {
            Ok(put) => done += put,
            Err(error) => {
                if error.kind() != ErrorKind::Interrupted {
                    output.failure = Some(error);
                    return None;
                }
            }
        }
    }
    output.failure = Some(Error::from(ErrorKind::Interrupted));
    None
}
