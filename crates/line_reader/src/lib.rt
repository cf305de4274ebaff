// Lines out of bytes that come in pieces: a row keeps the part of a line that has come so far.
#![tactic(auto)]

ghost use Rattle.std.specs.Prelude.{◌≤◌, length};
ghost use Rattle.line_reader.specs.Steps.{Kept, Finds};

// How many bytes stand at the row's front. If they are a whole line, the place after its LF too; else all bytes are taken.
#[derive(Clone, Copy, Debug, PartialEq, Eq)]
pub struct Found {
    pub count: usize,
    pub next: Option<usize>,
}

// More bytes of a line, as many as the row has room for.
fn keep(line: &mut [u8], kept: usize, bytes: &[u8]) -> usize
    requires { kept ≤ length line.old }
    ensures { Kept line.old kept bytes.now line.new result }
{
    let count = (line.len() - kept).min(bytes.len());
    let end = kept + count;
    line[kept..end].copy_from_slice(&bytes[..count]);
    end
}

// The bytes from a place on, to the end of the line or to their own.
pub fn next_line(line: &mut [u8], kept: usize, bytes: &[u8], at: usize) -> Found
    requires { (kept ≤ length line.old) × (at ≤ length bytes.now) }
    ensures { Finds line.old kept bytes.now at line.new result }
{
    let rest = &bytes[at..];
    match rest.iter().position(|b| *b == b'\n') {
        Some(end) => Found {
            count: keep(line, kept, &rest[..end]),
            next: Some(at + end + 1),
        },
        None => Found {
            count: keep(line, kept, rest),
            next: None,
        },
    }
}
