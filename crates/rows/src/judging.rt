// The judge of a row: whether what came is what is wanted, and where they first differ.

ghost use Rattle.std.specs.Prelude.{◌≡◌, None, MatchOption};
ghost use Rattle.rows.specs.Judging.{AsWanted, DiffersAt, FirstDiffers, Holds, first_line};

use gossa_base::Bytes;

/// What a call has to come to. What is absent is not compared.
#[derive(Drop)]
pub struct Wanted {
    pub status: Option<u8>,
    pub output: Option<Bytes>,
    pub errors: Option<Bytes>,
    pub left: Option<Bytes>,
}

/// What a call came to: its status, what it wrote to the output and the error stream, and what the source has left.
#[derive(Drop)]
pub struct Came {
    pub status: u8,
    pub output: Bytes,
    pub errors: Bytes,
    pub left: Bytes,
}

/// The first part that differs, and the first line of it that differs, by its number from 1.
#[derive(Clone, Copy, Debug, PartialEq, Eq)]
pub enum Difference {
    Status,
    Output(usize),
    Errors(usize),
    Left(usize),
}

/// Where what came first differs from what is wanted; none exactly where all that is given is equal.
pub fn judge(wanted: &Wanted, came: &Came) -> Option<Difference>
    ensures cases { MatchOption result (Holds wanted.now came.now) (FirstDiffers wanted.now came.now) }
    ensures whole { Holds wanted.now came.now → result ≡ None }
{
    if let Some(status) = wanted.status
        && status != came.status
    {
        return Some(Difference::Status);
    }
    if let Some(line) = differing_line(&wanted.output, &came.output) {
        return Some(Difference::Output(line));
    }
    if let Some(line) = differing_line(&wanted.errors, &came.errors) {
        return Some(Difference::Errors(line));
    }
    if let Some(line) = differing_line(&wanted.left, &came.left) {
        return Some(Difference::Left(line));
    }
    None
}

// The first line in which a text differs from the one that is wanted, where one is.
fn differing_line(wanted: &Option<Bytes>, came: &Bytes) -> Option<usize>
    ensures { MatchOption result (AsWanted wanted.now came.now) (λ line. DiffersAt line wanted.now came.now) }
{
    match wanted {
        Some(text) if text.as_slice() != came.as_slice() => {
            Some(first_line(text.as_slice(), came.as_slice()))
        }
        _ => None,
    }
}

// The number of the line in which the first byte stands that two texts don't share.
fn first_line(one: &[u8], other: &[u8]) -> usize
    ensures { result ≡ first_line one.now other.now }
{
    let shared = one.len().min(other.len());
    let mut line = 1;
    'bytes: for i in 0..shared {
        if one[i] != other[i] {
            return line;
        }
        if one[i] == b'\n' {
            line += 1;
        }
    }
    line
}
