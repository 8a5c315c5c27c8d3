// What the error stream is told where memory ends, and the status: no row can say it. Each other outcome, each refusal
// of a text, each limit and each check has rows.

use gossa_base::{MemSink, NoMemory};
use gossa_core::{Outcome, Status, tell};
use std::alloc::Global;

#[test]
fn tells_that_memory_ended(rt: HostRuntime) {
    assert!(rt; is_told(rt.alloc(), &Outcome::NoMemory, b"gossa: out of memory\n") == Ok(true));
    assert!(rt; Outcome::NoMemory.status() == Status::NoMemory && Status::NoMemory.number() == 5);
}

// Whether the error stream is told this of an outcome.
fn is_told(alloc: Global, outcome: &Outcome, want: &[u8]) -> Result<bool, NoMemory> {
    let mut errs = MemSink::new(alloc, 100, 4096, &[])?;
    tell(&mut errs, outcome);
    Ok(errs.held() == want)
}
