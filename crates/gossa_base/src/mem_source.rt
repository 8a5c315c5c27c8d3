// A source over memory.

ghost use Rattle.std.specs.Prelude.{◌≡◌, ◌<◌, ◌≤◌, length, Some, IfOk, OnOk, OnErr};
ghost use Rattle.std.specs.Io.{ReadsAtMost};
ghost use Rattle.std.specs.Io.KnownBytes.{ReadConsumes};
ghost use Rattle.gossa_base.specs.Faults.{Faulted};

use crate::calls::{is_listed, number_after};
use crate::memory::NoMemory;
use crate::outside::{Failed, Source};
use std::alloc::Global;
use std::marker::Model;

/// A source over bytes in memory. It tells what is left, gives at most `piece` bytes at a call, and fails
/// exactly at the listed calls, which are numbered from 1.
#[derive(Drop)]
pub struct MemSource {
    bytes: Vec<u8>,
    at: usize,
    piece: usize,
    next: Option<u64>,
    fail_at: Vec<u64>,
    faults: u64,
}

impl Model for MemSource {
    ghost use Rattle.std.specs.Prelude.{◌≤◌, drop, vec_len};
    ghost use Rattle.gossa_base.specs.MemStreams.{SourceState};

    ghost Value = { SourceState };

    ghost view = { λ s. record {
      left = drop s.at s.bytes.items;
      piece = s.piece;
      next = s.next;
      fail_at = s.fail_at.items;
      faults = s.faults;
    } };

    ghost invariant = { λ s. (s.at ≤ vec_len s.bytes) × (1 ≤ s.piece) };
}

impl MemSource {
    ghost use Rattle.gossa_base.specs.MemStreams.{SourceState};

    /// A source over these bytes. `piece`, the most bytes that one call gives, is at least 1.
    pub fn new(
        alloc: Global,
        bytes: &[u8],
        piece: usize,
        fail_at: &[u64],
    ) -> Result<MemSource, NoMemory>
        requires { 1 ≤ piece }
        ensures { IfOk result (λ source. source ≡ record {
          left = bytes.now;
          piece = piece;
          next = Some 1;
          fail_at = fail_at.now;
          faults = 0;
        }) }
    {
        Ok(MemSource {
            bytes: Vec::from_slice(alloc, bytes)?,
            at: 0,
            piece,
            next: Some(1),
            fail_at: Vec::from_slice(alloc, fail_at)?,
            faults: 0,
        })
    }
}

impl Source for MemSource {
    ghost use Rattle.gossa_base.specs.MemStreams.{ReadsMemory};

    ghost left = { λ s. Some s.left };

    ghost faults = { λ s. s.faults };

    fn read(&mut self, buf: &mut [u8]) -> Result<usize, Failed>
        requires { 0 < length buf.old }
        ensures bound { ReadsAtMost result buf.new }
        ensures bytes { ReadConsumes (Some self.old.left) (Some self.new.left) result buf.new }
        ensures failed { OnErr result (Faulted self.old.faults self.new.faults) }
        ensures calm { OnOk result (self.new.faults ≡ self.old.faults) }
        ensures count { self.old.faults ≤ self.new.faults }
        ensures exact { ReadsMemory self.old self.new buf.new result }
    {
        let call = self.next;
        self.next = number_after(call);
        if is_listed(&self.fail_at, call) {
            self.faults = self.faults.saturating_add(1);
            return Err(Failed);
        }
        let left = &self.bytes[self.at..];
        let n = self.piece.min(buf.len()).min(left.len());
        buf[..n].copy_from_slice(&left[..n]);
        self.at += n;
        Ok(n)
    }
}
