// The memory of a run, changed in place.

ghost use Rattle.std.specs.Prelude.{◌≡◌, ◌≤◌, IfOk, OnOk};
ghost use Rattle.std.specs.FinMap as finite;
ghost use Rattle.gossa_base.specs.Memory.{byte_at, read_number, bytes_of, write_bytes, write_pieces, changed};
ghost use Rattle.ssa_ir.specs.Inputs.{pieces_of};
ghost use Rattle.ssa_meaning.specs.tables.MemoryChanges.{memory_of, since_of};

use gossa_base::NoMemory;
use ssa_ir::{Changed, Piece};
use std::alloc::Global;
use std::collections::BTreeMap;

/// The memory of a run, and, for each address that was written since changes are counted, what stood there before.
#[derive(Drop)]
pub struct RunMemory {
    bytes: BTreeMap<u64, u8>,
    before: BTreeMap<u64, Option<u8>>,
}

impl RunMemory {
    /// The memory that these pieces give, where nothing has changed.
    pub(crate) fn of_pieces(alloc: Global, pieces: &[Piece]) -> Result<RunMemory, NoMemory>
        ensures memory { IfOk result (λ m. memory_of m ≡ write_pieces finite.empty (pieces_of pieces.now)) }
        ensures since { IfOk result (λ m. since_of m ≡ write_pieces finite.empty (pieces_of pieces.now)) }
    {
        let mut memory = RunMemory {
            bytes: BTreeMap::new(alloc),
            before: BTreeMap::new(alloc),
        };
        memory.answer(pieces)?;
        Ok(memory)
    }

    /// The number of this many bytes at an address, the lowest first.
    pub(crate) fn load(&self, address: u64, count: u32) -> u64
        requires { count ≤ 8 }
        ensures { result ≡ read_number (memory_of self.now) address count }
    {
        let mut number = 0;
        for i in 0..count {
            let at = address.wrapping_add(u64::from(count - 1 - i));
            number = 256 * number + u64::from(self.byte(at));
        }
        number
    }

    /// Writes the low bytes of a word at an address.
    pub(crate) fn store(&mut self, address: u64, word: u64, count: u32) -> Result<(), NoMemory>
        ensures memory { OnOk result (memory_of self.new ≡ write_bytes (memory_of self.old) address
            (bytes_of word count)) }
        ensures since { OnOk result (since_of self.new ≡ since_of self.old) }
    {
        let mut left = word;
        for i in 0..count {
            self.store_byte(address.wrapping_add(u64::from(i)), (left % 256) as u8)?;
            left /= 256;
        }
        Ok(())
    }

    /// Writes what a reply wrote; changes are counted from then on.
    pub(crate) fn answer(&mut self, pieces: &[Piece]) -> Result<(), NoMemory>
        ensures memory { OnOk result (memory_of self.new ≡ write_pieces (memory_of self.old) (pieces_of pieces.now)) }
        ensures since { OnOk result (since_of self.new ≡ write_pieces (memory_of self.old) (pieces_of pieces.now)) }
    {
        for piece in pieces {
            self.write_piece(piece.addr, piece.bytes.as_slice())?;
        }
        self.before.clear();
        Ok(())
    }

    /// The bytes that changed, by ascending address.
    pub(crate) fn changed(&self, alloc: Global) -> Result<Changed, NoMemory>
        ensures { IfOk result (λ changes. changes ≡ changed (since_of self.now) (memory_of self.now)) }
    {
        let mut changes = Changed::new(alloc);
        for (address, held) in &self.before {
            let byte = self.byte(*address);
            if held.unwrap_or(0) != byte {
                changes.push((*address, byte))?;
            }
        }
        Ok(changes)
    }

    // The byte at an address; one that was never written is 0.
    fn byte(&self, address: u64) -> u8
        ensures { result ≡ byte_at (memory_of self.now) address }
    {
        match self.bytes.get(&address) {
            Some(byte) => *byte,
            None => 0,
        }
    }

    // Writes a byte at an address, and notes what stood there, if it is the first since changes are counted.
    fn store_byte(&mut self, address: u64, byte: u8) -> Result<(), NoMemory>
        ensures memory { OnOk result (memory_of self.new ≡ finite.insert (memory_of self.old) address byte) }
        ensures since { OnOk result (since_of self.new ≡ since_of self.old) }
    {
        let held = self.bytes.insert(address, byte)?;
        if self.before.contains_key(&address) {
            return Ok(());
        }
        self.before.insert(address, held)?;
        Ok(())
    }

    // Writes bytes from an address upward, and notes nothing.
    fn write_piece(&mut self, address: u64, bytes: &[u8]) -> Result<(), NoMemory>
        ensures { OnOk result (memory_of self.new ≡ write_bytes (memory_of self.old) address bytes.now) }
    {
        for (i, byte) in bytes.iter().enumerate() {
            self.bytes.insert(address.wrapping_add(i as u64), *byte)?;
        }
        Ok(())
    }
}
