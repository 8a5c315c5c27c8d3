// Texts, appended to a buffer of bytes. Each call here fails only for want of memory. A prefix of its text may then
// stand in the buffer behind what was there before; nothing of it where the call says that the buffer is kept.

#![tactic(auto, using(crate::proofs::PrefixLemmas::prefixes))]

ghost use Rattle.std.specs.Prelude.{◌≡◌, ℕ, List, ◌++◌, decimal, OnOk, OnErr};
ghost use Rattle.std.specs.Fmt.{signed_decimal};
ghost use Rattle.std.specs.List.{flat_map, join_by};
ghost use Rattle.gossa_base.specs.Prefixes.{AddsPrefix};
ghost use Rattle.gossa_base.specs.Texts.{led, value_text, block_text, hex_text, hex_bytes_text};

use crate::ids::{BlockId, ValueId};
use crate::memory::NoMemory;
use crate::name::Name;
use itoa::Buffer;

/// What has exactly one text.
pub trait Print {
    // The text of a value, as bytes.
    ghost text: { Self → List ℕ };

    /// Appends exactly the text of `self`. An error comes only for want of memory, and leaves a prefix of it behind.
    fn print(&self, out: &mut Vec<u8>) -> Result<(), NoMemory>
        ensures ok { OnOk result (out.new.items ≡ out.old.items ++ text self.now) }
        ensures prefix { OnErr result (AddsPrefix out.old.items out.new.items (text self.now)) };
}

/// Appends these bytes. Fails only for want of memory, and then appends none.
pub fn put(out: &mut Vec<u8>, bytes: &[u8]) -> Result<(), NoMemory>
    ensures ok { OnOk result (out.new.items ≡ out.old.items ++ bytes.now) }
    ensures kept { OnErr result (out.new.items ≡ out.old.items) }
{
    out.extend_from_slice(bytes)?;
    Ok(())
}

/// Appends a number in decimal digits. Fails only for want of memory, and then appends none.
pub fn put_number(out: &mut Vec<u8>, n: u64) -> Result<(), NoMemory>
    ensures ok { OnOk result (out.new.items ≡ out.old.items ++ decimal n) }
    ensures kept { OnErr result (out.new.items ≡ out.old.items) }
{
    put(out, Buffer::new().format(n).as_bytes())
}

/// Appends a signed number in decimal digits, with a `-` where it is below 0. Fails only for want of memory, and then
/// appends none.
pub fn put_signed(out: &mut Vec<u8>, n: i64) -> Result<(), NoMemory>
    ensures ok { OnOk result (out.new.items ≡ out.old.items ++ signed_decimal n) }
    ensures kept { OnErr result (out.new.items ≡ out.old.items) }
{
    put(out, Buffer::new().format(n).as_bytes())
}

/// Appends a word in hexadecimal digits behind `0x`: lower case, without leading zeros. Fails only for want of memory,
/// and then appends none of it.
pub fn put_hex(out: &mut Vec<u8>, word: u64) -> Result<(), NoMemory>
    ensures ok { OnOk result (out.new.items ≡ out.old.items ++ hex_text word) }
    ensures kept { OnErr result (out.new.items ≡ out.old.items) }
{
    let text = format!(in out.allocator().clone()?; "0x{word:x}")?;
    put(out, text.as_bytes())
}

/// Appends two hexadecimal digits for each byte, in lower case. Fails only for want of memory, and then appends none.
pub fn put_hex_bytes(out: &mut Vec<u8>, bytes: &[u8]) -> Result<(), NoMemory>
    ensures ok { OnOk result (out.new.items ≡ out.old.items ++ hex_bytes_text bytes.now) }
    ensures kept { OnErr result (out.new.items ≡ out.old.items) }
{
    let digits = hex::encode(out.allocator().clone()?, bytes)?;
    put(out, digits.as_bytes())
}

/// Appends the texts of the items, one after the other. Fails only for want of memory, and then leaves a prefix
/// behind.
pub fn print_all<T: Print>(out: &mut Vec<u8>, items: &[T]) -> Result<(), NoMemory>
    ensures ok { OnOk result (out.new.items ≡ out.old.items ++ flat_map T.text items.now) }
    ensures prefix { OnErr result (AddsPrefix out.old.items out.new.items (flat_map T.text items.now)) }
{
    for item in items {
        item.print(out)?;
    }
    Ok(())
}

/// Appends the text of each item, behind these bytes. Fails only for want of memory, and then leaves a prefix
/// behind.
pub fn print_led<T: Print>(out: &mut Vec<u8>, lead: &[u8], items: &[T]) -> Result<(), NoMemory>
    ensures ok { OnOk result (out.new.items ≡ out.old.items ++ led lead.now T.text items.now) }
    ensures prefix { OnErr result (AddsPrefix out.old.items out.new.items (led lead.now T.text items.now)) }
{
    for item in items {
        put(out, lead)?;
        item.print(out)?;
    }
    Ok(())
}

/// Appends the texts of the items, with these bytes between two of them. Fails only for want of memory, and
/// then leaves a prefix behind.
pub fn print_joined<T: Print>(
    out: &mut Vec<u8>,
    between: &[u8],
    items: &[T],
) -> Result<(), NoMemory>
    ensures ok { OnOk result (out.new.items ≡ out.old.items ++ join_by T.text between.now items.now) }
    ensures prefix { OnErr result (AddsPrefix out.old.items out.new.items (join_by T.text between.now items.now)) }
{
    match items.split_first() {
        None => Ok(()),
        Some((first, others)) => {
            first.print(out)?;
            print_led(out, between, others)
        }
    }
}

impl Print for ValueId {
    ghost text = { value_text };

    fn print(&self, out: &mut Vec<u8>) -> Result<(), NoMemory> {
        put(out, b"v")?;
        put_number(out, u64::from(self.0))
    }
}

impl Print for BlockId {
    ghost text = { block_text };

    fn print(&self, out: &mut Vec<u8>) -> Result<(), NoMemory> {
        put(out, if self.split { b"e" } else { b"b" })?;
        put_number(out, u64::from(self.n))
    }
}

impl Print for Name {
    ghost text = { λ name. name };

    fn print(&self, out: &mut Vec<u8>) -> Result<(), NoMemory> {
        put(out, self.as_slice())
    }
}
