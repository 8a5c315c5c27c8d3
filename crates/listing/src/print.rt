// The canonical text of listings.

#![tactic(auto, using(gossa_base::proofs::PrefixLemmas::prefixes))]

ghost use Rattle.std.specs.Prelude.{◌≡◌, ◌++◌, OnOk, IfOk, OnErr};
ghost use Rattle.gossa_base.specs.Prefixes.{AddsPrefix};
ghost use Rattle.std.specs.List.{flat_map};
ghost use Rattle.listing.specs.Frame.{frame_size, has_call};
ghost use Rattle.listing.specs.Text.{whole_line, bits_text, bit_text, map_line, maps_text, field_text, frame_text};
ghost use Rattle.listing.specs.Text.{head_text, lines_text, listing_text, listings_text};

use crate::code::{Code, Listing, Listings, Map};
use crate::line::Line;
use crate::print_line::print_line;
use gossa_base::{Bytes, NoMemory, Print, Sequence, print_all, put, put_number};
use ssa_ir::print_sigs;
use std::alloc::Global;

/// The canonical text of a unit's listings: the `sig` lines, and then of each function its `TEXT` line, its
/// maps and its lines, each ended by LF.
pub fn print_listing(alloc: Global, listings: &Listings) -> Result<Bytes, NoMemory>
    ensures { IfOk result (λ text. text ≡ listings_text listings.now) }
{
    let mut text = Vec::new(alloc);
    print_sigs(&mut text, listings.sigs.as_slice())?;
    print_all(&mut text, listings.funcs.as_slice())?;
    Ok(Sequence::from_vec(text))
}

impl Print for Listing {
    ghost text = { listing_text };

    fn print(&self, out: &mut Vec<u8>) -> Result<(), NoMemory> {
        print_head(out, self)?;
        print_maps(out, self.maps.as_slice())?;
        print_lines(out, &self.code)
    }
}

// A function's first line.
fn print_head(text: &mut Vec<u8>, listing: &Listing) -> Result<(), NoMemory>
    ensures ok { OnOk result (text.new.items ≡ text.old.items ++ head_text listing.now) }
    ensures prefix { OnErr result (AddsPrefix text.old.items text.new.items (head_text listing.now)) }
{
    put(text, b"TEXT ")?;
    listing.code.sig.print(text)?;
    print_frame(text, listing)?;
    print_field(text, b", regs=", u64::from(listing.code.regs))?;
    put(text, b"\n")
}

// The size of the frame, and its words by their kind.
fn print_frame(text: &mut Vec<u8>, listing: &Listing) -> Result<(), NoMemory>
    ensures ok { OnOk result (text.new.items ≡ text.old.items ++ frame_text listing.now) }
    ensures prefix { OnErr result (AddsPrefix text.old.items text.new.items (frame_text listing.now)) }
{
    print_field(text, b", frame=", listing.frame_size())?;
    print_field(text, b", out=", u64::from(listing.code.out))?;
    print_field(text, b", ptr=", u64::from(listing.ptr))?;
    print_field(text, b", scalar=", u64::from(listing.scalar))
}

// These bytes, and then a number.
fn print_field(text: &mut Vec<u8>, name: &[u8], number: u64) -> Result<(), NoMemory>
    ensures ok { OnOk result (text.new.items ≡ text.old.items ++ field_text name.now number) }
    ensures prefix { OnErr result (AddsPrefix text.old.items text.new.items (field_text name.now number)) }
{
    put(text, name)?;
    put_number(text, number)
}

// The lines of maps, numbered from 0.
fn print_maps(text: &mut Vec<u8>, maps: &[Map]) -> Result<(), NoMemory>
    ensures ok { OnOk result (text.new.items ≡ text.old.items ++ maps_text 0 maps.now) }
    ensures prefix { OnErr result (AddsPrefix text.old.items text.new.items (maps_text 0 maps.now)) }
{
    for (number, map) in maps.iter().enumerate() {
        print_map(text, number, map)?;
    }
    Ok(())
}

// The line of a map.
fn print_map(text: &mut Vec<u8>, number: usize, map: &Map) -> Result<(), NoMemory>
    ensures ok { OnOk result (text.new.items ≡ text.old.items ++ map_line number map.now) }
    ensures prefix { OnErr result (AddsPrefix text.old.items text.new.items (map_line number map.now)) }
{
    put(text, b"MAP ")?;
    put_number(text, number as u64)?;
    print_map_words(text, b" args=", map.args.as_slice())?;
    print_map_words(text, b" locals=", map.locals.as_slice())?;
    put(text, b"\n")
}

// These bytes, and then a map's words of one kind.
fn print_map_words(text: &mut Vec<u8>, name: &[u8], bits: &[bool]) -> Result<(), NoMemory>
    ensures ok { OnOk result (text.new.items ≡ text.old.items ++ (name.now ++ bits_text bits.now)) }
    ensures prefix { OnErr result (AddsPrefix text.old.items text.new.items (name.now ++ bits_text bits.now)) }
{
    put(text, name)?;
    print_bits(text, bits)
}

// Bits, word 0 first, or a dash where there is none.
fn print_bits(text: &mut Vec<u8>, bits: &[bool]) -> Result<(), NoMemory>
    ensures ok { OnOk result (text.new.items ≡ text.old.items ++ bits_text bits.now) }
    ensures prefix { OnErr result (AddsPrefix text.old.items text.new.items (bits_text bits.now)) }
{
    if bits.is_empty() {
        put(text, b"-")
    } else {
        print_each_bit(text, bits)
    }
}

fn print_each_bit(text: &mut Vec<u8>, bits: &[bool]) -> Result<(), NoMemory>
    ensures ok { OnOk result (text.new.items ≡ text.old.items ++ flat_map bit_text bits.now) }
    ensures prefix { OnErr result (AddsPrefix text.old.items text.new.items (flat_map bit_text bits.now)) }
{
    for bit in bits {
        put(text, if *bit { b"1" } else { b"0" })?;
    }
    Ok(())
}

// The lines of code.
fn print_lines(text: &mut Vec<u8>, code: &Code) -> Result<(), NoMemory>
    ensures ok { OnOk result (text.new.items ≡ text.old.items ++ lines_text code.now) }
    ensures prefix { OnErr result (AddsPrefix text.old.items text.new.items (lines_text code.now)) }
{
    for line in code.lines.as_slice() {
        print_whole_line(text, code, line)?;
    }
    Ok(())
}

// One line of this code, with its end.
fn print_whole_line(text: &mut Vec<u8>, code: &Code, line: &Line) -> Result<(), NoMemory>
    ensures ok { OnOk result (text.new.items
        ≡ text.old.items ++ whole_line code.now line.now) }
    ensures prefix { OnErr result (AddsPrefix text.old.items text.new.items (whole_line code.now line.now)) }
{
    print_line(text, code, line)?;
    put(text, b"\n")
}

impl Listing {
    /// The size of the frame, in bytes: 0 where it has no word and no call is made, else a multiple of 16 with
    /// room for the saved link register and the words.
    pub fn frame_size(&self) -> u64
        ensures { result ≡ frame_size self.now }
    {
        let out = u64::from(self.code.out);
        let ptr = u64::from(self.ptr);
        let scalar = u64::from(self.scalar);
        let words = out + ptr + scalar;
        if words == 0 && !self.code.has_call() {
            0
        } else {
            (8 + 8 * words).next_multiple_of(16)
        }
    }
}

impl Code {
    // Whether a line calls.
    fn has_call(&self) -> bool
        ensures { result ≡ has_call self.now.lines }
    {
        self.lines
            .as_slice()
            .iter()
            .any(|line| matches!(line, Line::Call(..)))
    }
}
