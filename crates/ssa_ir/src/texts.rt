// The texts of types and signatures, which dumps and listings share.

#![tactic(auto, using(gossa_base::proofs::PrefixLemmas::prefixes))]

ghost use Rattle.std.specs.Prelude.{◌≡◌, ◌++◌, OnOk, OnErr};
ghost use Rattle.gossa_base.specs.Prefixes.{AddsPrefix};
ghost use Rattle.std.specs.List.{flat_map};
ghost use Rattle.ssa_ir.specs.Texts.{scalar_name, group_text, results_text, sig_text, sig_line};

use crate::types::{Scalar, Sig};
use gossa_base::{NoMemory, Print, print_joined, put};

impl Print for Scalar {
    ghost text = { scalar_name };

    fn print(&self, out: &mut Vec<u8>) -> Result<(), NoMemory> {
        match self {
            Scalar::I8 => put(out, b"int8"),
            Scalar::I16 => put(out, b"int16"),
            Scalar::I32 => put(out, b"int32"),
            Scalar::I64 => put(out, b"int64"),
            Scalar::U8 => put(out, b"uint8"),
            Scalar::U16 => put(out, b"uint16"),
            Scalar::U32 => put(out, b"uint32"),
            Scalar::U64 => put(out, b"uint64"),
            Scalar::Uintptr => put(out, b"uintptr"),
            Scalar::Bool => put(out, b"bool"),
            Scalar::Ptr => put(out, b"*byte"),
        }
    }
}

impl Print for Sig {
    ghost text = { sig_text };

    fn print(&self, out: &mut Vec<u8>) -> Result<(), NoMemory> {
        self.name.print(out)?;
        print_group(out, self.params.as_slice())?;
        print_results(out, self.results.as_slice())
    }
}

// Types in parentheses.
fn print_group(out: &mut Vec<u8>, types: &[Scalar]) -> Result<(), NoMemory>
    ensures ok { OnOk result (out.new.items ≡ out.old.items ++ group_text types.now) }
    ensures prefix { OnErr result (AddsPrefix out.old.items out.new.items (group_text types.now)) }
{
    put(out, b"(")?;
    print_joined(out, b", ", types)?;
    put(out, b")")
}

// The group of results, which is absent where there are none.
fn print_results(out: &mut Vec<u8>, types: &[Scalar]) -> Result<(), NoMemory>
    ensures ok { OnOk result (out.new.items ≡ out.old.items ++ results_text types.now) }
    ensures prefix { OnErr result (AddsPrefix out.old.items out.new.items (results_text types.now)) }
{
    if types.is_empty() {
        return Ok(());
    }
    put(out, b" ")?;
    print_group(out, types)
}

/// Appends the `sig` lines of signatures that a unit names. An error comes only for want of memory, and leaves a
/// prefix of the text behind.
pub fn print_sigs(out: &mut Vec<u8>, sigs: &[Sig]) -> Result<(), NoMemory>
    ensures ok { OnOk result (out.new.items ≡ out.old.items ++ flat_map sig_line sigs.now) }
    ensures prefix { OnErr result (AddsPrefix out.old.items out.new.items (flat_map sig_line sigs.now)) }
{
    for sig in sigs {
        print_sig_line(out, sig)?;
    }
    Ok(())
}

// The line of a signature.
fn print_sig_line(out: &mut Vec<u8>, sig: &Sig) -> Result<(), NoMemory>
    ensures ok { OnOk result (out.new.items ≡ out.old.items ++ sig_line sig.now) }
    ensures prefix { OnErr result (AddsPrefix out.old.items out.new.items (sig_line sig.now)) }
{
    put(out, b"sig ")?;
    sig.print(out)?;
    put(out, b"\n")
}
