// What tests are made of: units of texts, signatures, words of a program, and whether something has a text.
//
// A test here asks a function that answers a bool, or want of memory, and asserts `== Ok(true)`: so no test has a way
// out of its own, and what owns memory is owned in one function, which hands it by reference to the next.

ghost use Rattle.std.specs.Prelude.{◌≡◌, ◌≤◌, [], ◌∷◌, length, IfOk};
ghost use Rattle.ssa_ir.specs.WellFormed.{WellFormed};

use crate::dumps::{CASES, MARKED};
use gossa_base::{Name, NoMemory, Print, Sequence};
use ssa_ir::{Scalar, Sig, SsaUnit};
use ssa_text::{TextRefusal, print_unit, read_unit};
use std::alloc::Global;

// The unit that a text spells, or the first 1,000,000 bytes of a longer one.
pub(crate) fn unit_of_text(alloc: Global, text: &str) -> Result<SsaUnit, TextRefusal>
    ensures { IfOk result WellFormed }
{
    let end = text.len().min(1_000_000);
    read_unit(alloc, &text.as_bytes()[..end])
}

// The dump with its cases.
pub(crate) fn dump_with_cases(alloc: Global) -> Result<String, NoMemory> {
    Ok(format!(in alloc; "{MARKED}{CASES}")?)
}

// Whether a unit has this canonical text.
pub(crate) fn has_text(alloc: Global, unit: &SsaUnit, text: &str) -> Result<bool, TextRefusal> {
    Ok(print_unit(alloc, unit)?.as_slice() == text.as_bytes())
}

// Whether an item prints as this text.
pub(crate) fn prints<T: Print>(alloc: Global, item: &T, want: &str) -> Result<bool, NoMemory> {
    let mut text = Vec::new(alloc);
    item.print(&mut text)?;
    Ok(text.as_slice() == want.as_bytes())
}

// The signature of a name of 1 to 100 bytes.
pub(crate) fn sig(alloc: Global, name: &[u8], params: &[Scalar]) -> Result<Sig, NoMemory>
    requires some { 1 ≤ length name.now }
    requires few { length name.now ≤ 100 }
    ensures { IfOk result (λ sig. sig ≡ record { name = name.now; params = params.now; results = [] }) }
{
    let params = Sequence::from_vec(Vec::from_slice(alloc, params)?);
    Ok(Sig {
        name: Name::from_slice(alloc, name)?,
        params,
        results: Sequence::new(alloc),
    })
}

// A list of one item.
pub(crate) fn one<T: Drop>(alloc: Global, item: T) -> Result<Sequence<T>, NoMemory>
    ensures { IfOk result (λ items. items ≡ item ∷ []) }
{
    let mut items = Vec::new(alloc);
    items.push(item)?;
    Ok(Sequence::from_vec(items))
}

// Words on the heap, as a program is called with them.
pub(crate) fn owned(alloc: Global, words: &[&str]) -> Result<Vec<String>, NoMemory> {
    let mut all = Vec::new(alloc);
    for word in words {
        all.push(String::from_str(alloc, word)?)?;
    }
    Ok(all)
}
