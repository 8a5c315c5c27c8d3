// The memory that is passed on all paths through the end of each block: at first no path is known, and sweeps over all
// blocks take in what comes to each, until a sweep changes nothing.

ghost use Rattle.std.specs.Prelude.{◌≡◌, ◌<◌, List, length, IfOk};
ghost use Rattle.std.specs.List.{All};
ghost use Rattle.ssa_check.specs.tables.MemorySweeps as spec;
ghost use Rattle.ssa_check.specs.tables.PassedMemories.{ArePassedMemories, SaysBefore};

use gossa_base::{NoMemory, ValueId};
use ssa_tables::Flow;
use std::alloc::Global;

/// What a block leaves of the memory that comes to it.
#[derive(Clone, Copy, Debug, PartialEq, Eq)]
pub enum Leaves {
    /// It has no definer: the memory that came.
    Through,
    /// It is chained: its last definer.
    Known(ValueId),
    /// It has a definer, and isn't chained: no memory.
    Unknown,
}

/// The memory passed on all paths through the end of a block.
#[derive(Clone, Copy, Debug, PartialEq, Eq)]
pub enum Passed {
    /// No path leads there.
    NoPath,
    /// One memory on all of them.
    Always(ValueId),
    /// Not the same on all, or none on some.
    Varies,
}

impl Leaves {
    // What is passed behind this block, where this is passed before it.
    fn after(self, before: Passed) -> Passed
        ensures { result ≡ spec.after self before }
    {
        match (self, before) {
            (Leaves::Through, _) | (_, Passed::NoPath) => before,
            (Leaves::Known(memory), _) => Passed::Always(memory),
            (Leaves::Unknown, _) => Passed::Varies,
        }
    }
}

impl Passed {
    // What is passed on the paths of both.
    fn met(self, other: Passed) -> Passed
        ensures { result ≡ spec.met self other }
    {
        match (self, other) {
            (Passed::NoPath, _) => other,
            (_, Passed::NoPath) => self,
            (Passed::Always(one), Passed::Always(two)) if one.0 == two.0 => self,
            _ => Passed::Varies,
        }
    }
}

// What is passed on all paths through one of these blocks.
fn met_of(passed: &[Passed], blocks: &[usize]) -> Passed
    requires { All (λ b. b < length passed.now) blocks.now }
    ensures { result ≡ spec.met_of passed.now blocks.now }
{
    let mut met = Passed::NoPath;
    for block in blocks {
        met = met.met(passed[*block]);
    }
    met
}

// What is passed to the beginning of a block, by what is known of its predecessors. To the entry a
// path comes with no memory.
fn before_of(flow: &Flow, passed: &[Passed], block: usize) -> Passed
    requires within { block < length flow.now }
    requires one_each { length passed.now ≡ length flow.now }
    ensures { result ≡ spec.before_of flow.now passed.now block }
{
    if block == 0 {
        return Passed::Varies;
    }
    met_of(passed, flow.preds(block))
}

/// What is passed on all paths to the beginning of a block, by what is passed through the end of each.
pub(crate) fn passed_before(flow: &Flow, passed: &[Passed], block: usize) -> Passed
    requires within { block < length flow.now }
    requires one_each { length passed.now ≡ length flow.now }
    ensures { (leaves : List Leaves) → ArePassedMemories flow.now leaves passed.now
        → SaysBefore flow.now leaves block result }
{
    before_of(flow, passed, block)
}

// Takes in what comes to a block, and tells whether that changed what is passed through its end.
fn update(flow: &Flow, leaves: &[Leaves], passed: &mut [Passed], block: usize) -> bool
    requires within { block < length flow.now }
    requires leaves { length leaves.now ≡ length flow.now }
    requires one_each { length passed.old ≡ length flow.now }
    ensures { spec.Updates flow.now leaves.now block passed.old passed.new result }
{
    let before = before_of(flow, passed, block);
    let next = passed[block].met(leaves[block].after(before));
    if next == passed[block] {
        return false;
    }
    passed[block] = next;
    true
}

// Takes in what comes to each block, and tells whether something changed.
fn sweep(flow: &Flow, leaves: &[Leaves], passed: &mut [Passed]) -> bool
    requires leaves { length leaves.now ≡ length flow.now }
    requires one_each { length passed.old ≡ length flow.now }
    ensures { spec.Sweeps flow.now leaves.now (length flow.now) passed.old passed.new result }
{
    let mut changed = false;
    for block in 0..flow.len() {
        if update(flow, leaves, passed, block) {
            changed = true;
        }
    }
    changed
}

/// What is passed through the end of each block, by what each block leaves.
pub(crate) fn passed_memories(
    alloc: Global,
    flow: &Flow,
    leaves: &[Leaves],
) -> Result<Vec<Passed>, NoMemory>
    requires { length leaves.now ≡ length flow.now }
    ensures { IfOk result (λ passed. ArePassedMemories flow.now leaves.now passed.items) }
{
    let mut passed = vec![in alloc; Passed::NoPath; flow.len()]?;
    while sweep(flow, leaves, passed.as_mut_slice()) {}
    Ok(passed)
}
