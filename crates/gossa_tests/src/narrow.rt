// Functions just beside those that are compiled so far, which a check refuses before the program asks this.

use crate::made::unit_of_text;
use gossa_base::NoMemory;
use ssa_text::TextRefusal;
use std::alloc::Global;
use sum_compile::all_narrow;

const EXAMPLE: &str = "func f(int64, int64) (int64)\n\
b1:\n\
v1 = InitMem <mem>\n\
v2 = Arg <int64> [0]\n\
v3 = Arg <int64> [1]\n\
v4 = Add64 <int64> v2 v3\n\
v5 = MakeResult <int64,mem> v4 v1\n\
Ret v5\n";

// What is put into the example, for what, so that it isn't compiled.
const CHANGES: [(&str, &str); 25] = [
    (" v2 v3\n", " v1 v3\n"),
    (" v2 v3\n", " v3 v1\n"),
    (" v2 v3\n", " v2 v4\n"),
    (" v2 v3\n", " v5 v3\n"),
    ("Add64", "Add32"),
    ("[1]", "[0]"),
    ("[1]", "[2]"),
    ("[1]", "[-1]"),
    ("v4 v1", "v1 v1"),
    ("v4 v1", "v4 v3"),
    ("v4 v1", "v4 v3 v1"),
    ("<int64,mem>", "<int32,mem>"),
    ("<int64,mem>", "<int64,int64,mem>"),
    ("Ret v5", "Ret v4"),
    ("Ret v5", "Exit v5"),
    ("Ret v5", "Plain -> b1"),
    ("b1:", "b1: <- b1"),
    ("Ret v5\n", "Ret v5\nb2:\nRet v5\n"),
    ("b1:\n", "b1:\nPlain -> b2\nb2: <- b1\n"),
    ("int64, int64", "int64, int32"),
    (" (int64)\n", " (int32)\n"),
    (" (int64)\n", " (int64, int64)\n"),
    (" (int64)\n", "\n"),
    ("InitMem", "SB"),
    ("<mem>", "<int64>"),
];

#[test]
fn knows_the_example(rt: HostRuntime) {
    assert!(rt; is_built(rt.alloc(), EXAMPLE, "Ret v5", "Ret v5") == Ok(true));
    for (old, new) in CHANGES.iter() {
        assert!(rt;
            is_built(rt.alloc(), EXAMPLE, old, new) == Ok(false),
            "{old} {new}"
        );
    }
}

// A function of one parameter, whose value 2 has another line in each test, and whose value 3 is returned.
const ONE_STEP: &str = "func g.h/2$(int64) (int64)\n\
b1:\n\
v1 = InitMem <mem>\n\
LINE\n\
v3 = Const64 <int64> [7]\n\
v4 = MakeResult <int64,mem> v3 v1\n\
Ret v4\n";

const STEPS: [&str; 5] = [
    "v2 = Const32 <int64> [1]",
    "v2 = Const64 <int32> [1]",
    "v2 = Arg <int64> [1]",
    "v2 = InitMem <mem>",
    "v2 = Copy <int64> v1",
];

#[test]
fn knows_steps(rt: HostRuntime) {
    for line in STEPS.iter() {
        assert!(rt;
            is_built(rt.alloc(), ONE_STEP, "LINE", line) == Ok(false),
            "{line}"
        );
    }
}

// Whether all functions of a text, which has to be that of a unit, are compiled so far, where `new` stands for `old`.
fn is_built(alloc: Global, text: &str, old: &str, new: &str) -> Result<bool, TextRefusal> {
    let text = replaced(alloc, text, old, new)?;
    let unit = unit_of_text(alloc, text.as_str())?;
    Ok(all_narrow(unit.funcs.as_slice()))
}

fn replaced(alloc: Global, text: &str, old: &str, new: &str) -> Result<String, NoMemory> {
    Ok(text.replace(alloc, old, new)?)
}
