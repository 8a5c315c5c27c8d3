// A unit as Go's compiler dumps it, with cases, and its canonical text.

// A sum over a slice whose index is checked, with the marks of a dump.
pub(crate) const MARKED: &str = "sig runtime.panicIndex(int64, int64)\n\
func main.sum(*int64, int, int) int\n\
  b1:\n\
    v1 (?) = InitMem <mem>\n\
    v2 (3) = Arg <*int64> [0] (p[*int64])\n\
    v3 (3) = Arg <int> [1] (len[int])\n\
    v4 (3) = Arg <int> [2] (n[int])\n\
    v5 (?) = Const64 <int> [0]\n\
    v6 (?) = Const64 <int> [1]\n\
    v20 (?) = Const64 <uint64> [3]\n\
    Plain → b2\n\
  b2: ← b1 b4\n\
    v7 (5) = Phi <int> v5 v15 (i[int])\n\
    v8 (5) = Phi <int> v5 v14 (s[int])\n\
    v9 (+5) = Less64 <bool> v7 v4\n\
    If v9 → b3 b5 (likely) (5)\n\
  b3: ← b2\n\
    v10 (6) = IsInBounds <bool> v7 v3\n\
    If v10 → b4 b6 (likely) (6)\n\
  b4: ← b3\n\
    v11 (6) = Lsh64x64 <int> [false] v7 v20\n\
    v12 (6) = AddPtr <*int64> v2 v11\n\
    v13 (6) = Load <int> v12 v1\n\
    v14 (+6) = Add64 <int> v8 v13 (s[int])\n\
    v15 (5) = Add64 <int> v7 v6 (i[int])\n\
    Plain → b2 (5)\n\
  b5: ← b2\n\
    v16 (8) = MakeResult <int,mem> v8 v1\n\
    Ret v16 (8)\n\
  b6: ← b3\n\
    v17 (6) = StaticLECall <mem> {AuxCall{runtime.panicIndex}} [16] v7 v3 v1\n\
    v18 (6) = SelectN <mem> [0] v17\n\
    Exit v18 (6)\n";

// The unit's canonical text.
pub(crate) const CANONICAL: &str = "sig runtime.panicIndex(int64, int64)\n\
func main.sum(*byte, int64, int64) (int64)\n\
b1:\n\
v1 = InitMem <mem>\n\
v2 = Arg <*byte> [0]\n\
v3 = Arg <int64> [1]\n\
v4 = Arg <int64> [2]\n\
v5 = Const64 <int64> [0]\n\
v6 = Const64 <int64> [1]\n\
v20 = Const64 <uint64> [3]\n\
Plain -> b2\n\
b2: <- b1 b4\n\
v7 = Phi <int64> v5 v15\n\
v8 = Phi <int64> v5 v14\n\
v9 = Less64 <bool> v7 v4\n\
If v9 -> b3 b5\n\
b3: <- b2\n\
v10 = IsInBounds <bool> v7 v3\n\
If v10 -> b4 b6\n\
b4: <- b3\n\
v11 = Lsh64x64 <int64> v7 v20\n\
v12 = AddPtr <*byte> v2 v11\n\
v13 = Load <int64> v12 v1\n\
v14 = Add64 <int64> v8 v13\n\
v15 = Add64 <int64> v7 v6\n\
Plain -> b2\n\
b5: <- b2\n\
v16 = MakeResult <int64,mem> v8 v1\n\
Ret v16\n\
b6: <- b3\n\
v17 = StaticLECall <mem> {runtime.panicIndex} v7 v3 v1\n\
v18 = SelectN <mem> [0] v17\n\
Exit v18\n";

// Three cases of it, and their canonical text.
pub(crate) const CASES: &str = "case main.sum 100\n\
args 0x1000 2 2\n\
mem 0x1000 03000000000000000400000000000000\n\
case main.sum 0100\n\
mem 4096 FF\n\
args 0x1000 2 0\n\
case main.sum 100\n\
args 0x1000 2 3\n\
junk 1\n\
junk -1\n\
fill 0\n\
reply\n";

pub(crate) const CANONICAL_CASES: &str = "case main.sum 100\n\
args 0x1000 0x2 0x2\n\
mem 0x1000 03000000000000000400000000000000\n\
case main.sum 100\n\
args 0x1000 0x2 0x0\n\
mem 0x1000 ff\n\
case main.sum 100\n\
args 0x1000 0x2 0x3\n\
junk 0x1 0xffffffffffffffff\n\
reply\n";
