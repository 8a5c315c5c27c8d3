// What kinds of op the first order knows.

ghost use Rattle.std.specs.Prelude.{◌≡◌, ◌||◌};
ghost use Rattle.std.specs.List.{list_any};
ghost use Rattle.ssa_ir.specs.FirstOrder as order;
ghost use Rattle.block_order.specs.tables.Placing as placing;

use gossa_base::ValueId;
use ssa_ir::{Op, Value, op_row};

/// Whether a value begins an item behind the phis.
pub(crate) fn is_other(value: &Value) -> bool
    ensures { result ≡ placing.is_other value.now }
{
    !value.op.is_select() && !value.op.is_phi()
}

// Whether a number is one of these.
fn is_among(id: ValueId, args: &[ValueId]) -> bool
    ensures { result ≡ list_any (order.same_value id) args.now }
{
    args.iter().any(|arg| id.0 == arg.0)
}

/// Whether a value is a select of the call of this number.
pub(crate) fn selects(call: ValueId, value: &Value) -> bool
    ensures { result ≡ order.selects call value.now }
{
    value.op.is_select() && is_among(call, value.args.as_slice())
}
