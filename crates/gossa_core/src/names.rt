// Names.

ghost use Rattle.std.specs.Prelude.{◌≡◌, IfOk};

use gossa_base::{Name, NoMemory};

/// The same name once more.
pub(crate) fn same_name(name: &Name) -> Result<Name, NoMemory>
    ensures { IfOk result (λ same. same ≡ name.now) }
{
    Ok(name.clone()?)
}
