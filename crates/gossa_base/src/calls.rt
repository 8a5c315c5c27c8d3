// The numbers of calls, and the calls that are to fail.

ghost use Rattle.std.specs.Prelude.{◌≡◌};
ghost use Rattle.gossa_base.specs.MemStreams.{number_after, is_listed};

// The number of the call after one of this number.
pub(crate) fn number_after(call: Option<u64>) -> Option<u64>
    ensures { result ≡ number_after call }
{
    call?.checked_add(1)
}

// Whether the call of this number is listed.
pub(crate) fn is_listed(calls: &[u64], call: Option<u64>) -> bool
    ensures { result ≡ is_listed calls.now call }
{
    match call {
        None => false,
        Some(number) => calls.contains(&number),
    }
}
