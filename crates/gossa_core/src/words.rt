// The words that the program is called with.

ghost use Rattle.std.specs.Prelude.{◌≡◌, map, IfSome};
ghost use Rattle.std.specs.String.{string_bytes};
ghost use Rattle.gossa_core.specs.Words.{command_of, HasRegisters};

/// What the program is to do.
#[derive(Clone, Copy, Debug, PartialEq, Eq)]
pub enum Command {
    /// Reads a unit and writes its listings, for a machine that gives the first `regs` registers of the pool.
    Compile { regs: u32 },
    /// Reads a unit and writes what each of its cases shows.
    Run,
}

/// How many registers the pool has.
const ALL_REGISTERS: u32 = 24;

/// The command of these words, or none where they are no command.
pub fn read_words(words: &[String]) -> Option<Command>
    ensures command { result ≡ command_of (map string_bytes words.now) }
    ensures registers { IfSome result HasRegisters }
{
    match words {
        [word] if word.as_str() == "compile" => Some(Command::Compile {
            regs: ALL_REGISTERS,
        }),
        [word] if word.as_str() == "run" => Some(Command::Run),
        _ => None,
    }
}
