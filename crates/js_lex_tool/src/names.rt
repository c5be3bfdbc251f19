//! The names of kinds, each at the end of a room of one width.

ghost use Rattle.std.specs.Prelude.{◌≡◌, ◌≤◌, length};
ghost use Rattle.js_kind.specs.Kinds.{kind_name};
ghost use Rattle.js_kind.specs.declared.kind.TheConstants.Kind.{VARIANTS};
ghost use Rattle.js_lex_tool.specs.Names.{EndsInName, HasNames};

use js_kind::{Kind, Token};

/// The longest name has 22 bytes.
const WIDTH: usize = 32;

/// The name of a kind, and a blank: the last bytes of a room.
#[derive(Clone, Copy)]
pub(crate) struct Name {
    pub room: [u8; WIDTH],
    pub len: usize,
}

fn kind_name(kind: Kind) -> &'static str
    ensures name { result.now ≡ kind_name kind }
    ensures short { length result.now ≤ 22 }
{
    kind.name()
}

/// The name of a kind, at the end of its room.
fn name_of(kind: Kind) -> Name
    ensures { EndsInName kind result }
{
    let name = kind_name(kind);
    let mut room = [b' '; WIDTH];
    let start = WIDTH - 1 - name.len();
    room[start..WIDTH - 1].copy_from_slice(name.as_bytes());
    Name {
        room,
        len: name.len() + 1,
    }
}

/// All kinds, by their numbers.
static KINDS: [Kind; 171] = Kind::VARIANTS;

/// The table of kinds.
fn kinds() -> &'static [Kind; 171]
    ensures { result.now ≡ VARIANTS }
{
    &KINDS
}

/// The names of all kinds, by their numbers.
fn all_names() -> [Name; 256]
    ensures { HasNames result }
{
    let mut names = [Name {
        room: [b' '; WIDTH],
        len: 0,
    }; 256];
    for (number, kind) in kinds().iter().enumerate() {
        names[number] = name_of(*kind);
    }
    names
}

/// The names of all kinds. There is an entry for each `u8`, and so no test of a number.
#[derive(Drop)]
pub(crate) struct Names {
    names: [Name; 256],
    ghost named: { HasNames names },
}

impl Names {
    /// All of them.
    pub fn new() -> Names {
        Names { names: all_names() }
    }

    /// That of the token's kind.
    #[inline(always)]
    pub fn of(&self, token: &Token) -> &Name
        ensures { EndsInName token.now.kind result.now }
    {
        &self.names[token.kind_number() as usize]
    }
}
