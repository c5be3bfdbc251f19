//! The kinds of tokens that change what the choice of goals does next.

ghost use Rattle.std.specs.Prelude.{◌≡◌};
ghost use Rattle.js_kind.specs.Kinds.{is_one_of};
ghost use Rattle.js_choose.specs.KindTables.{TellsKinds};
ghost use Rattle.js_auto.specs.Notable.{notable_kinds};

use js_kind::{Kind, Token};
use js_source::of_each_byte;

/// Whether it is the number of a notable kind.
macro_rules! is_notable {
    ($number:literal) => {
        $number == Kind::Eof as u8
            || $number == Kind::LCurly as u8
            || $number == Kind::RCurly as u8
            || $number == Kind::TemplateHead as u8
            || $number == Kind::TemplateTail as u8
            || $number == Kind::Slash as u8
            || $number == Kind::SlashEq as u8
    };
}

/// Whether each kind, at the place of its number, is notable.
static NOTABLE: [bool; 256] = of_each_byte!(is_notable);

/// The table of notable kinds. It has an entry for each `u8`, and so needs no test of the number.
fn notable() -> &'static [bool; 256]
    ensures { TellsKinds (is_one_of notable_kinds) result.now }
{
    &NOTABLE
}

/// The notable kinds. Who asks for each token holds the table: the address of a static is taken anew each time.
#[derive(Drop)]
pub(crate) struct NotableKinds {
    table: [bool; 256],
    ghost told: { TellsKinds (is_one_of notable_kinds) table },
}

impl NotableKinds {
    /// All of them.
    pub fn new() -> NotableKinds {
        NotableKinds { table: *notable() }
    }

    /// Whether the token opens or closes a brace, or another command than `Command::Next` may come behind it. Few do.
    #[inline(always)]
    pub fn is_notable(&self, token: &Token) -> bool
        ensures { result ≡ is_one_of notable_kinds token.now.kind }
    {
        self.table[token.kind_number() as usize]
    }
}
