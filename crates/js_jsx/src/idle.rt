//! The kinds of tokens that do nothing outside of tags and children.

ghost use Rattle.std.specs.Prelude.{◌≡◌};
ghost use Rattle.js_choose.specs.KindTables.{TellsKinds};
ghost use Rattle.js_jsx.specs.Classes.{class_of, is_idle};

use js_kind::{Kind, Token};
use js_source::of_each_byte;

/// Whether it is the number of a kind that does nothing there.
macro_rules! is_idle {
    ($number:literal) => {
        $number != Kind::Eof as u8
            && $number != Kind::LAngle as u8
            && $number != Kind::LCurly as u8
            && $number != Kind::RCurly as u8
            && $number != Kind::TemplateHead as u8
            && $number != Kind::TemplateTail as u8
            && $number != Kind::Slash as u8
            && $number != Kind::SlashEq as u8
            && $number != Kind::Bang as u8
    };
}

/// Whether each kind, at the place of its number, does nothing there.
static IDLE: [bool; 256] = of_each_byte!(is_idle);

/// The table of these kinds. It has an entry for each `u8`, and so needs no test of the number.
fn idle_kinds() -> &'static [bool; 256]
    ensures { TellsKinds (λ kind. is_idle (class_of kind)) result.now }
{
    &IDLE
}

/// These kinds. Who asks for each token holds the table: the address of a static is taken anew each time.
#[derive(Drop)]
pub(crate) struct IdleKinds {
    table: [bool; 256],
    ghost told: { TellsKinds (λ kind. is_idle (class_of kind)) table },
}

impl IdleKinds {
    /// All of them.
    pub fn new() -> IdleKinds {
        IdleKinds {
            table: *idle_kinds(),
        }
    }

    /// Whether the token does nothing there but to be the last one. Most are such.
    #[inline(always)]
    pub fn is_idle(&self, token: &Token) -> bool
        ensures { result ≡ is_idle (class_of token.now.kind) }
    {
        self.table[token.kind_number() as usize]
    }
}
