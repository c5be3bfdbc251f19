//! The keyword table: each word stands at a place that its first eight characters tell, so a name is compared with one
//! word, by one number.

ghost use Rattle.std.specs.Prelude.{◌≡◌, ◌<◌};
ghost use Rattle.js_kind.specs.Keywords.{place_of, HoldsWords, IsOnlyWord};

use crate::kind::Kind;

/// A word of the table, or an empty place: `Ident`, with the key 0 and the length 0.
pub(crate) struct Word {
    pub(crate) key: u64,
    pub(crate) length: u8,
    pub(crate) kind: Kind,
}

/// The number of up to eight characters, the first one the least.
macro_rules! key {
    () => {
        0
    };
    ($first:literal $($rest:literal)*) => {
        $first as u64 + key!($($rest)*) * 256
    };
}

/// A word by its kind, its length and its first eight characters; `[]` is an empty place.
macro_rules! word {
    () => {
        Word { key: 0, length: 0, kind: Kind::Ident }
    };
    ($kind:ident $length:literal $($first:literal)*) => {
        Word { key: key!($($first)*), length: $length, kind: Kind::$kind }
    };
}

macro_rules! words {
    ($([$($word:tt)*])*) => {
        [$(word!($($word)*),)*]
    };
}

/// The word at each place.
static WORDS: [Word; 512] = words! {
    [Meta 4 b'm' b'e' b't' b'a'] [] [] [] [] [] [] [] [] [] []
    [Default 7 b'd' b'e' b'f' b'a' b'u' b'l' b't'] []
    [Unknown 7 b'u' b'n' b'k' b'n' b'o' b'w' b'n'] [] []
    [Var 3 b'v' b'a' b'r'] [] [] [] [] []
    [Let 3 b'l' b'e' b't'] [] [] [] [] [] []
    [TypeKw 4 b't' b'y' b'p' b'e'] [] [] [] []
    [From 4 b'f' b'r' b'o' b'm'] []
    [Out 3 b'o' b'u' b't']
    [Switch 6 b's' b'w' b'i' b't' b'c' b'h'] []
    [False 5 b'f' b'a' b'l' b's' b'e'] [] [] [] []
    [This 4 b't' b'h' b'i' b's']
    [Else 4 b'e' b'l' b's' b'e'] [] [] [] [] [] [] [] [] [] [] [] []
    [Of 2 b'o' b'f'] [] [] [] [] [] [] [] [] []
    [Try 3 b't' b'r' b'y'] []
    [Using 5 b'u' b's' b'i' b'n' b'g'] [] [] [] [] [] []
    [Symbol 6 b's' b'y' b'm' b'b' b'o' b'l'] [] [] [] [] [] [] [] [] [] [] [] [] [] [] [] [] []
    [Never 5 b'n' b'e' b'v' b'e' b'r']
    [Protected 9 b'p' b'r' b'o' b't' b'e' b'c' b't' b'e']
    [Super 5 b's' b'u' b'p' b'e' b'r'] [] [] [] [] []
    [Export 6 b'e' b'x' b'p' b'o' b'r' b't'] [] []
    [Defer 5 b'd' b'e' b'f' b'e' b'r'] [] [] [] [] [] [] []
    [Get 3 b'g' b'e' b't'] [] [] [] []
    [Null 4 b'n' b'u' b'l' b'l'] [] [] [] [] [] [] [] [] [] [] [] [] [] [] []
    [Asserts 7 b'a' b's' b's' b'e' b'r' b't' b's'] [] [] [] []
    [Target 6 b't' b'a' b'r' b'g' b'e' b't'] []
    [Continue 8 b'c' b'o' b'n' b't' b'i' b'n' b'u' b'e'] [] [] [] [] [] [] [] [] []
    [Break 5 b'b' b'r' b'e' b'a' b'k'] [] []
    [With 4 b'w' b'i' b't' b'h'] [] [] []
    [Undefined 9 b'u' b'n' b'd' b'e' b'f' b'i' b'n' b'e'] []
    [Is 2 b'i' b's'] [] [] [] []
    [Debugger 8 b'd' b'e' b'b' b'u' b'g' b'g' b'e' b'r']
    [Class 5 b'c' b'l' b'a' b's' b's'] [] [] [] [] [] [] []
    [Case 4 b'c' b'a' b's' b'e'] [] [] []
    [Public 6 b'p' b'u' b'b' b'l' b'i' b'c'] [] [] []
    [Catch 5 b'c' b'a' b't' b'c' b'h']
    [Intrinsic 9 b'i' b'n' b't' b'r' b'i' b'n' b's' b'i'] [] [] [] [] [] [] [] [] [] [] [] [] [] []
    [] [] [] []
    [In 2 b'i' b'n'] [] []
    [As 2 b'a' b's'] [] [] [] [] [] [] [] [] [] [] [] [] [] [] [] [] []
    [Typeof 6 b't' b'y' b'p' b'e' b'o' b'f'] []
    [Satisfies 9 b's' b'a' b't' b'i' b's' b'f' b'i' b'e']
    [Namespace 9 b'n' b'a' b'm' b'e' b's' b'p' b'a' b'c']
    [Global 6 b'g' b'l' b'o' b'b' b'a' b'l'] [] [] [] [] [] [] [] [] [] [] [] []
    [Number 6 b'n' b'u' b'm' b'b' b'e' b'r']
    [Const 5 b'c' b'o' b'n' b's' b't'] [] [] [] []
    [Any 3 b'a' b'n' b'y'] [] [] [] [] [] [] [] [] [] [] [] [] [] [] [] [] []
    [Assert 6 b'a' b's' b's' b'e' b'r' b't'] []
    [Boolean 7 b'b' b'o' b'o' b'l' b'e' b'a' b'n'] [] [] [] [] [] [] [] [] [] [] [] [] [] []
    [KeyOf 5 b'k' b'e' b'y' b'o' b'f'] []
    [Instanceof 10 b'i' b'n' b's' b't' b'a' b'n' b'c' b'e'] [] [] [] []
    [Await 5 b'a' b'w' b'a' b'i' b't']
    [True 4 b't' b'r' b'u' b'e'] []
    [Interface 9 b'i' b'n' b't' b'e' b'r' b'f' b'a' b'c'] []
    [Function 8 b'f' b'u' b'n' b'c' b't' b'i' b'o' b'n']
    [Delete 6 b'd' b'e' b'l' b'e' b't' b'e']
    [Package 7 b'p' b'a' b'c' b'k' b'a' b'g' b'e']
    [Declare 7 b'd' b'e' b'c' b'l' b'a' b'r' b'e'] []
    [Return 6 b'r' b'e' b't' b'u' b'r' b'n'] [] []
    [Set 3 b's' b'e' b't'] [] [] [] [] [] [] [] [] [] [] [] [] [] [] [] [] [] [] [] [] [] [] [] []
    [Import 6 b'i' b'm' b'p' b'o' b'r' b't'] [] []
    [Module 6 b'm' b'o' b'd' b'u' b'l' b'e']
    [New 3 b'n' b'e' b'w']
    [Static 6 b's' b't' b'a' b't' b'i' b'c'] [] [] [] [] []
    [Async 5 b'a' b's' b'y' b'n' b'c'] [] [] []
    [Source 6 b's' b'o' b'u' b'r' b'c' b'e'] []
    [Private 7 b'p' b'r' b'i' b'v' b'a' b't' b'e'] [] []
    [Infer 5 b'i' b'n' b'f' b'e' b'r'] [] []
    [BigInt 6 b'b' b'i' b'g' b'i' b'n' b't']
    [Yield 5 b'y' b'i' b'e' b'l' b'd'] [] [] [] []
    [Unique 6 b'u' b'n' b'i' b'q' b'u' b'e'] [] [] [] [] [] [] [] [] [] [] [] []
    [Enum 4 b'e' b'n' b'u' b'm'] [] [] [] [] [] [] [] [] [] []
    [While 5 b'w' b'h' b'i' b'l' b'e'] [] [] [] [] [] [] [] []
    [Do 2 b'd' b'o'] [] [] [] [] [] [] []
    [For 3 b'f' b'o' b'r'] [] [] [] [] [] [] [] []
    [Override 8 b'o' b'v' b'e' b'r' b'r' b'i' b'd' b'e'] [] [] [] [] [] [] [] [] [] []
    [String 6 b's' b't' b'r' b'i' b'n' b'g'] [] []
    [Void 4 b'v' b'o' b'i' b'd'] []
    [Abstract 8 b'a' b'b' b's' b't' b'r' b'a' b'c' b't'] [] [] [] [] [] []
    [Extends 7 b'e' b'x' b't' b'e' b'n' b'd' b's'] [] [] [] [] [] []
    [Finally 7 b'f' b'i' b'n' b'a' b'l' b'l' b'y'] [] [] [] [] []
    [Object 6 b'o' b'b' b'j' b'e' b'c' b't'] [] [] [] [] [] [] []
    [Implements 10 b'i' b'm' b'p' b'l' b'e' b'm' b'e' b'n'] [] [] [] [] [] [] [] [] [] [] [] [] []
    [] [] [] [] [] [] [] [] [] [] [] []
    [If 2 b'i' b'f']
    [Require 7 b'r' b'e' b'q' b'u' b'i' b'r' b'e'] [] []
    [Throw 5 b't' b'h' b'r' b'o' b'w'] [] [] [] [] [] [] []
    [Accessor 8 b'a' b'c' b'c' b'e' b's' b's' b'o' b'r'] [] [] [] []
    [Readonly 8 b'r' b'e' b'a' b'd' b'o' b'n' b'l' b'y'] [] [] []
    [Constructor 11 b'c' b'o' b'n' b's' b't' b'r' b'u' b'c'] [] [] [] [] [] [] [] [] [] [] [] [] []
    [MatchKw 5 b'm' b'a' b't' b'c' b'h']
};

/// The table of words.
#[inline(always)]
fn words() -> &'static [Word; 512]
    ensures { HoldsWords result.now }
{
    &WORDS
}

/// A factor for which the high bits of its products with the keys of all words differ.
pub(crate) const FACTOR: u64 = 0x5D2E_F56B_2233_9495;

/// The place of a key.
#[inline(always)]
fn place_of(key: u64) -> usize
    ensures place { result ≡ place_of key }
    ensures bound { result < 512 }
{
    (key.wrapping_mul(FACTOR) >> 55) as usize
}

/// The one word that may have this key, or an empty place where none may.
#[inline(always)]
pub(crate) fn word_of(key: u64) -> &'static Word
    ensures { IsOnlyWord key result.now }
{
    &words()[place_of(key)]
}
