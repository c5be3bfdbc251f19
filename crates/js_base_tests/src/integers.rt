//! The values and the digits of integers, which the lexer leaves to its callers.

use js_kind::Kind;
use js_spell::{parse_big_int, parse_int};
use std::test::Fail;

#[test]
#[tactic(auto, unfolding(js_kind::specs::Digits::is_digit_of))]
fn values(rt: HostRuntime) {
    let zeros = "0000000000000000000000000000000000000000000000000000000000001";
    assert_eq!(rt; parse_int(zeros, Kind::Decimal, false), Some(1));
    assert_eq!(rt;
        parse_int("1___000_000", Kind::Decimal, true),
        Some(1_000_000)
    );
    let limit = "340282366920938463463374607431768211456";
    assert_eq!(rt; parse_int(limit, Kind::Decimal, false), None);
    assert_eq!(rt; parse_int("0b1_0000__0000", Kind::Binary, true), Some(256));
    assert_eq!(rt; parse_int("0o77_73_72", Kind::Octal, true), Some(261_882));
    assert_eq!(rt; parse_int("0777", Kind::Octal, false), Some(511));
    assert_eq!(rt;
        parse_int("0x10000000000000000", Kind::Hex, false),
        Some(18_446_744_073_709_551_616)
    );
}

#[test]
#[tactic(auto, unfolding(js_kind::specs::Digits::is_digit_of))]
fn digits_of_a_big_integer(rt: HostRuntime) -> Result<(), Fail> {
    let (digits, radix) = parse_big_int(rt.alloc(), "0xFF_AA", Kind::Hex, true)?;
    assert_eq!(rt; digits.as_str(), "FFAA");
    assert_eq!(rt; radix, 16);
    Ok(())
}
