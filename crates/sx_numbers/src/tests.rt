//! Texts that are numbers, and texts that are none.

use crate::number_of;

#[test]
fn numbers(rt: HostRuntime) {
    let cases: [(&str, Option<u64>); 10] = [
        ("0", Some(0)),
        ("10", Some(10)),
        ("18446744073709551615", Some(u64::MAX)),
        ("18446744073709551616", None),
        ("99999999999999999999999999999999999999999", None),
        ("", None),
        ("00", None),
        ("+1", None),
        ("1 ", None),
        ("1:", None),
    ];
    for (text, wanted) in cases {
        assert_eq!(rt; number_of(text.as_bytes()), wanted, "{text}");
    }
}
