// The numbers of a script.
use words::number::{number, short_number};

static NUMBERS: [(&str, u64, Option<u64>); 9] = [
    ("0", 9, Some(0)),
    ("007", 7, Some(7)),
    ("8", 7, None),
    ("18446744073709551615", u64::MAX, Some(u64::MAX)),
    ("18446744073709551616", u64::MAX, None),
    ("", 9, None),
    ("+5", 9, None),
    ("-0", 9, None),
    ("1a", 9, None),
];

#[test]
fn numbers(rt: HostRuntime) {
    for (word, most, value) in &NUMBERS {
        assert_eq!(rt; number(word, *most), *value, "{}", *word);
    }
}
