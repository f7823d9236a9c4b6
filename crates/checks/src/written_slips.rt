// Slips as a script writes them.
use words::slip::{Shown, slip};

static SLIPS: [(&str, Option<Shown>); 10] = [
    ("@8.1", Some(Shown { book: 8, day: 1 })),
    (
        "@4294967295.0",
        Some(Shown {
            book: u32::MAX,
            day: 0,
        }),
    ),
    ("8.1", None),
    ("@8", None),
    ("@8.", None),
    ("@.1", None),
    ("@8.1.2", None),
    ("@4294967296.1", None),
    ("@1.4294967296", None),
    ("@+8.1", None),
];

#[test]
fn slips(rt: HostRuntime) {
    for (word, shown) in &SLIPS {
        assert_eq!(rt; slip(word), *shown, "{}", *word);
    }
}
