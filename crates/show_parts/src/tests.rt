use super::{HeadLines, read_front};
use calendar::Date;
use head::{Edition, HeadItems};
use std::alloc::{AllocError, Global};
use std::test::Fail;

const ITEMS: HeadItems = HeadItems {
    carrier: 80,
    key: *b"       3250782811966",
    edition: Edition {
        date: Date {
            day: 2,
            month: 5,
            year: 208,
        },
        hour: 7,
        minute: 0,
    },
    flags: 4,
    language: *b"de",
    second_language: *b"  ",
};

/// What is printed of the items with another second language.
fn printed(heap: Global, second_language: [u8; 2]) -> Result<String, AllocError> {
    let mut items = ITEMS;
    items.second_language = second_language;
    let lines = HeadLines { items };
    format!(in heap; "{lines}")
}

#[test]
fn items_one_to_a_line(rt: HostRuntime) -> Result<(), AllocError> {
    let none = printed(rt.alloc(), *b"  ")?;
    assert_eq!(rt;
        none.as_str(),
        "carrier 0080\nkey        3250782811966\nedition 02.05.0208 07:00\nflags 4\nlanguage de\nsecond language none"
    );
    let french = printed(rt.alloc(), *b"fr")?;
    assert!(rt;
        french
            .as_str()
            .ends_with("\nlanguage de\nsecond language fr")
    );
    Ok(())
}

#[test]
fn input_up_to_the_limit(rt: HostRuntime) -> Result<(), Fail> {
    let input = vec![in rt.alloc(); 7; 65_537]?;
    for count in [0, 1, 65_535, 65_536, 65_537] {
        let bytes = read_front(rt.alloc(), &input[..input.len().min(count)])?;
        assert_eq!(rt;
            bytes.as_slice(),
            &input[..input.len().min(count).min(65_536)]
        );
    }
    Ok(())
}
