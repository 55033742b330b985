use calendar::Date;
use head::{Edition, Head, HeadItems};
use refusal::Refusal;
use std::test::Fail;

fn sample() -> HeadItems {
    HeadItems {
        carrier: 9997,
        key: *b"       3250782811966",
        edition: Edition {
            date: Date {
                day: 20,
                month: 5,
                year: 2008,
            },
            hour: 12,
            minute: 31,
        },
        flags: 0,
        language: *b"de",
        second_language: *b"  ",
    }
}

fn sample_head() -> Result<Head, Fail> {
    Head::try_from(sample()).map_err(|_| Fail::new("the sample is lawful"))
}

fn refusal_of(items: HeadItems) -> Option<Refusal> {
    Head::try_from(items)
        .err()
        .map(|fault| Refusal::from(fault))
}

const UNLAWFUL: Option<Refusal> = Some(Refusal {
    number: 7,
    layer: 1,
    record: 0,
    field: 0,
    place: 0,
});

#[test]
fn refuses_items_that_a_clerk_got_wrong(rt: HostRuntime) {
    let mut carrier = sample();
    carrier.carrier = 10_000;
    assert_eq!(rt; refusal_of(carrier), UNLAWFUL);
    let mut key = sample();
    key.key[19] = 127;
    assert_eq!(rt; refusal_of(key), UNLAWFUL);
    let mut date = sample();
    date.edition.date.year = 0;
    assert_eq!(rt; refusal_of(date), UNLAWFUL);
    let mut hour = sample();
    hour.edition.hour = 24;
    assert_eq!(rt; refusal_of(hour), UNLAWFUL);
    let mut flags = sample();
    flags.flags = 8;
    assert_eq!(rt; refusal_of(flags), UNLAWFUL);
    let mut language = sample();
    let blanks = *b"  ";
    language.language = blanks;
    assert_eq!(rt; refusal_of(language), UNLAWFUL);
    let mut second = sample();
    let half = *b"f ";
    second.second_language = half;
    assert_eq!(rt; refusal_of(second), UNLAWFUL);
    assert_eq!(rt; refusal_of(sample()), None);
}

#[test]
fn writes_the_sample_and_leaves_the_rest(rt: HostRuntime) -> Result<(), Fail> {
    let head = sample_head()?;
    let mut buffer = [b'#'; 56];
    assert_eq!(rt; head.write(&mut buffer), Ok(53));
    assert!(rt; buffer == *b"U_HEAD0100419997       32507828119662005200812310de  ###");
    Ok(())
}

#[test]
fn a_short_buffer_stays_as_it_was(rt: HostRuntime) -> Result<(), Fail> {
    let head = sample_head()?;
    let mut buffer = [b'#'; 52];
    let refusal = head
        .write(&mut buffer)
        .err()
        .map(|fault| Refusal::from(fault));
    let too_short = Refusal {
        number: 16,
        layer: 3,
        record: 0,
        field: 0,
        place: 0,
    };
    assert_eq!(rt; refusal, Some(too_short));
    assert!(rt; buffer == [b'#'; 52]);
    Ok(())
}
