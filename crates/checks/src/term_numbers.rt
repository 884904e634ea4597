use crate::numbers::refusal_number;
use std::test::Fail;
use terms::{Fault, TermLength};

/// The start, the end and the next start of a view's term.
fn numbers(length: u32, view: u64) -> Result<(u64, u64, u64), Fault> {
    let length = TermLength::new(length)?;
    Ok((
        length.term_start(view),
        length.term_end(view)?,
        length.next_term_start(view)?,
    ))
}

#[test]
fn terms_of_four(rt: HostRuntime) -> Result<(), Fail> {
    let rows = [
        (0u64, 0u64, 0u64, 1u64),
        (1, 1, 4, 5),
        (4, 1, 4, 5),
        (5, 5, 8, 9),
        (
            4611686018427387904,
            4611686018427387901,
            4611686018427387904,
            4611686018427387905,
        ),
    ];
    for (view, start, end, next) in rows {
        assert_eq!(rt; numbers(4, view)?, (start, end, next));
    }
    Ok(())
}

#[test]
fn longest_and_shortest_terms(rt: HostRuntime) -> Result<(), Fail> {
    assert_eq!(rt; numbers(1, 7)?, (7, 7, 8));
    assert_eq!(rt; numbers(4294967295, 1)?, (1, 4294967295, 4294967296));
    let last = 4611686018427387904;
    assert_eq!(rt; numbers(1, last)?, (last, last, last + 1));
    assert_eq!(rt;
        numbers(4294967295, last)?,
        (
            4611686017353646081,
            4611686021648613375,
            4611686021648613376,
        )
    );
    Ok(())
}

#[test]
fn refused(rt: HostRuntime) {
    assert_eq!(rt; refusal_number(numbers(0, 1)), 9);
    assert_eq!(rt; refusal_number(numbers(0, u64::MAX)), 9);
    assert_eq!(rt; refusal_number(numbers(1, 4611686018427387904)), 0);
    assert_eq!(rt; refusal_number(numbers(1, 4611686018427387905)), 5);
    assert_eq!(rt; refusal_number(numbers(4294967295, u64::MAX)), 5);
}

#[test]
fn covered_at_the_highest_views(rt: HostRuntime) -> Result<(), Fail> {
    let length = TermLength::new(4294967295)?;
    assert!(rt; length.covers(u64::MAX, u64::MAX));
    assert!(rt; length.covers(u64::MAX - 1, u64::MAX) == length.same_term(u64::MAX - 1, u64::MAX));
    assert!(rt; !length.covers(u64::MAX, u64::MAX - 1));
    assert!(rt; !length.covers(0, 1));
    assert!(rt; length.covers(0, 0));
    Ok(())
}
