use record_text::Defaults;
use script::{Asked, Mistake, ask};
use std::alloc::Global;
use std::test::Fail;

/// What is written for line 3 where there is no member: nothing, where it is left to a member.
fn reply(heap: Global, line: &[u8]) -> Result<String, Fail> {
    match ask(heap, line, Defaults { epoch: 0, seats: 0 }) {
        Ok(Asked::Answer(answer)) => Ok(answer.to_string(heap)?),
        Ok(_) => Ok(String::new(heap)),
        Err(problem) => Ok(Mistake { line: 3, problem }.to_string(heap)?),
    }
}

#[test]
fn answers(rt: HostRuntime) -> Result<(), Fail> {
    let heap = rt.alloc();
    let rows: [(&[u8], &str); 15] = [
        (b"", ""),
        (b"   # term 4 5 \xff", ""),
        (b"  term   4  5  # \xff", "start 5 end 8 next 9"),
        (b"covers 4 6 8", "yes"),
        (b"covers 4 6 9", "no"),
        (b"covers 0 6 9", "refused 9 terms"),
        (b"read bytes -", "refused 1 record"),
        (
            b"read finalization 18446744073709551615 epoch=1 parent=2 seats=3",
            "finalization epoch 1 view 18446744073709551615 parent 2",
        ),
        (b"read nullification 1 parent=1", "refused 4 record"),
        (b"member 0 18446744073709551615 0 0", ""),
        (b"settled 18446744073709551615 nullification", ""),
        (b"deliver 5 background,notarization,background bytes -", ""),
        (b"resolve 9 5 notarization 4294967295", ""),
        (b"offer certified fail bytes -", ""),
        (b"drain 18446744073709551615", ""),
    ];
    for (line, expected) in rows {
        assert!(rt; reply(heap, line)?.as_str() == expected);
    }
    Ok(())
}

#[test]
fn errors(rt: HostRuntime) -> Result<(), Fail> {
    let heap = rt.alloc();
    let rows: [(&[u8], &str); 33] = [
        (b"terms 4 5", "line 3: error: unknown command"),
        (b"term\t4 5", "line 3: error: unknown command"),
        (b"\xff", "line 3: error: unknown command"),
        (b"term 4", "line 3: error: a word is missing"),
        (b"term 4 5 6", "line 3: error: a word too many"),
        (b"term 4294967296 5", "line 3: error: number out of range"),
        (
            b"term 4 18446744073709551616",
            "line 3: error: number out of range",
        ),
        (b"term 04 5", "line 3: error: not a decimal number"),
        (b"term 4 5\r", "line 3: error: not a decimal number"),
        (b"read", "line 3: error: a word is missing"),
        (
            b"read certificate 5",
            "line 3: error: not a record: expected 'bytes' or a kind",
        ),
        (
            b"read notarization 5 epoch=",
            "line 3: error: not a decimal number",
        ),
        (
            b"read notarization 5 parent=1 epoch=2",
            "line 3: error: a word too many",
        ),
        (b"read bytes 0", "line 3: error: odd number of hex digits"),
        (b"read bytes 0A", "line 3: error: not lower-case hex digits"),
        (b"read bytes 00 00", "line 3: error: a word too many"),
        (b"offer state", "line 3: error: unknown command"),
        (b"offer", "line 3: error: a word is missing"),
        (b"drain 64 1", "line 3: error: a word too many"),
        (b"member 4 7 4", "line 3: error: a word is missing"),
        (b"member 4 7 4 3 row", "line 3: error: a word too many"),
        (
            b"member 4 7 4 3 rows list",
            "line 3: error: a word too many",
        ),
        (
            b"resolve 9 5 nullification 4294967296",
            "line 3: error: number out of range",
        ),
        (
            b"resolve 9 5 nullification 1 2",
            "line 3: error: a word too many",
        ),
        (
            b"deliver 5 background,, nullification 5",
            "line 3: error: not asks: expected 'background', 'nullification', 'notarization' or '-'",
        ),
        (
            b"deliver 5 -,background nullification 5",
            "line 3: error: not asks: expected 'background', 'nullification', 'notarization' or '-'",
        ),
        (b"deliver 5 background", "line 3: error: a word is missing"),
        (b"deliver 5", "line 3: error: a word is missing"),
        (
            b"member 4294967296 7 4 3",
            "line 3: error: number out of range",
        ),
        (b"replayed now", "line 3: error: a word too many"),
        (
            b"certified notarization 5",
            "line 3: error: not a verdict: expected 'pass' or 'fail'",
        ),
        (
            b"settled 5 finalization",
            "line 3: error: not an ask: expected 'nullification' or 'notarization'",
        ),
        (b"produce", "line 3: error: a word is missing"),
    ];
    for (line, expected) in rows {
        assert!(rt; reply(heap, line)?.as_str() == expected);
    }
    Ok(())
}
