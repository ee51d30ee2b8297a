//! Command lines: what no run prints of them, which is why they are refused, and with how many workers they ask for.
use lab_arguments::{Request, WordsFault, read_words};
use std::alloc::Global;
use std::test::Fail;

/// The words of a line, with `|` between them. An empty line has none.
fn words_of(alloc: Global, line: &str) -> Result<Vec<String>, Fail> {
    let mut words = Vec::new(alloc);
    if line.is_empty() {
        return Ok(words);
    }
    for word in line.split('|') {
        words.push(String::from_str(alloc, word)?)?;
    }
    Ok(words)
}

/// How many workers a line asks for, or the cause of its refusal.
fn answer(alloc: Global, line: &str) -> Result<String, Fail> {
    let words = words_of(alloc, line)?;
    let text = match read_words(alloc, &words) {
        Ok(Request::Run { workers, .. }) => format!(in alloc; "{workers} workers")?,
        Ok(Request::Gen { workers, .. }) => format!(in alloc; "{workers} workers")?,
        Ok(Request::Check { .. }) => format!(in alloc; "no workers")?,
        Err(WordsFault::Usage(cause)) => format!(in alloc; "{cause:?}")?,
        Err(WordsFault::Memory) => format!(in alloc; "memory")?,
    };
    Ok(text)
}

fn is_answered(alloc: Global, line: &str, expected: &str) -> Result<bool, Fail> {
    let answer = answer(alloc, line)?;
    Ok(answer.as_str() == expected)
}

/// Each row: words, and the cause or how many workers they ask for.
static ANSWERS: [(&str, &str); 68] = [
    ("", "Command"),
    ("|run|s", "Command"),
    ("Run|s", "Command"),
    ("--|run|s", "Command"),
    ("--workers|2|run|s", "Command"),
    ("--help", "Command"),
    ("help", "Command"),
    ("run", "Words"),
    ("run|s|t", "Words"),
    ("run|s|--help", "Words"),
    ("run|s|-h", "Words"),
    ("run|s|--workers|3|--workers|3", "Words"),
    ("run|s|--workers=3|--workers|4", "Words"),
    ("run|s|--work|3", "Words"),
    ("run|s|--workers3", "Words"),
    ("run|s|-w|3", "Words"),
    ("run|s|--SCRIPT=t", "Words"),
    ("run|s|--=3", "Words"),
    ("run|s|---", "Words"),
    ("run|s|--\u{e9}", "Words"),
    ("run|s|-\u{e9}", "Words"),
    ("run|s|--workers", "Words"),
    ("run|s|--workers=", "Words"),
    ("run|s|--workers|", "Words"),
    ("run|--workers|-|s", "Words"),
    ("run|s|--workers|--", "Words"),
    ("run|--workers|--until|1|s", "Words"),
    ("run|s|--workers|-3", "Words"),
    ("run|s|--workers=-3", "Words"),
    ("run|--", "Words"),
    ("run|--|s|--workers=2", "Words"),
    ("check", "Words"),
    ("check|s|t", "Words"),
    ("check|s|--workers|1", "Words"),
    ("run|s|--workers|000000000000000000008", "Words"),
    ("run|s|--workers|+3", "Words"),
    ("run|s|--workers|0x3", "Words"),
    ("run|s|--until|1s", "Words"),
    ("run|s|--until|-3", "Words"),
    ("run|s|--workers|9|--until|1s", "Words"),
    ("run|s|t|--workers|9", "Words"),
    ("gen|99999999999999999999|x", "Words"),
    ("gen|100000000000000000000|1", "Words"),
    ("gen|7", "Words"),
    ("gen|7|1|1", "Words"),
    ("gen|--|-7|1", "Words"),
    ("gen||1", "Words"),
    ("gen|7|1|--until|1", "Words"),
    ("run|s|--workers|0", "Value"),
    ("run|s|--workers|9", "Value"),
    ("run|s|--workers|256", "Value"),
    ("run|s|--workers|18446744073709551617", "Value"),
    ("run|s|--until|10000.000001", "Value"),
    ("run|s|--until|10001|--workers|9", "Value"),
    ("gen|18446744073709551616|1", "Value"),
    ("gen|99999999999999999999|1", "Value"),
    ("gen|7|0", "Value"),
    ("gen|7|17", "Value"),
    ("run|s", "1 workers"),
    ("run|s|--workers|3|--until|0.5", "3 workers"),
    ("run|--until=0.5|--workers=3|s", "3 workers"),
    ("run|--workers|3|s|--until=0.5", "3 workers"),
    ("run|--workers=2|--|--until", "2 workers"),
    ("run|s|--workers|8", "8 workers"),
    ("run|s|--workers|00000000000000000008", "8 workers"),
    ("gen|0|1", "1 workers"),
    ("gen|7|16|--workers|2", "2 workers"),
    ("gen|--workers=8|18446744073709551615|16", "8 workers"),
];

#[test]
fn words_are_refused_for_their_cause_or_ask_for_workers(rt: HostRuntime) -> Result<(), Fail> {
    for (line, expected) in &ANSWERS {
        let is_so = is_answered(rt.alloc(), line, expected)?;
        assert!(rt; is_so, "{line}");
    }
    Ok(())
}
