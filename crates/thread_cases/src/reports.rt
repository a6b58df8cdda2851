/// Whether a report has each of these lines.
pub(crate) fn has_lines(report: &str, wanted: &[&str]) -> bool {
    wanted.iter().all(|line| has_line(report, line))
}

fn has_line(report: &str, wanted: &str) -> bool {
    report.lines().any(|line| line == wanted)
}

/// Whether the words of this output are the even numbers from 2 to 128, each once, in any order.
pub(crate) fn puts_each_once(report: &str, output: &str) -> bool {
    match report.lines().find_map(|line| line.strip_prefix(output)) {
        Some(words) => are_each_once(words),
        None => false,
    }
}

fn are_each_once(words: &str) -> bool {
    let mut seen = 0u64;
    let mut count = 0u32;
    for word in words.split(' ') {
        seen |= mark_of(word);
        count = count.wrapping_add(1);
    }
    seen == u64::MAX && count == 64
}

/// The bit of an even number from 2 to 128: of 2 the first one. None for all else.
fn mark_of(word: &str) -> u64 {
    match word.parse::<u32>() {
        Ok(number) if number % 2 == 0 && 2 <= number && number <= 128 => {
            1u64.wrapping_shl(number / 2 - 1)
        }
        _ => 0,
    }
}
