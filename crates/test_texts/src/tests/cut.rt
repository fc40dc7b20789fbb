//! A text that is cut at each of its bytes.
use super::scenarios::{TWO_PROCESSORS, check};

/// The answers to the first bytes of the text, for each range of their numbers.
const ANSWERS: [(usize, usize, &str); 14] = [
    (0, 0, "missing version"),
    (1, 10, "not-toml -"),
    (11, 12, "missing cpus"),
    (13, 19, "not-toml -"),
    (20, 21, "missing ticks"),
    (22, 30, "not-toml -"),
    (31, 31, "out-of-range window"),
    (32, 33, "missing ticks"),
    (34, 41, "not-toml -"),
    (42, 44, "read"),
    (45, 82, "not-toml -"),
    (83, 84, "read"),
    (85, 335, "not-toml -"),
    (336, 337, "read"),
];

/// The answer to so many bytes of the text.
fn answer_to_first(answers: &[(usize, usize, &'static str)], count: usize) -> &'static str {
    for (first, last, answer) in answers {
        if *first <= count && count <= *last {
            return answer;
        }
    }
    "in no range"
}

#[test]
fn each_beginning_of_a_text_is_read_or_refused(rt: HostRuntime) {
    let text = TWO_PROCESSORS.as_bytes();
    assert_eq!(rt; text.len(), 337);
    for count in 0..=text.len() {
        let answer = answer_to_first(&ANSWERS, count);
        check(&rt, rt.alloc(), &text[..count], answer);
    }
}
