//! What an operation of a program takes.
use aps_model::Name;

/// What the operation takes that this text begins like.
pub fn operation_takes(text: &str) -> &'static str {
    match first_word(text) {
        "run" => "run takes a number of ns from 1 to 10000000000000, or forever",
        "sleep" => "sleep takes a number of ns from 1 to 10000000000000",
        "send" => "send takes the name of a channel",
        "receive" => "receive takes the name of a channel",
        "join" => "join takes the name of a partition",
        "priority" => "priority takes a number from 1 to 255",
        "critical" => "critical takes on or off",
        "yield" => "yield takes nothing",
        "reply" => "reply takes nothing",
        "repeat" => "repeat takes nothing",
        "exit" => "exit takes nothing",
        _ => {
            "an operation is run N, run forever, sleep N, yield, send C, receive C, reply, join P, \
            priority N, critical on, critical off, repeat or exit"
        }
    }
}

fn first_word(text: &str) -> &str {
    match text.split_once(' ') {
        Some((word, _)) => word,
        None => text,
    }
}

/// Whether the text has the form of an operation, wherever it stands and whatever it names.
pub fn is_operation(text: &str) -> bool {
    match text.split_once(' ') {
        Some((word, behind)) => takes_word(word, behind),
        None => match text {
            "yield" | "reply" | "repeat" | "exit" => true,
            _ => false,
        },
    }
}

fn takes_word(word: &str, behind: &str) -> bool {
    match word {
        "run" => behind == "forever" || is_number(behind, 10_000_000_000_000),
        "sleep" => is_number(behind, 10_000_000_000_000),
        "priority" => is_number(behind, 255),
        "critical" => behind == "on" || behind == "off",
        "send" | "receive" | "join" => Name::new(behind.as_bytes()).is_ok(),
        _ => false,
    }
}

/// Whether the text is a number from 1 to `most`, in digits that don't begin with a zero.
fn is_number(text: &str, most: u64) -> bool {
    match text.as_bytes() {
        [b'1'..=b'9', rest @ ..] => {
            rest.iter().all(|byte| byte.is_ascii_digit()) && is_at_most(text, most)
        }
        _ => false,
    }
}

fn is_at_most(digits: &str, most: u64) -> bool {
    match digits.parse::<u64>() {
        Ok(number) => number <= most,
        Err(_) => false,
    }
}
