//! Why a line of a configuration can't stand where it does, in words for whoever wrote it.

use log::{Log, error};
use scripts::{number_from, number_of_word, number_up_to, split_word, three_words, two_words};

/// The lines of a configuration that begin with one word.
pub(crate) struct Form {
    word: &'static [u8],
    // What such a line should be, where it isn't.
    written: &'static str,
    // That there is none, where one is needed.
    missing: Option<&'static str>,
    // Whether there is at most one.
    is_single: bool,
}

/// The lines of a server's configuration.
pub(crate) const SERVE: &[Form] = &[
    Form {
        word: b"timers",
        written: "not `timers MILLISECONDS MILLISECONDS`, the second from 10000 on",
        missing: None,
        is_single: true,
    },
    Form {
        word: b"zone",
        written: "not `zone NAME SERIAL open` or `zone NAME SERIAL shut`",
        missing: None,
        is_single: false,
    },
    Form {
        word: b"link",
        written: "not `link WORD NAME` or `link WORD NAME CAP`, whose word has up to 32 lower-case letters and digits, and its cap is from 1 to 2147483647",
        missing: None,
        is_single: false,
    },
    Form {
        word: b"reverse",
        written: "not `reverse WORD NAME`",
        missing: None,
        is_single: false,
    },
    Form {
        word: b"listen",
        written: "not `listen ADDRESS`",
        missing: Some("there is no line `listen ADDRESS`"),
        is_single: true,
    },
    Form {
        word: b"sessions",
        written: "not `sessions NUMBER`, from 1 to 1000000",
        missing: Some("there is no line `sessions NUMBER`"),
        is_single: true,
    },
    Form {
        word: b"feed",
        written: "not `feed WORD ADDRESS`",
        missing: None,
        is_single: false,
    },
    TURNS,
];

/// The lines of a subscriber's.
pub(crate) const SUBSCRIBE: &[Form] = &[
    Form {
        word: b"server",
        written: "not `server ADDRESS`",
        missing: Some("there is no line `server ADDRESS`"),
        is_single: true,
    },
    Form {
        word: b"question",
        written: "not `question NAME TYPE CLASS`, type and class being numbers up to 65535",
        missing: Some("there is no line `question NAME TYPE CLASS`"),
        is_single: false,
    },
    Form {
        word: b"messages",
        written: "not `messages NUMBER`",
        missing: None,
        is_single: true,
    },
    TURNS,
];

const TURNS: Form = Form {
    word: b"turns",
    written: "not `turns NUMBER`, up to 1099511627776",
    missing: None,
    is_single: true,
};

const NO_DOT: &str = "its name doesn't end with a dot";

const NO_LINK: &str = "no line before it is of this link";

/// Logs the number of the first line that is outside, and why it is.
pub(crate) fn tell_cause<R: Log>(rt: &R, forms: &[Form], octets: &[u8], number: usize) {
    let text = Text { octets, number };
    error!(rt; "line {number}: {}", text.cause(forms));
}

// A text of lines, and the number of one of them, counted from 1.
#[derive(Drop)]
struct Text<'a> {
    octets: &'a [u8],
    number: usize,
}

impl Text<'_> {
    // Why its line can't stand there.
    fn cause(&self, forms: &[Form]) -> &'static str {
        let Some(line) = self.line() else {
            return self.missing(forms);
        };
        match odd_space(line) {
            Some(cause) => cause,
            None => self.cause_in_words(forms, line),
        }
    }

    // Its line, if it isn't the one behind the last.
    fn line(&self) -> Option<&[u8]> {
        let before = self.number.checked_sub(1)?;
        let line = self.octets.split(ends_line).nth(before)?;
        if line.is_empty() {
            return None;
        }
        Some(line)
    }

    // What is missing behind the last line.
    fn missing(&self, forms: &[Form]) -> &'static str {
        'forms: for form in forms {
            if let Some(cause) = form.missing {
                if !self.begins_before(form.word) {
                    return cause;
                }
            }
        }
        "the text is too long"
    }

    // Why its line, in which all spaces are right, can't stand there.
    fn cause_in_words(&self, forms: &[Form], line: &[u8]) -> &'static str {
        let (word, rest) = match split_word(line) {
            Some(parts) => parts,
            None => (line, b"".as_slice()),
        };
        let Some(form) = forms.iter().find(|form| form.word == word) else {
            return "it begins with no word of a configuration";
        };
        if form.is_single {
            if self.begins_before(word) {
                return "there is such a line before it";
            }
        }
        self.cause_behind(word, rest).unwrap_or(form.written)
    }

    // Why that can't stand behind the first word of its line, where its form is right.
    fn cause_behind(&self, word: &[u8], rest: &[u8]) -> Option<&'static str> {
        if word == b"zone".as_slice() {
            cause_in_zone(rest)
        } else if word == b"link".as_slice() {
            self.cause_in_link(rest)
        } else if word == b"reverse".as_slice() {
            self.cause_in_reverse(rest)
        } else if word == b"feed".as_slice() {
            self.cause_in_feed(rest)
        } else if word == b"question".as_slice() {
            cause_in_question(rest)
        } else {
            None
        }
    }

    fn cause_in_link(&self, rest: &[u8]) -> Option<&'static str> {
        let (word, name) = word_and_name(rest)?;
        if self.has_before(b"link", word) {
            return Some("a link before it has this word");
        }
        if !ends_with_dot(name) {
            return Some(NO_DOT);
        }
        if !is_plain(word) {
            return None;
        }
        Some("its name can't stand beside the zones and links before it")
    }

    fn cause_in_reverse(&self, rest: &[u8]) -> Option<&'static str> {
        let (word, name) = two_words(rest)?;
        if !self.has_before(b"link", word) {
            return Some(NO_LINK);
        }
        if !ends_with_dot(name) {
            return Some(NO_DOT);
        }
        Some(
            "its name ends in neither in-addr.arpa. nor ip6.arpa., or can't stand beside the homes before it",
        )
    }

    fn cause_in_feed(&self, rest: &[u8]) -> Option<&'static str> {
        let (word, _) = two_words(rest)?;
        if !self.has_before(b"link", word) {
            return Some(NO_LINK);
        }
        if self.has_before(b"feed", word) {
            return Some("this link has a feed before it");
        }
        None
    }

    // Whether a line before it begins with that word.
    fn begins_before(&self, word: &[u8]) -> bool {
        self.octets
            .split(ends_line)
            .take(self.number.saturating_sub(1))
            .any(|line| first_word(line) == word)
    }

    // Whether a line before it begins with those two words.
    fn has_before(&self, first: &[u8], second: &[u8]) -> bool {
        self.octets
            .split(ends_line)
            .take(self.number.saturating_sub(1))
            .any(|line| begins_with(line, first, second))
    }
}

fn ends_line(octet: &u8) -> bool {
    *octet == b'\n'
}

fn first_word(text: &[u8]) -> &[u8] {
    match split_word(text) {
        Some((word, _)) => word,
        None => text,
    }
}

fn begins_with(line: &[u8], first: &[u8], second: &[u8]) -> bool {
    match split_word(line) {
        Some((word, rest)) => word == first && first_word(rest) == second,
        None => false,
    }
}

// A space, a tab or a line end that is none of a configuration.
fn odd_space(line: &[u8]) -> Option<&'static str> {
    if line.ends_with(b"\r") {
        Some("it ends with a carriage return")
    } else if line.contains(&b'\t') {
        Some("it has a tab")
    } else if line.ends_with(b" ") {
        Some("it ends with a space")
    } else if line.split(is_space).any(|word| word.is_empty()) {
        Some("it has a space too many")
    } else {
        None
    }
}

fn is_space(octet: &u8) -> bool {
    *octet == b' '
}

fn ends_with_dot(name: &[u8]) -> bool {
    name.ends_with(b".")
}

fn is_plain(word: &[u8]) -> bool {
    word.len() <= 32
        && word.iter().all(|octet| octet.is_ascii_lowercase() || octet.is_ascii_digit())
}

// The word and the name of a link, whether or not it has a cap.
fn word_and_name(rest: &[u8]) -> Option<(&[u8], &[u8])> {
    match three_words(rest) {
        Some((word, name, cap)) => {
            number_from(1, 2_147_483_647, cap)?;
            Some((word, name))
        }
        None => two_words(rest),
    }
}

fn cause_in_zone(rest: &[u8]) -> Option<&'static str> {
    let (name, serial, access) = three_words(rest)?;
    if !ends_with_dot(name) {
        return Some(NO_DOT);
    }
    number_of_word(serial)?;
    if access != b"open".as_slice() {
        if access != b"shut".as_slice() {
            return None;
        }
    }
    Some("its name can't stand beside the zones and links before it")
}

fn cause_in_question(rest: &[u8]) -> Option<&'static str> {
    let (name, kind, class) = three_words(rest)?;
    if !ends_with_dot(name) {
        return Some(NO_DOT);
    }
    number_up_to(65_535, kind)?;
    number_up_to(65_535, class)?;
    Some("its name is none, or the question stands before it, or 1024 others do")
}
