//! What is wrong with a malformed line of a history.

/// What some editors write before the first line.
const BYTE_ORDER_MARK: &[u8] = b"\xef\xbb\xbf";

/// Returns the line with this number, from 1, without its line feed; no bytes if there is none.
pub(crate) fn line_at(text: &[u8], number: usize) -> &[u8] {
    let mut at: usize = 0;
    for line in text.split(|b| *b == b'\n') {
        at = at.saturating_add(1);
        if at == number {
            return line;
        }
    }
    &[]
}

/// Returns what makes a history's line with this number malformed, if that is seen, or what is expected there.
pub(crate) fn line_trouble(text: &[u8], number: usize) -> &'static str {
    let line = line_at(text, number);
    if number == 1 && line.starts_with(BYTE_ORDER_MARK) {
        return "a byte order mark stands before it";
    }
    if line.ends_with(b"\r") {
        return "it ends with a carriage return before the line feed";
    }
    if number == 1 && is_newer(line) {
        return "the history is of a newer version: this program reads 1 to 3";
    }
    let is_last = text.split(|b| *b == b'\n').count() == number;
    if is_last && !line.is_empty() {
        return "the line feed at its end is missing";
    }
    if number == 1 {
        "a header is expected: landtree-history 3 nodes N abi A, N from 1 to 4096, A from 1 to 3"
    } else {
        "an entry is expected: CLIENT COMMAND = REPLY, of a call that was made"
    }
}

// Reports whether a header is of a version that doesn't exist yet.
fn is_newer(line: &[u8]) -> bool {
    let Ok(text) = str::from_utf8(line) else {
        return false;
    };
    let Some(rest) = text.strip_prefix("landtree-history ") else {
        return false;
    };
    match rest.split(' ').next() {
        Some(version) => matches!(version.parse::<u64>(), Ok(4..)),
        None => false,
    }
}
