//! Rows of names of files, as a terminal is shown them.
use crate::notation::bytes_of;
use sentences::shown_text;
use test_rows::Answer;

/// The name that those bytes are, as a terminal is shown it.
fn say_name(out: &mut Answer, bytes: &[u8]) {
    match std::str::from_utf8(bytes) {
        Ok(name) => match shown_text(out.alloc(), name) {
            Ok(shown) => out.push(shown.as_str()),
            Err(_) => out.refuse(),
        },
        Err(_) => out.push("not UTF-8"),
    }
}

/// Each name, as a terminal is shown it.
pub fn say_names(out: &mut Answer, lines: &str) {
    for line in lines.lines() {
        let bytes = bytes_of(out, line);
        say_name(out, bytes.as_slice());
        out.push("\n");
    }
}
