//! The files that the program makes.

/// Whether a file of this name is one that the program makes.
pub fn is_own(name: &str) -> bool {
    match name {
        "INCOMPLETE" | "scid_page.txt" | "style.css" | "book.js" | "index.html" | "others.html" => {
            true
        }
        _ => match name.strip_suffix(".html") {
            Some(page) => is_position(page.as_bytes()) || is_game(page.as_bytes()),
            None => false,
        },
    }
}

// Whether it is the name of a position's page: 64 digits and the side to move.
fn is_position(name: &[u8]) -> bool {
    match name.split_last() {
        Some((side, digits)) => {
            (*side == b'w' || *side == b'b')
                && digits.len() == 64
                && digits.iter().all(|digit| digit.is_ascii_hexdigit())
        }
        None => false,
    }
}

// Whether it is the name of a game's page: a number behind a letter.
fn is_game(name: &[u8]) -> bool {
    match name.split_first() {
        Some((letter, digits)) => {
            *letter == b'g'
                && !digits.is_empty()
                && digits.iter().all(|digit| digit.is_ascii_digit())
        }
        None => false,
    }
}
