//! The words that the program is run with.
ghost use Rattle.std.specs.Prelude.{◌≡◌, map, string_bytes, option_map};
ghost use Rattle.shell_session.specs.Words.{is_base_name, with_word, words_read};

/// What the words ask for.
#[derive(Clone, Copy)]
pub(crate) struct Wanted<'a> {
    /// The name of the base.
    pub(crate) name: &'a str,
    /// Absent files are made.
    pub(crate) create: bool,
    /// Derived fields count at opening.
    pub(crate) strict: bool,
    /// The script is said at a desk of four clients.
    pub(crate) desk: bool,
}

// What some words have said so far.
#[derive(Clone, Copy)]
struct Said<'a> {
    base: Option<&'a str>,
    create: bool,
    strict: bool,
    desk: bool,
}

/// What the words ask for, if they are one base name and the options `--create`, `--strict` and `--desk`, each at most once.
#[tactic(auto, unfolding(crate::specs::Words::words_read))]
pub(crate) fn words_read(words: &[String]) -> Option<Wanted<'_>>
    ensures read { option_map (λ w. record { name = w.name.now; create = w.create; strict = w.strict; desk = w.desk }) result ≡ words_read (map string_bytes words.now) }
{
    let mut said = Said {
        base: None,
        create: false,
        strict: false,
        desk: false,
    };
    for word in words {
        said = with_word(said, word.as_str())?;
    }
    Some(Wanted {
        name: said.base?,
        create: said.create,
        strict: said.strict,
        desk: said.desk,
    })
}

// What was said with one word more.
fn with_word<'a>(said: Said<'a>, word: &'a str) -> Option<Said<'a>>
    ensures said { option_map (λ s. record { name = option_map (λ name. name.now) s.base; create = s.create; strict = s.strict; desk = s.desk }) result ≡ with_word (record { name = option_map (λ name. name.now) said.entry.base; create = said.entry.create; strict = said.entry.strict; desk = said.entry.desk }) word.now }
{
    if word == "--create" {
        return (!said.create).then_some(Said {
            create: true,
            ..said
        });
    }
    if word == "--strict" {
        return (!said.strict).then_some(Said {
            strict: true,
            ..said
        });
    }
    if word == "--desk" {
        return (!said.desk).then_some(Said { desk: true, ..said });
    }
    if said.base.is_some() || !is_base_name(word) {
        return None;
    }
    Some(Said {
        base: Some(word),
        ..said
    })
}

// Whether the word can be a base name: it is not empty and does not begin with `-`.
fn is_base_name(word: &str) -> bool
    ensures { result ≡ is_base_name word.now }
{
    match word.as_bytes() {
        [b'-', ..] => false,
        [] => false,
        _ => true,
    }
}
