//! What a line of the text says.

/// What a line of the text says.
#[derive(Clone, Copy)]
pub enum Line<'a> {
    /// It is empty, or a comment.
    Nothing,
    /// A console begins, of the cluster that these words ask for.
    Begin { words: &'a str, has_colours: bool },
    /// This is typed, and a newline.
    Typed(&'a str),
    /// And this alone.
    Last(&'a str),
    /// And so many letters, and a newline.
    Long(u32),
    /// The session's answer to the line above.
    Reply(&'a str),
    /// This read fails.
    NoRead(u64),
}

// The first word of a line, and what stands behind it.
fn cut_word(line: &str) -> (&str, &str) {
    match line.split_once(' ') {
        Some((first, rest)) => (first, rest),
        None => (line, ""),
    }
}

/// What a line says, if it is one of a console.
pub fn parse<'a>(line: &'a str) -> Option<Line<'a>> {
    let (first, rest) = cut_word(line);
    match first {
        "" if rest.is_empty() => Some(Line::Nothing),
        "#" => Some(Line::Nothing),
        "console" => Some(Line::Begin {
            words: rest,
            has_colours: false,
        }),
        "colours" => Some(Line::Begin {
            words: rest,
            has_colours: true,
        }),
        ">" => Some(Line::Typed(rest)),
        "<" => Some(Line::Reply(rest)),
        "last" => Some(Line::Last(rest)),
        _ => number(first, rest),
    }
}

// A line with a number in it.
fn number<'a>(first: &str, rest: &str) -> Option<Line<'a>> {
    if first == "long" {
        return Some(Line::Long(rest.parse::<u32>().ok()?));
    }
    let (call, at) = cut_word(rest);
    if first == "no" && call == "read" {
        return Some(Line::NoRead(at.parse::<u64>().ok()?));
    }
    None
}
