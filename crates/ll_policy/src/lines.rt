//! Finds the line of a policy's text at which a fault is. No contract covers it: it helps the policy's author.

use crate::place::Place;

/// What was seen of a text on the way to a table.
#[derive(Clone, Copy)]
struct Seen<'a> {
    place: Place<'a>,
    /// How many tables of its array came.
    tables: usize,
    /// How many layers of its profile came, for a rule.
    layers: usize,
    /// The lines that follow are the table's own.
    is_inside: bool,
    /// The header of the table, or of the first in a profile without one.
    header: Option<usize>,
}

// Returns the text between the brackets of a table's header.
fn header_of(line: &str) -> Option<&str> {
    let line = line.trim();
    let (inner, _) = match line.strip_prefix("[[") {
        Some(rest) => rest.split_once("]]")?,
        None => line.strip_prefix("[")?.split_once("]")?,
    };
    Some(inner.trim())
}

// Returns the key that the line gives a value.
fn key_of(line: &str) -> Option<&str> {
    let (key, _) = line.split_once("=")?;
    Some(key.trim().trim_matches('"'))
}

// Returns what follows the name of this profile in a header.
fn after_profile<'a>(header: &'a str, name: &str) -> Option<&'a str> {
    let rest = header.strip_prefix("profile.")?;
    match rest.strip_prefix("\"") {
        Some(quoted) => quoted.strip_prefix(name)?.strip_prefix("\""),
        None => rest.strip_prefix(name),
    }
}

// Returns what follows the names of the place's table in a header: nothing in its own.
fn after_place<'a>(header: &'a str, place: Place<'_>) -> Option<&'a str> {
    match place {
        Place::Document => None,
        Place::Node(_) => header.strip_prefix("node"),
        Place::Profile(name) => after_profile(header, name),
        Place::Layer(name, _) => after_profile(header, name)?.strip_prefix(".layer"),
        Place::Rule(name, _, _) => after_profile(header, name)?.strip_prefix(".layer.rule"),
    }
}

// Reports whether this is the header of a table in the place's profile, which may have no header of its own.
fn is_in_profile(header: &str, place: Place<'_>) -> bool {
    match place {
        Place::Profile(name) => match after_profile(header, name) {
            Some(rest) => rest.starts_with('.'),
            None => false,
        },
        _ => false,
    }
}

// Reports whether this is the header of a layer that the place's rule may be in.
fn is_layer(header: &str, place: Place<'_>) -> bool {
    match place {
        Place::Rule(name, _, _) => after_profile(header, name) == Some(".layer"),
        _ => false,
    }
}

// Reports whether a header is that of the table at this key of the document.
fn is_top(header: &str, key: &str) -> bool {
    match header.strip_prefix(key) {
        Some(rest) => rest.is_empty() || rest.starts_with('.'),
        None => false,
    }
}

impl<'a> Seen<'a> {
    fn new(place: Place<'a>) -> Seen<'a> {
        Seen {
            place,
            tables: 0,
            layers: 0,
            is_inside: matches!(place, Place::Document),
            header: None,
        }
    }

    // Reports whether the latest table of the array is the one that is looked for.
    fn is_latest(&self) -> bool {
        match self.place {
            Place::Document => true,
            Place::Profile(_) => self.tables > 0,
            Place::Node(number) | Place::Layer(_, number) => self.tables == number,
            Place::Rule(_, layer, number) => self.layers == layer && self.tables == number,
        }
    }

    // Takes the header of a table in this line.
    fn pass(&mut self, header: &str, line: usize) {
        self.is_inside = false;
        if is_layer(header, self.place) {
            self.layers = self.layers.saturating_add(1);
            self.tables = 0;
        }
        if after_place(header, self.place) == Some("") {
            self.tables = self.tables.saturating_add(1);
            self.is_inside = self.is_latest();
            if self.is_inside {
                self.header = Some(line);
            }
        } else if self.header.is_none() && is_in_profile(header, self.place) {
            self.header = Some(line);
        }
    }

    // Reports whether this header is that of a table at the key of the table that is looked for.
    fn is_at_key(&self, header: &str, key: &str) -> bool {
        match after_place(header, self.place) {
            Some(rest) => self.is_latest() && rest.strip_prefix(".") == Some(key),
            None => matches!(self.place, Place::Document) && is_top(header, key),
        }
    }
}

/// Returns the line, from 1, with the key of this table; without one, the line of the table's header. None if neither
/// is found, as in a table that is written in one line.
pub(crate) fn line_of(text: &str, place: Place<'_>, key: Option<&str>) -> Option<usize> {
    let mut seen = Seen::new(place);
    let mut number: usize = 0;
    for line in text.lines() {
        number = number.saturating_add(1);
        if let Some(header) = header_of(line) {
            if let Some(key) = key
                && seen.is_at_key(header, key)
            {
                return Some(number);
            }
            seen.pass(header, number);
        } else if seen.is_inside && key.is_some() && key_of(line) == key {
            return Some(number);
        }
    }
    seen.header
}
