//! Says what is wrong at a policy's fault, and what would be right there. No contract covers the words: they help the
//! policy's author.

use crate::fault::PolicyFault;
use crate::lines::line_of;
use crate::meant_rights::rights_meant;
use crate::place::{Place, PlacedFault};
use ll_rights::{Access, Right};
use std::alloc::{AllocError, Global};
use toml::Value;

/// The longest text of rights for which advice is looked for.
const ADVISED: usize = 400;

// What a value must be that has another type.
fn type_wanted(key: &str) -> Option<&'static str> {
    match key {
        "version" => Some("1 or 2 is expected, without quotes"),
        "abi" => Some("1, 2 or 3 is expected, without quotes"),
        "path" => Some("a text is expected, as \"/usr/bin\""),
        "kind" => Some("a text is expected, as \"reg\""),
        "data" => Some("a text is expected, of two digits of 0-9a-f for each byte"),
        "handled" | "rights" => Some("a text is expected, as \"execute,read_file\""),
        _ => None,
    }
}

// What a path must be, by the first reason why this text is none.
fn path_wanted(path: &str) -> &'static str {
    let names = path.strip_prefix("/").unwrap_or("");
    if !path.bytes().all(|byte| matches!(byte, b'!'..=b'~')) {
        "a path is expected, of printed ASCII characters without spaces"
    } else if path.len() > 4095 {
        "a path of at most 4095 bytes is expected"
    } else if !path.starts_with('/') {
        "a path is expected, which begins with /"
    } else if names.split('/').any(|name| matches!(name, "" | "." | "..")) {
        "a path is expected: / and a name again and again, which isn't . or .."
    } else if names.split('/').any(|name| name.len() > 255) {
        "names of at most 255 bytes are expected"
    } else {
        "a path of at most 64 names is expected"
    }
}

// What may stand in a table of this place.
fn keys_wanted(place: Place<'_>) -> &'static str {
    match place {
        Place::Document => "only version, abi (of version 2), node and profile may stand here",
        Place::Node(_) => "only path, kind and data may stand here",
        Place::Profile(_) => "only layer may stand here",
        Place::Layer(..) => "only handled and rule may stand here",
        Place::Rule(..) => "only path and rights may stand here",
    }
}

// What the key's value must be.
fn value_wanted(place: Place<'_>, key: &str) -> &'static str {
    match (place, key) {
        (_, "version") => "1 or 2 is expected",
        (_, "abi") => "1, 2 or 3 is expected",
        (_, "path") => "the text of a path is expected",
        (_, "kind") => "a kind is expected: reg, dir, sym, fifo, sock, char or block",
        (_, "data") => "bytes of a reg are expected: two digits of 0-9a-f each, at most 65536",
        (_, "handled" | "rights") => "rights are expected, each once, rising, parted by commas",
        (_, "node") => "[[node]] is expected, once for each node",
        (_, "profile") => "[profile.NAME] is expected, once for each profile",
        (_, "layer") => "[[profile.NAME.layer]] is expected, once for each layer",
        (_, "rule") => "[[profile.NAME.layer.rule]] is expected, once for each rule",
        (place, _) => keys_wanted(place),
    }
}

// Returns what rights to write in place of a text that spells none.
fn rights_advice(alloc: Global, text: &str) -> Result<String, AllocError> {
    if text.is_empty() {
        return String::from_str(alloc, "write none if there are none");
    }
    let strange = text.split(',').find(|word| Right::parse(word).is_none());
    match (rights_meant(alloc, text)?, strange) {
        (Some(set), Some(word)) => {
            let meant = set.text(alloc)?;
            format!(in alloc; "'{word}' is no right: write {meant}")
        }
        (Some(set), None) => {
            let meant = set.text(alloc)?;
            format!(in alloc; "write {meant}")
        }
        (None, word) => {
            let word = word.unwrap_or("");
            let all = Access::ALL.text(alloc)?;
            format!(in alloc; "'{word}' is no right: there are {all}")
        }
    }
}

impl PlacedFault<'_> {
    // The text at the key, if one is there.
    fn value_text(&self, key: &str) -> Option<&str> {
        match self.table.get(key) {
            Some(value) => value.as_str(),
            None => None,
        }
    }

    fn wanted(&self, key: &str) -> &'static str {
        match self.fault {
            PolicyFault::UnknownKey if key == "abi" => "abi may stand only beside version = 2",
            PolicyFault::UnknownKey => keys_wanted(self.place),
            PolicyFault::WrongType => type_wanted(key).unwrap_or(value_wanted(self.place, key)),
            PolicyFault::BadPath => path_wanted(self.value_text(key).unwrap_or("")),
            _ => value_wanted(self.place, key),
        }
    }

    // Returns the value's text, what it must be, and what to write.
    fn key_text(&self, alloc: Global, key: &str) -> Result<String, AllocError> {
        let wanted = self.wanted(key);
        match self.table.get(key) {
            None => format!(in alloc; "{key} is missing: {wanted}"),
            Some(Value::Array(_) | Value::Table(_)) => format!(in alloc; "{key}: {wanted}"),
            Some(value) => format!(in alloc; "{key} = {value}: {wanted}"),
        }
    }

    /// Returns the rights to write, if rights are at fault. The text may have bytes of any kind, as the policy's keys
    /// and values may. Errors: memory ran out.
    pub fn advice(&self, alloc: Global) -> Result<Option<String>, AllocError> {
        let text = match (self.fault, self.key) {
            (PolicyFault::BadRights, Some(key)) => self.value_text(key),
            _ => None,
        };
        match text {
            Some(text) if text.len() <= ADVISED => Ok(Some(rights_advice(alloc, text)?)),
            _ => Ok(None),
        }
    }

    /// Returns where the fault is, and what would be right there. The text may have bytes of any kind, as the policy's
    /// keys and values may. Errors: memory ran out.
    pub fn text(&self, alloc: Global) -> Result<String, AllocError> {
        let place = self.place;
        let Some(key) = self.key else {
            return format!(in alloc; "{place}: a name is expected of 1 to 32 of a-z, 0-9 and -");
        };
        let told = self.key_text(alloc, key)?;
        format!(in alloc; "{place}: {told}")
    }

    /// Returns the fault's line in the policy's text, from 1, if it is found.
    pub fn line(&self, text: &str) -> Option<usize> {
        line_of(text, self.place, self.key)
    }
}

/// Returns why the text is no TOML, in one line or more without a final line feed. None if it is TOML. Errors: memory
/// ran out.
pub fn toml_trouble(alloc: Global, text: &str) -> Result<Option<String>, AllocError> {
    match toml::table_from_str(alloc, text) {
        Ok(_) => Ok(None),
        Err(error) if error.is_memory() => Err(AllocError),
        Err(error) => {
            let told = format!(in alloc; "{error}")?;
            Ok(Some(String::from_str(alloc, told.trim_end())?))
        }
    }
}
