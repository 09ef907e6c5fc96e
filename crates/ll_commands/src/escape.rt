//! Rules on paths that the C program would take otherwise than `landtree-sandbox exec`, which reads % and two digits as
//! one byte.

ghost use Rattle.std.specs.Prelude.{◌≡◌};
ghost use Rattle.std.specs.List.{list_any};
ghost use Rattle.ll_commands.specs.Escape.{are_escaped, begins_escape, has_escape, has_escaped, is_digit, is_escaped};

use ll_policy::{Layer, Rule};
use ll_program::Form;
use std::fmt;
use std::fmt::Display;

/// The place of a rule with such a path. Layers and rules are counted from 1.
#[derive(Drop)]
pub struct EscapedRule<'a> {
    /// The profile's name.
    pub name: &'a str,
    pub layer: usize,
    pub rule: usize,
}

impl Display for EscapedRule<'_> {
    fn fmt<W: fmt::Write>(&self, f: &mut fmt::Formatter<W>) -> fmt::Result {
        let (name, layer, rule) = (self.name, self.layer, self.rule);
        write!(
            f,
            "rule {rule} of layer {layer} of profile {name} has % and two digits in its path: the C program would take \
             them as they are, and `landtree-sandbox exec` for a byte"
        )
    }
}

fn is_digit(b: u8) -> bool
    ensures { result ≡ is_digit b }
{
    (b'0' <= b && b <= b'9') || (b'A' <= b && b <= b'F')
}

fn begins_escape(path: &[u8]) -> bool
    ensures { result ≡ begins_escape path.now }
{
    match path {
        [sign, high, low, ..] => *sign == b'%' && is_digit(*high) && is_digit(*low),
        _ => false,
    }
}

fn has_escape(path: &[u8]) -> bool
    ensures { result ≡ has_escape path.now }
{
    match path {
        [] => false,
        [_, rest @ ..] => begins_escape(path) || has_escape(rest),
    }
}

fn is_escaped(rule: &Rule) -> bool
    ensures { result ≡ is_escaped rule.now }
{
    has_escape(rule.path.as_str().as_bytes())
}

fn has_escaped(layer: &Layer) -> bool
    ensures { result ≡ has_escaped layer.now }
{
    layer.rules.iter().any(|rule| is_escaped(rule))
}

fn have_escaped(layers: &[Layer]) -> bool
    ensures { result ≡ list_any has_escaped layers.now }
{
    layers.iter().any(|layer| has_escaped(layer))
}

/// Reports whether a C program of these layers would take a rule's path otherwise than `landtree-sandbox exec`.
pub(crate) fn are_escaped(form: Option<Form>, layers: &[Layer]) -> bool
    ensures { result ≡ are_escaped form layers.now }
{
    match form {
        Some(Form::C) => have_escaped(layers),
        Some(Form::Json) | None => false,
    }
}

/// Returns the first rule of these layers with such a path.
pub(crate) fn first_escaped<'a>(name: &'a str, layers: &[Layer]) -> Option<EscapedRule<'a>> {
    for (layer, it) in layers.iter().enumerate() {
        if let Some(rule) = it.rules.iter().position(|rule| is_escaped(rule)) {
            return Some(EscapedRule {
                name,
                layer: layer.saturating_add(1),
                rule: rule.saturating_add(1),
            });
        }
    }
    None
}
