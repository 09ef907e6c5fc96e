//! Where faults of a policy are.

use crate::fault::PolicyFault;
use std::fmt;
use std::fmt::Display;
use toml::Table;

/// A table of a policy. Tables of an array are counted from 1.
#[derive(Clone, Copy)]
pub enum Place<'a> {
    /// The top table.
    Document,
    Node(usize),
    /// The profile with this name.
    Profile(&'a str),
    /// A layer of the profile with this name.
    Layer(&'a str, usize),
    /// A rule of this layer of the profile with this name.
    Rule(&'a str, usize, usize),
}

impl Display for Place<'_> {
    fn fmt<W: fmt::Write>(&self, f: &mut fmt::Formatter<W>) -> fmt::Result {
        match *self {
            Place::Document => f.write_str("the policy"),
            Place::Node(node) => write!(f, "node {node}"),
            Place::Profile(name) => write!(f, "profile {name}"),
            Place::Layer(name, layer) => write!(f, "profile {name}, layer {layer}"),
            Place::Rule(name, layer, rule) => {
                write!(f, "profile {name}, layer {layer}, rule {rule}")
            }
        }
    }
}

/// A fault of a policy, and the table in which it is.
#[derive(Clone, Copy)]
pub struct PlacedFault<'a> {
    pub place: Place<'a>,
    pub fault: PolicyFault,
    /// The table itself.
    pub(crate) table: &'a Table,
    /// The key at fault. None if the name of the table is.
    pub(crate) key: Option<&'a str>,
}
