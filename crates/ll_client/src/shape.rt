//! The constants of one tree.

use crate::Naming;
use std::marker::Brand;

/// The constants of one tree: its table of passes, how many slots it has, how many entries its history may have, and
/// its rules.
pub trait Shape: Naming {
    ghost use Rattle.std.specs.Prelude.{ℕ};

    ghost slots: { ℕ };

    ghost limit: { ℕ };

    ghost use Rattle.ll_seq.specs.declared.rules.Rules.{Rules};

    ghost rules: { Rules };
}

impl Shape for Brand {
    ghost slots = { 0 };

    ghost limit = { 0 };

    ghost use Rattle.std.specs.Prelude.{false};

    ghost rules = { record { abi = 3; copies = false } };
}
