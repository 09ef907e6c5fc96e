//! The shared table of passes, its keeper, and the two operations on them.

ghost use Rattle.std.specs.Prelude.{◌≡◌, ◌<◌, ℕ, None, Some, IsSome, IfSome, IsNone};
ghost use Rattle.ll_rights.specs.Map.{empty, get, insert, remove};

use crate::pass::Pass;
use crate::rule::{OneEntry, TakesBack, Tied};
use crate::view::View;
use atomic_table::{Badge, Seat, Table};
use std::alloc::{AllocError, Global};
use std::marker::{Brand, Model, PhantomData};
use std::mem;

/// Names one table. A program picks the table in one call.
pub trait Naming {
    ghost use Rattle.atomic_table.specs.Seated.{TableId};

    ghost table: { TableId };
}

impl Naming for Brand {
    ghost use Rattle.ll_client.specs.PassViews.{no_table};

    ghost table = { no_table };
}

/// An unnamed, empty table. Contracts see it as the table's identity.
#[derive(Drop)]
pub struct Blank<D> {
    table: Table<(), View<D>, (), Tied, Global>,
    seat: Seat<(), View<D>>,
}

impl<D> Model for Blank<D> {
    ghost use Rattle.atomic_table.specs.Seated.{TableId};

    ghost Value = { TableId };

    ghost use Rattle.std.specs.Prelude.{◌≡◌, ◌<◌, []};
    ghost use Rattle.ll_rights.specs.Map.{empty};
    ghost use Rattle.ll_client.specs.Views.{keeper};

    ghost view = { λ blank. blank.table.shared.table_id };

    ghost invariant = { λ blank. (0 < blank.table.shared.table_id.words)
        × (blank.seat.table_id ≡ blank.table.shared.table_id) × (blank.seat.me ≡ (keeper empty, [])) };
}

impl<D> Blank<D> {
    /// Creates an unnamed, empty table. Errors: memory ran out.
    pub fn new(alloc: Global) -> Result<Blank<D>, AllocError> {
        let (table, seat) = Table::of_words(alloc, &[0], &())?;
        Ok(Blank { table, seat })
    }

    /// Names the table. Returns it with the keeper of no entry.
    pub fn named<N: Naming>(self) -> (Tie<N, D>, Keeper<N, D>)
        requires { self ≡ N.table }
        ensures { result.1 ≡ empty }
    {
        let Blank { table, seat } = self;
        let of = PhantomData;
        (Tie { table, of }, Keeper { seat, of })
    }
}

/// The table, shared by all threads.
#[derive(Drop)]
pub struct Tie<N: Naming, D> {
    table: Table<(), View<D>, (), Tied, Global>,
    of: PhantomData<N>,
    ghost has_word: { 0 < table.shared.table_id.words },
    ghost named: { table.shared.table_id ≡ N.table },
}

/// A token without bytes that knows every entry whose pass is out. Contracts see it as the map of these entries.
#[derive(Drop)]
pub struct Keeper<N: Naming, D> {
    seat: Seat<(), View<D>>,
    of: PhantomData<N>,
}

impl<N: Naming, D> Model for Keeper<N, D> {
    ghost use Rattle.std.specs.Ordering.{nat_cmp};
    ghost use Rattle.std.specs.Coded.{coded_ℕ};
    ghost use Rattle.ll_rights.specs.Map.{Map};
    ghost use Rattle.ll_rights.specs.MapCodes.{code};

    ghost Value = { Map nat_cmp D };

    ghost coded = { code coded_ℕ D.code };

    ghost use Rattle.std.specs.Prelude.{◌≡◌, []};
    ghost use Rattle.ll_client.specs.Views.{keeper};

    ghost view = { λ it. it.seat.me.0.entries };

    ghost invariant = { λ it. (it.seat.table_id ≡ N.table) × (it.seat.me ≡ (keeper it.seat.me.0.entries, [])) };
}

impl<N: Naming, D> Tie<N, D> {
    /// Takes a pass back. Its entry is the keeper's, and is removed from the keeper.
    pub fn take_back(&self, keeper: &mut Keeper<N, D>, pass: &mut Pass<N, D>)
        requires { IsSome pass.old }
        ensures shown { IfSome pass.old (λ entry. get keeper.old entry.0 ≡ Some entry.1) }
        ensures gone { IfSome pass.old (λ entry. keeper.new ≡ remove keeper.old entry.0) }
        ensures spent { IsNone pass.new }
    {
        let badge = mem::replace(&mut pass.badge, Badge::blank());
        let shared = &self.table.shared;
        shared.join_seat::<OneEntry>(&mut keeper.seat, badge.into_seat());
        shared.load::<TakesBack>(&mut keeper.seat, 0);
    }

    /// Gives out a pass that shows this value under a number that has no entry. The caller's proof picks the value,
    /// from what `from` lends; nothing reads `from` when the program runs.
    pub fn give_out<A>(&self, keeper: &mut Keeper<N, D>, number: u64, from: &A) -> Pass<N, D>
        ghost value: { D }
        requires { get keeper.old number ≡ None }
        ensures came { keeper.new ≡ insert keeper.old number value }
        ensures shows { result ≡ Some (number, value) }
    {
        let _ = from;
        self.show(keeper, number)
    }

    /// Gives out a pass that shows this entry. `number` is lent so that the proof can pick the entry.
    fn show(&self, keeper: &mut Keeper<N, D>, number: u64) -> Pass<N, D>
        ghost entry: { ℕ × D }
        requires { get keeper.old entry.0 ≡ None }
        ensures came { keeper.new ≡ insert keeper.old entry.0 entry.1 }
        ensures shows { result ≡ Some entry }
    {
        let _ = number;
        let shared = &self.table.shared;
        shared.load::<Brand>(&mut keeper.seat, 0);
        let seat = shared.split_seat::<OneEntry>(&mut keeper.seat);
        Pass {
            badge: seat.into_badge(),
            of: PhantomData,
        }
    }
}
