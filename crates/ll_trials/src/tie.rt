//! A tie of numbers: passes are given out, taken back, and given out again.

ghost use Rattle.std.specs.Prelude.{◌≡◌, None, Some};
ghost use Rattle.ll_rights.specs.Map.{get, insert};

use ll_client::{Blank, Keeper, Naming, Pass, Tie};
use std::marker::Brand;

/// Gives out a pass that shows the value under the number.
fn shown<N: Naming>(
    tie: &Tie<N, u64>,
    keeper: &mut Keeper<N, u64>,
    number: u64,
    value: u64,
) -> Pass<N, u64>
    requires { get keeper.old number ≡ None }
    ensures came { keeper.new ≡ insert keeper.old number value }
    ensures shows { result ≡ Some (number, value) }
{
    tie.give_out(keeper, number, &value)
}

/// Gives out two passes at once, takes one back, and gives it out with another value.
fn trade<N: Naming>(blank: Blank<u64>)
    requires { blank ≡ N.table }
{
    let (tie, mut keeper) = blank.named::<N>();
    let mut first = shown(&tie, &mut keeper, 1, 10);
    let mut second = shown(&tie, &mut keeper, 2, 20);
    tie.take_back(&mut keeper, &mut first);
    tie.take_back(&mut keeper, &mut second);
    let mut again = shown(&tie, &mut keeper, 1, 30);
    tie.take_back(&mut keeper, &mut again);
}

#[test]
fn tie(rt: HostRuntime) {
    let is_right = match Blank::new(rt.alloc()) {
        Ok(blank) => {
            trade::<Brand>(blank);
            true
        }
        Err(_) => false,
    };
    assert!(rt; is_right);
}
