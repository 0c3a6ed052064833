ghost use Rattle.std.specs.Prelude.{◌≡◌, All, vec_len, vec_capacity};
ghost use Rattle.std.specs.Thread.{IsSync};

use crate::journal::Journal;
use chew_cell::{Cell, Pass};
use chew_plain::{Call, Entry};
use std::sync::Wait;
use std::thread::{Threads, join};

/// Makes one call, an install of this number, in one turn.
pub fn call<R: Wait>(rt: &R, cell: &Cell<Journal>, pass: Pass, number: u64) -> Pass
    requires { pass.cell ≡ cell.now }
    ensures cell { result.cell ≡ cell.now }
    ensures who { result.who ≡ pass.who }
{
    let who = pass.who();
    let mut turn = cell.enter(rt, pass);
    turn.value.push(Entry {
        who,
        call: Call::Install(number),
    });
    cell.leave(turn)
}

/// Makes so many calls, each in a turn of its own: installs of 0, 1 and so on.
pub fn call_all<R: Wait>(rt: &R, cell: &Cell<Journal>, pass: Pass, calls: u64) -> Pass
    requires { pass.cell ≡ cell.now }
    ensures cell { result.cell ≡ cell.now }
    ensures who { result.who ≡ pass.who }
{
    let mut pass = pass;
    'calling: for number in 0..calls {
        pass = call(rt, cell, pass, number);
    }
    pass
}

/// Each pass makes its calls in a thread of its own, all of them beside each other.
pub fn crew<R: Threads + Wait + Sync>(
    rt: &R,
    cell: &Cell<Journal>,
    mut passes: Vec<Pass>,
    calls: u64,
) -> Vec<Pass>
    requires { All (λ p. p.cell ≡ cell.now) passes.items }
    ensures cell { All (λ p. p.cell ≡ cell.now) result.items }
    ensures len { (vec_len result ≡ vec_len passes) × (vec_capacity result ≡ vec_capacity passes) }
{
    match passes.pop() {
        None => passes,
        Some(pass) => {
            let (mut done, mine) = join(
                rt,
                move || -> Vec<Pass>
                    requires { IsSync R.row × All (λ p. p.cell ≡ cell.now) passes.items }
                    ensures { All (λ p. p.cell ≡ cell.entry.now) result.items
                        × ((vec_len result ≡ vec_len passes) × (vec_capacity result ≡ vec_capacity passes)) }
                { crew(rt, cell, passes, calls) },
                move || -> Pass
                    requires { pass.cell ≡ cell.now }
                    ensures { result.cell ≡ cell.entry.now }
                { call_all(rt, cell, pass, calls) },
            );
            done.push_reserved(mine);
            done
        }
    }
}
