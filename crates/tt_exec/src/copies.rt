//! The copies for a run, and the payment for them (profile). Only a payment makes an allowance. Each copy here uses
//! up what it copies, so nothing is copied twice or before it is paid for. No clause sees a copy that is made without
//! these methods.

ghost use Rattle.std.specs.Prelude.{◌≡◌, ◌+◌, ◌≤◌, length, OnOk};
ghost use Rattle.tt_exec.specs.Copies.{PaysFor};
ghost use Rattle.tt_exec.specs.Parts.{parts_of};
ghost use Rattle.tt_exec.specs.Work.{copied, copied_of};
ghost use Rattle.tt_exec_step.specs.Numbered.{table_copies};
ghost use Rattle.tt_exec_step.specs.States.{state_of};

use crate::parts::Parts;
use crate::work::Work;
use std::alloc::AllocError;
use std::marker::Model;
use tt_exec_step::{Functions, MachineState};

/// An allowance of copies. A clause sees how many things may still be copied, and the work that remained after the
/// payment.
#[derive(Drop)]
pub struct Copies {
    left: u128,
    rest: Option<u64>,
}

impl Model for Copies {
    ghost use Rattle.tt_exec.specs.Copies as paid;

    ghost Value = { paid.Copies };

    ghost view = { λ c. record { left = c.left; rest = c.rest } };
}

impl Copies {
    /// Uses up a count.
    fn take(&mut self, count: usize)
        requires { count ≤ self.old.left }
        ensures used { self.new.left + count ≡ self.old.left }
        ensures rest { self.new.rest ≡ self.old.rest }
    {
        self.left -= count as u128;
    }

    /// Copies points or values, reusing memory.
    pub fn copy<T: Copy>(&mut self, room: &mut Vec<T>, given: &[T]) -> Result<(), AllocError>
        requires { length given.now ≤ self.old.left }
        ensures exact { OnOk result (room.new.items ≡ given.now) }
        ensures used { self.new.left + length given.now ≡ self.old.left }
        ensures rest { self.new.rest ≡ self.old.rest }
    {
        self.take(given.len());
        room.clear();
        room.extend_from_slice(given)
    }

    /// Copies a table of functions, reusing memory.
    pub(crate) fn copy_table<'a>(
        &mut self,
        room: &mut Functions<'a>,
        table: &Functions<'a>,
    ) -> Result<(), AllocError>
        requires { table_copies table.now ≤ self.old.left }
        ensures exact { OnOk result (room.new ≡ table.now) }
        ensures used { self.new.left + table_copies table.now ≡ self.old.left }
        ensures rest { self.new.rest ≡ self.old.rest }
    {
        self.take(table.copies());
        room.copy_from(table)
    }
}

/// Pays for this count of copies, once. None if there is not enough work: then no work remains.
fn pay(count: u128, work: &mut Work) -> Option<Copies>
    ensures { PaysFor count work.old.left result work.new.left }
{
    let Some(left) = work.left else {
        return Some(Copies {
            left: count,
            rest: None,
        });
    };
    if count > left as u128 {
        work.left = Some(0);
        return None;
    }
    let rest = Some(left - count as u64);
    work.left = rest;
    Some(Copies { left: count, rest })
}

/// The count of things that are copied for a run of a machine.
fn copied(state: &MachineState<'_>) -> u128
    ensures { result ≡ copied (state_of state.now) }
{
    let values = state.cvt.len() as u128 + state.storage.len() as u128;
    let points = state.points.twilight_count() as u128;
    let definitions = state.functions.copies() as u128 + state.instructions.copies() as u128;
    values + points + definitions
}

/// Pays for the copies made for a run of a machine.
pub(crate) fn pay_copies(state: &MachineState<'_>, work: &mut Work) -> Option<Copies>
    ensures { PaysFor (copied (state_of state.now)) work.old.left result work.new.left }
{
    pay(copied(state), work)
}

impl Parts<'_> {
    /// The count of things that a run beginning with these parts copies.
    fn copied(&self) -> u128
        ensures { result ≡ copied_of (parts_of self.now) }
    {
        let values = self.cvt.len() as u128 + self.storage.len() as u128;
        let points = self.zones.twilight.len() as u128;
        let definitions = self.functions.copies() as u128 + self.instructions.copies() as u128;
        values + points + definitions
    }

    /// Pays for the copies of a run that begins with these parts.
    pub fn pay(&self, work: &mut Work) -> Option<Copies>
        ensures { PaysFor (copied_of (parts_of self.now)) work.old.left result work.new.left }
    {
        pay(self.copied(), work)
    }
}
