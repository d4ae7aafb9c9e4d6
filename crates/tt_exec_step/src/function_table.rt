//! The functions that programs define, by number. Apple TrueType Reference Manual, "Instruction set" (defining and
//! using functions).

ghost use Rattle.std.specs.Prelude.{◌≡◌, ℕ, ◌+◌, ◌<◌, ◌≤◌, max, pos, [], length, map, vec_len, vec_capacity, All, None, IfOk, OnErr, OnOk};
ghost use Rattle.std.specs.Option.{option_map};
ghost use Rattle.tt_exec_step.specs.FunctionTable.{AreFunctions, AreSlots, IsGrown, body_at, listed};
ghost use Rattle.tt_exec_step.specs.Numbered.{extent, function_at, table_copies, with_function};
ghost use Rattle.tt_exec_step.specs.Views.{body_of};

use crate::program::Body;
use std::alloc::{AllocError, Global};
use std::marker::Model;

/// Functions by number. A clause sees them as a list, the least number first.
#[derive(Drop)]
pub struct Functions<'a> {
    /// For each number up to the greatest: 1 + the place of its body, or 0 without one.
    places: Vec<u32>,
    /// In the order of the first definitions of their numbers.
    bodies: Vec<Body<'a>>,
}

impl<'a> Model for Functions<'a> {
    ghost use Rattle.std.specs.Prelude.{ℕ, List, map};
    ghost use Rattle.tt_exec_step.specs.MachineState.{Body};
    ghost use Rattle.tt_exec_step.specs.FunctionTable.{AreFunctions, listed};
    ghost use Rattle.tt_exec_step.specs.Views.{body_of};

    ghost Value = { List (ℕ × Body) };

    ghost view = { λ f. listed f.places.items (map body_of f.bodies.items) };

    ghost invariant = { λ f. AreFunctions f.places.items (map body_of f.bodies.items) };
}

/// The body of number `n`. `places` has 1 + the place of the body.
fn body_at<'a>(places: &[u32], bodies: &[Body<'a>], n: usize) -> Option<Body<'a>>
    requires { All (λ p. p ≤ length bodies.now) places.now }
    ensures { option_map body_of result ≡ body_at n places.now (map body_of bodies.now) }
{
    if n >= places.len() {
        return None;
    }
    let place = places[n] as usize;
    if place == 0 {
        return None;
    }
    Some(bodies[place - 1])
}

/// Makes room for number `n`, without a body, and for no greater number. If memory is refused, nothing changes.
fn make_room(places: &mut Vec<u32>, n: usize) -> Result<(), AllocError>
    requires number { n < 65536 }
    requires few { length places.old.items ≤ 65536 }
    ensures grown { IsGrown places.old.items places.new.items }
    ensures few { length places.new.items ≤ 65536 }
    ensures room { OnOk result (length places.new.items ≡ max (n + 1) (length places.old.items)) }
    ensures refused { OnErr result (places.new.items ≡ places.old.items) }
{
    if places.len() <= n {
        places.resize(n + 1, 0)?;
    }
    Ok(())
}

/// Gives number `n` a body: in place of its earlier one, or after all others.
fn put<'a>(places: &mut Vec<u32>, bodies: &mut Vec<Body<'a>>, n: usize, body: Body<'a>)
    requires numbers { length places.old.items ≡ max (n + 1) (extent (listed places.old.items (map body_of bodies.old.items))) }
    requires room { vec_len bodies.old < vec_capacity bodies.old }
    requires slots { AreSlots places.old.items (map body_of bodies.old.items) }
    ensures exact { listed places.new.items (map body_of bodies.new.items) ≡ with_function n (body_of body.entry) (listed places.old.items (map body_of bodies.old.items)) }
    ensures functions { AreFunctions places.new.items (map body_of bodies.new.items) }
{
    let place = places[n] as usize;
    if place > 0 {
        bodies[place - 1] = body;
        return;
    }
    bodies.push_reserved(body);
    places[n] = bodies.as_slice().len() as u32;
}

impl<'a> Functions<'a> {
    /// No functions.
    pub fn new(alloc: Global) -> Functions<'a>
        ensures { result ≡ [] }
    {
        Functions {
            places: Vec::new(alloc),
            bodies: Vec::new(alloc),
        }
    }

    /// The count of things that a copy of the functions consists of: their bodies, and places up to the greatest number.
    pub fn copies(&self) -> usize
        ensures { result ≡ table_copies self.now }
    {
        self.bodies.as_slice().len() + self.places.as_slice().len()
    }

    /// 1 + the greatest number of a function; 0 without functions.
    pub fn end(&self) -> usize
        ensures exact { result ≡ extent self.now }
        ensures few { result ≤ 65536 }
        ensures none { (n : ℕ) → result ≤ n → n < 65536 → function_at (pos n) self.now ≡ None }
    {
        self.places.len()
    }

    /// The function with number `n`.
    #[inline]
    pub fn get(&self, n: i32) -> Option<Body<'a>>
        ensures { option_map body_of result ≡ function_at n self.now }
    {
        let Ok(n) = u16::try_from(n) else {
            return None;
        };
        body_at(&self.places, &self.bodies, usize::from(n))
    }

    /// Gives number `n` a function, in place of an earlier one. Error: no memory.
    pub(crate) fn set(&mut self, n: u16, body: Body<'a>) -> Result<(), AllocError>
        ensures { OnOk result (self.new ≡ with_function n (body_of body.entry) self.old) }
    {
        let n = usize::from(n);
        // Memory comes first, so that a refusal leaves no place without a body at the end.
        self.bodies.reserve(1)?;
        make_room(&mut self.places, n)?;
        put(&mut self.places, &mut self.bodies, n, body);
        Ok(())
    }

    /// A copy in memory of its own.
    pub fn copy(&self) -> Result<Functions<'a>, AllocError>
        ensures { IfOk result (λ f. f ≡ self.now) }
    {
        Ok(Functions {
            places: self.places.clone()?,
            bodies: self.bodies.clone()?,
        })
    }

    /// Becomes a copy of others, reusing its memory. If more memory is refused, it becomes empty.
    pub fn copy_from(&mut self, others: &Functions<'a>) -> Result<(), AllocError>
        ensures { OnOk result (self.new ≡ others.now) }
    {
        self.places.clear();
        self.bodies.clear();
        self.bodies.extend_from_slice(&others.bodies)?;
        if let Err(refusal) = self.places.extend_from_slice(&others.places) {
            self.bodies.clear();
            return Err(refusal);
        }
        Ok(())
    }
}
