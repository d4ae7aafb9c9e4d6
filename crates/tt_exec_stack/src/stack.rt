//! The interpreter's stack. Apple TrueType Reference Manual, "Instructing TrueType Glyphs".

ghost use Rattle.std.specs.Prelude.{◌≡◌, ◌-◌, ◌<◌, ◌≤◌, [], ◌∷◌, length, reverse, take, drop, replicate, ◌++◌, pos, IfOk, OnOk};
ghost use Rattle.tt_core.specs.Limits.{stack_limit};
ghost use Rattle.tt_core.specs.declared.fault.Why.TheVariants.{StackShort};
ghost use Rattle.tt_core.specs.Outcomes.{Gives};
ghost use Rattle.tt_exec_stack.specs.Stack.{Does, Pops, kth, padded, pushed, top};

use std::alloc::{AllocError, Global};
use std::marker::Model;
use tt_core::{STACK_LIMIT, Why};

/// Numbers of 32 bits, with memory for the limit of the stack. A clause sees them as a list, the top first.
#[derive(Drop)]
pub struct Stack {
    items: Vec<i32>,
}

impl Model for Stack {
    ghost use Rattle.std.specs.Prelude.{ℤ, List, ◌≤◌, reverse};
    ghost use Rattle.std.specs.Vec.{vec_len, vec_capacity};
    ghost use Rattle.tt_core.specs.Limits.{stack_limit};

    ghost Value = { List ℤ };

    ghost view = { λ s. reverse s.items.items };

    ghost invariant = { λ s. (vec_len s.items ≤ stack_limit) × (stack_limit ≤ vec_capacity s.items) };
}

impl Stack {
    /// An empty stack, with all its memory.
    pub fn new(alloc: Global) -> Result<Stack, AllocError>
        ensures { IfOk result (λ s. s ≡ []) }
    {
        Ok(Stack {
            items: Vec::with_capacity(alloc, STACK_LIMIT)?,
        })
    }

    /// The entries, the top last.
    pub fn items(&self) -> &[i32]
        ensures exact { reverse result.now ≡ self.now }
        ensures limit { length result.now ≤ stack_limit }
    {
        &self.items
    }

    #[inline(always)]
    pub fn clear(&mut self)
        ensures { self.new ≡ [] }
    {
        self.items.clear();
    }

    /// Provides the `n` values that an instruction takes. If there are fewer, they are lost, and `n` zeros replace them
    /// (profile).
    #[inline(always)]
    pub fn pad(&mut self, n: usize)
        requires { n ≤ stack_limit }
        ensures exact { self.new ≡ padded n self.old }
        ensures enough { n ≤ length self.new }
    {
        if self.items.len() < n {
            self.put_zeros(n);
        }
    }

    /// Replaces all entries by `n` zeros.
    #[cold]
    fn put_zeros(&mut self, n: usize)
        requires { n ≤ stack_limit }
        ensures { self.new ≡ replicate n (pos 0) }
    {
        self.clear();
        for _ in 0..n {
            self.put(0);
        }
    }

    /// The count of entries.
    #[inline(always)]
    pub fn len(&self) -> usize
        ensures exact { result ≡ length self.now }
        ensures limit { result ≤ stack_limit }
    {
        self.items.len()
    }

    /// Takes the top entry. Error: StackShort.
    #[inline(always)]
    pub fn pop(&mut self) -> Result<i32, Why>
        ensures exact { Pops self.old result self.new }
        ensures room { OnOk result (length self.new < stack_limit) }
    {
        self.items.pop().ok_or(Why::StackShort)
    }

    /// Pushes a number. Errors: ValueRange outside 32 bits, StackFull.
    #[inline(always)]
    #[tactic(auto, unfolding(crate::specs::Stack::pushed))]
    pub fn push(&mut self, value: i64) -> Result<(), Why>
        ensures { Does (pushed value self.old) self.new result }
    {
        let Ok(value) = i32::try_from(value) else {
            return Err(Why::ValueRange);
        };
        if self.items.len() == STACK_LIMIT {
            return Err(Why::StackFull);
        }
        self.put(value);
        Ok(())
    }

    /// The k-th entry, counted from 1 at the top. Errors: BadArgument for k below 1, StackShort.
    pub(crate) fn kth(&self, k: i32) -> Result<i32, Why>
        ensures exact { Gives (λ e. e) result (kth k self.now) }
    {
        if k < 1 {
            return Err(Why::BadArgument);
        }
        let k = k as usize;
        if self.items.len() < k {
            return Err(Why::StackShort);
        }
        Ok(self.items[self.items.len() - k])
    }

    /// Removes the k-th entry from the top, which has to exist.
    pub(crate) fn remove(&mut self, k: usize) -> i32
        requires low { 0 < k }
        requires high { k ≤ length self.old }
        ensures { self.new ≡ take (k - 1) self.old ++ drop k self.old }
    {
        let at = self.items.len() - k;
        self.items.remove(at)
    }

    /// Pushes a number. There has to be room.
    #[inline(always)]
    pub(crate) fn put(&mut self, value: i32)
        requires { length self.old < stack_limit }
        ensures { self.new ≡ value ∷ self.old }
    {
        self.items.push_reserved(value);
    }

    /// The `n` top entries, the top last. Error: StackShort if there are fewer.
    pub fn top(&self, n: usize) -> Result<&[i32], Why>
        ensures { Gives (λ xs. xs.now) result (top n self.now) }
    {
        let Some(from) = self.items.len().checked_sub(n) else {
            return Err(Why::StackShort);
        };
        Ok(&self.items[from..])
    }

    /// Removes the `n` top entries, which have to exist.
    pub fn discard(&mut self, n: usize)
        requires { n ≤ length self.old }
        ensures { self.new ≡ drop n self.old }
    {
        let left = self.items.len() - n;
        self.items.truncate(left);
    }
}
