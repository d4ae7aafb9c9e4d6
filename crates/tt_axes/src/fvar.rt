//! The axes and the named instances of a font. OpenType, "fvar: Font Variations Table".

ghost use Rattle.std.specs.Prelude.{◌≡◌, ◌+◌, ◌*◌, ◌<◌, ◌≤◌, ◌≤ℤ◌, length, IfOk, IfErr, OnOk};
ghost use Rattle.tt_core.specs.Directory.{HasNo};
ghost use Rattle.tt_core.specs.Limits.{axis_limit, font_limit};
ghost use Rattle.tt_core.specs.Outcomes.{Gives};
ghost use Rattle.tt_axes.specs.Axes.{axis_of, axis_tag};
ghost use Rattle.tt_axes.specs.Fvar.{axis_count, fvar_in, fvar_of, instance_count, instance_place, IsBadFvar, IsFvar, IsFvarDefect};
ghost use Rattle.tt_axes.specs.Instances.{named_instance, place_in};

use crate::axis::VariationAxis;
use crate::values::NamedInstance;
use crate::words::{fixed, long, tag, word};
use std::marker::Model;
use tt_core::{AXIS_LIMIT, Dir, Fault, Why};

pub(crate) const FVAR: [u8; 4] = *b"fvar";

/// The table fvar. Clauses see its bytes.
#[derive(Drop)]
pub struct Fvar<'a> {
    table: &'a [u8],
}

impl<'a> Model for Fvar<'a> {
    ghost use Rattle.std.specs.Prelude.{ℕ, List};
    ghost use Rattle.tt_axes.specs.Fvar.{IsFvar};

    ghost Value = { List ℕ };

    ghost view = { λ f. f.table.now };

    ghost invariant = { λ f. IsFvar f.table.now };
}

/// Tests the header of fvar, and that its records fit. Error: VariationShape.
#[tactic(auto, unfolding(crate::specs::Fvar::fvar_in))]
fn test(table: &[u8]) -> Result<(), Fault>
    requires { length table.now ≤ font_limit }
    ensures exact { Gives (λ _. table.now) result (fvar_in table.now) }
    ensures valid { OnOk result (IsFvar table.now) }
    ensures sound { OnOk result (HasNo (IsBadFvar table.now)) }
    ensures fault { IfErr result (IsBadFvar table.now) }
{
    if table.len() < 16 {
        return Err(Fault::new(FVAR, table.len() as u32, Why::VariationShape));
    }
    if long(table, 0) != 0x0001_0000 {
        return Err(Fault::new(FVAR, 0, Why::VariationShape));
    }
    let axes = usize::from(word(table, 8));
    if !(1..=AXIS_LIMIT).contains(&axes) {
        return Err(Fault::new(FVAR, 8, Why::VariationShape));
    }
    if word(table, 10) != 20 {
        return Err(Fault::new(FVAR, 10, Why::VariationShape));
    }
    let size = usize::from(word(table, 14));
    if size != 4 + 4 * axes && size != 6 + 4 * axes {
        return Err(Fault::new(FVAR, 14, Why::VariationShape));
    }
    let axes_end = usize::from(word(table, 4)) + 20 * axes;
    if table.len() < axes_end + size * usize::from(word(table, 12)) {
        return Err(Fault::new(FVAR, 4, Why::VariationShape));
    }
    Ok(())
}

impl<'a> Fvar<'a> {
    /// Reads fvar. Errors: NoTable, TableRange, VariationShape.
    #[tactic(auto, unfolding(crate::specs::Fvar::fvar_of))]
    pub fn open(dir: &Dir<'a>) -> Result<Fvar<'a>, Fault>
        ensures exact { Gives (λ f. f) result (fvar_of dir.now) }
        ensures valid { IfOk result IsFvar }
        ensures sound { OnOk result (HasNo (IsFvarDefect dir.now)) }
        ensures fault { IfErr result (IsFvarDefect dir.now) }
    {
        let table = dir.needed(FVAR)?;
        test(table)?;
        Ok(Fvar { table })
    }

    /// How many axes there are: 1 to 64.
    pub fn axis_count(&self) -> usize
        ensures exact { result ≡ axis_count self.now }
        ensures some { 0 < result }
        ensures few { result ≤ axis_limit }
    {
        usize::from(word(self.table, 8))
    }

    /// The tag of the axis with a number.
    pub(crate) fn axis_tag(&self, i: usize) -> [u8; 4]
        requires { i < axis_count self.now }
        ensures { result ≡ axis_tag self.now i }
    {
        tag(self.table, usize::from(word(self.table, 4)) + 20 * i)
    }

    /// The axis with a number.
    #[tactic(auto, unfolding(crate::specs::Axes::axis_of))]
    pub fn axis(&self, i: usize) -> VariationAxis
        requires { i < axis_count self.now }
        ensures exact { result ≡ axis_of self.now i }
        ensures low { result.least ≤ℤ result.default }
        ensures high { result.default ≤ℤ result.greatest }
    {
        let at = usize::from(word(self.table, 4)) + 20 * i;
        let axis = VariationAxis {
            tag: tag(self.table, at),
            least: fixed(self.table, at + 4),
            default: fixed(self.table, at + 8),
            greatest: fixed(self.table, at + 12),
            flags: word(self.table, at + 16),
            name: word(self.table, at + 18),
        };
        axis.in_order()
    }

    /// How many named instances there are.
    pub fn instance_count(&self) -> usize
        ensures exact { result ≡ instance_count self.now }
        ensures bound { result < 65536 }
    {
        usize::from(word(self.table, 12))
    }

    /// The offset of the record of the named instance with a number.
    fn instance_place(&self, k: usize) -> usize
        requires { k < instance_count self.now }
        ensures exact { result ≡ instance_place self.now k }
        ensures room { result + 4 + 4 * axis_count self.now ≤ length self.now }
        ensures small { length self.now ≤ font_limit }
    {
        let axes = usize::from(word(self.table, 8));
        let size = usize::from(word(self.table, 14));
        usize::from(word(self.table, 4)) + 20 * axes + size * k
    }

    /// The named instance with a number.
    pub fn instance(&self, k: usize) -> NamedInstance
        requires { k < instance_count self.now }
        ensures { result ≡ named_instance self.now k }
    {
        let at = self.instance_place(k);
        NamedInstance {
            name: word(self.table, at),
            flags: word(self.table, at + 2),
        }
    }

    /// The place of the named instance with a number on an axis, in 16.16.
    pub fn place(&self, k: usize, axis: usize) -> i32
        requires instance { k < instance_count self.now }
        requires axis { axis < axis_count self.now }
        ensures { result ≡ place_in self.now k axis }
    {
        fixed(self.table, self.instance_place(k) + 4 + 4 * axis)
    }
}
