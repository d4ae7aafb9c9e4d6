//! The instance of a variable font that a job requests.

ghost use Rattle.std.specs.Prelude.{◌≡◌, ◌≤◌, ◌++◌, IfErr, drop, map, option_map, take};
ghost use Rattle.tt_core.specs.Outcomes.{GivesUnless, IfTold};
ghost use Rattle.tt_face.specs.Views.{asked_view, named_view};
ghost use Rattle.tt_c_calls.specs.Refusals.{call_font_fault, call_refusal};
ghost use Rattle.tt_c_calls.specs.Variations.{axes_most, axes_tested, axis_value, instance_asked, instance_named, no_values};
ghost use Rattle.tt_c_calls.specs.declared.fault.CallFault.TheVariants as call;

use crate::fault::CallFault;
use std::marker::Model;
use tt_axes::AxisValue;
use tt_face::{AskedInstance, NamedBy};

/// The most values of axes in a job.
pub const AXES_MOST: usize = 16;

/// A value that a job gives to each axis with a tag.
#[repr(C)]
#[derive(Clone, Copy)]
pub struct CAxis {
    /// The four bytes of the tag as a number, the first byte as the highest.
    pub tag: u32,
    /// In 16.16.
    pub value: i32,
}

/// The instance that a job requests, with its values of axes. A call keeps them here while it runs. Clauses see the
/// request, if there is one.
#[derive(Drop)]
pub struct JobInstance {
    number: u32,
    count: usize,
    values: [AxisValue; AXES_MOST],
}

impl Model for JobInstance {
    ghost use Rattle.std.specs.Prelude.{◌≡◌, ◌≤◌, Option, length, take};
    ghost use Rattle.tt_face.specs.Instance.{Asked};
    ghost use Rattle.tt_c_calls.specs.Variations.{asked_by, axes_most};

    ghost Value = { Option Asked };

    ghost view = { λ i. asked_by i.number i.count (take i.count i.values) };

    ghost invariant = { λ i. (i.count ≤ axes_most) × (length i.values ≡ axes_most) };
}

/// A value with its tag in bytes.
fn axis_value(axis: CAxis) -> AxisValue
    ensures { result ≡ axis_value axis }
{
    AxisValue {
        tag: axis.tag.to_be_bytes(),
        value: axis.value,
    }
}

/// The first `count` values of axes, and blank ones behind them.
fn values_of(count: usize, axis: &[CAxis; AXES_MOST]) -> [AxisValue; AXES_MOST]
    requires { count ≤ axes_most }
    ensures { result ≡ map axis_value (take count axis.now) ++ drop count no_values }
{
    let none = AxisValue {
        tag: [0; 4],
        value: 0,
    };
    let mut values = [none; AXES_MOST];
    for i in 0..count {
        values[i] = axis_value(axis[i]);
    }
    values
}

/// The named instance of a number: none for 0, instance k for k + 1.
fn instance_named(number: u32) -> Option<NamedBy<'static>>
    ensures { option_map named_view result ≡ instance_named number }
{
    if number == 0 {
        return None;
    }
    Some(NamedBy::Number(number - 1))
}

impl JobInstance {
    /// The instance of a number, and of the first `axes` values, at most 16.
    #[tactic(auto, unfolding(crate::specs::Variations::instance_asked))]
    pub fn new(number: u32, axes: u32, axis: &[CAxis; AXES_MOST]) -> JobInstance
        ensures { result ≡ instance_asked number axes axis.now }
    {
        let count = (axes as usize).min(AXES_MOST);
        JobInstance {
            number,
            count,
            values: values_of(count, axis),
        }
    }

    /// The request for a face; none where the job has neither a number nor values.
    pub fn asked(&self) -> Option<AskedInstance<'_>>
        ensures { option_map asked_view result ≡ self.now }
    {
        if self.number == 0 && self.count == 0 {
            return None;
        }
        Some(AskedInstance {
            named: instance_named(self.number),
            axes: &self.values[..self.count],
        })
    }
}

/// Tests the number of values of axes. Error: AxesMany.
#[tactic(auto, unfolding(crate::specs::Variations::axes_tested))]
pub fn test_axes(count: u32) -> Result<(), CallFault>
    ensures exact { GivesUnless call_refusal (λ u. u) result (axes_tested count) }
    ensures refused { IfErr result (λ f. f ≡ call.AxesMany) }
    ensures font { IfTold call_font_fault result (λ _. ⊥) }
{
    if count as usize > AXES_MOST {
        return Err(CallFault::AxesMany);
    }
    Ok(())
}
