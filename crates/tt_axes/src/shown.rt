//! A value of 16.16 as a decimal.

ghost use Rattle.std.specs.Prelude.{◌≡◌, ◌++◌, ◌<◌, ◌≤◌, ◌^◌, string_bytes, IfOk, OnOk};
ghost use Rattle.tt_axes.specs.ShownValues.{fraction_digits, hundred_thousandths, minus, shown_fraction, shown_value};

use crate::axis_words::last_weight;
use std::alloc::{AllocError, Global};

/// A magnitude of 16.16, in 1/100000, to the nearest.
fn hundred_thousandths(magnitude: u32) -> u64
    ensures exact { result ≡ hundred_thousandths magnitude }
    ensures bound { result < 2 ^ 33 }
{
    (2 * (100_000 * u64::from(magnitude)) + 65536) / 131_072
}

/// Appends five digits behind a point, without zeros at the end. Error: memory ran out.
fn push_digits(text: &mut String, fraction: u32) -> Result<(), AllocError>
    requires { fraction < 100000 }
    ensures { OnOk result (string_bytes text.new ≡ string_bytes text.old ++ fraction_digits fraction 5) }
{
    let mut rest = fraction;
    for i in 0..5 {
        if rest == 0 {
            break;
        }
        let weight = last_weight(i + 1);
        text.push(char::from(b'0' + (rest / weight) as u8))?;
        rest %= weight;
    }
    Ok(())
}

/// The point and the digits of a fraction, if the fraction is not 0. Error: memory ran out.
fn fraction_text(alloc: Global, fraction: u32) -> Result<String, AllocError>
    requires { fraction < 100000 }
    ensures { IfOk result (λ text. string_bytes text ≡ shown_fraction fraction) }
{
    let mut text = String::new(alloc);
    if fraction > 0 {
        text.push('.')?;
        push_digits(&mut text, fraction)?;
    }
    Ok(text)
}

fn minus(value: i32) -> &'static str
    ensures { result.now ≡ minus value }
{
    if value < 0 { "-" } else { "" }
}

/// A value of 16.16 as a decimal, to the nearest 1/100000, without zeros at its end. `read_axis_values` reads it as the
/// same value. Error: memory ran out.
#[tactic(auto, unfolding(crate::specs::ShownValues::shown_value))]
pub fn value_text(alloc: Global, value: i32) -> Result<String, AllocError>
    ensures { IfOk result (λ text. string_bytes text ≡ shown_value value) }
{
    let minus = minus(value);
    let parts = hundred_thousandths(value.unsigned_abs());
    let whole = parts / 100_000;
    let fraction = fraction_text(alloc, (parts % 100_000) as u32)?;
    format!(in alloc; "{minus}{whole}{fraction}")
}
