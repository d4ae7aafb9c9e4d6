//! Enlarges a line's picture so that no ink is cut.

ghost use Rattle.std.specs.Prelude.{◌≡◌, ◌+◌, ◌<◌, ◌≤◌, ◌^◌, map, unsigned_abs, All, IfOk, IfErr};
ghost use Rattle.tt_core.specs.declared.fault.JobFault.TheVariants.{PictureLarge};
ghost use Rattle.tt_core.specs.Outcomes.{Gives};
ghost use Rattle.tt_line.specs.Outcome.{placement_of};
ghost use Rattle.tt_strike.specs.Grown.{before, grown, lacking, past};

use tt_core::{HEIGHT_LIMIT, JobFault, WIDTH_LIMIT};
use tt_line::Line;
use tt_picture::InkBox;

/// How many columns and rows are added on each side of a picture.
#[derive(Clone, Copy)]
pub struct Sides {
    pub left: u64,
    pub top: u64,
    pub right: u64,
    pub bottom: u64,
}

/// How far a place lies before the first one.
fn before(at: i64) -> u64
    ensures { result ≡ before at }
{
    if at < 0 { at.unsigned_abs() } else { 0 }
}

/// How far a place lies past the last of `count` places.
fn past(count: u32, at: i64) -> u64
    requires { 1 ≤ count }
    ensures { result ≡ past count at }
{
    if at < i64::from(count) {
        return 0;
    }
    (at - i64::from(count)).unsigned_abs() + 1
}

/// The fewest columns and rows that a picture of this size lacks on each side to hold a box.
fn lacking(width: u32, height: u32, ink: InkBox) -> Sides
    requires width { 1 ≤ width }
    requires height { 1 ≤ height }
    ensures { result ≡ lacking width height ink }
{
    Sides {
        left: before(ink.left),
        top: before(ink.top),
        right: past(width, ink.right),
        bottom: past(height, ink.bottom),
    }
}

/// `count` columns or rows with others on both sides. Error: PictureLarge, past the limit.
fn longer(count: u32, first: u64, last: u64, limit: u32) -> Result<u32, JobFault>
    ensures exact { IfOk result (λ n. n ≡ count + first + last) }
    ensures within { IfOk result (λ n. n ≤ limit) }
    ensures large { IfErr result (λ e. (e ≡ PictureLarge) × (limit < count + first + last)) }
{
    let all = u64::from(count).saturating_add(first).saturating_add(last);
    if all > u64::from(limit) {
        return Err(JobFault::PictureLarge);
    }
    Ok(all as u32)
}

/// Moves each pen to the right.
fn move_pens(glyphs: &mut [(u16, u32)], right: u32)
    requires { All (λ g. g.1 + right < 2 ^ 32) glyphs.old }
    ensures { glyphs.new ≡ map (λ g. (g.0, g.1 + right)) glyphs.old }
{
    for i in 0..glyphs.len() {
        glyphs[i].1 += right;
    }
}

/// A line with the fewest added columns and rows such that this ink is not cut. Error: PictureLarge.
#[tactic(auto, unfolding(crate::specs::Grown::not_large))]
pub fn grown(line: Line, ink: Option<InkBox>) -> Result<Line, JobFault>
    ensures { Gives placement_of result (grown (placement_of line) ink) }
{
    let Some(ink) = ink else {
        return Ok(line);
    };
    let sides = lacking(line.width, line.height, ink);
    let width = longer(line.width, sides.left, sides.right, WIDTH_LIMIT)?;
    let height = longer(line.height, sides.top, sides.bottom, HEIGHT_LIMIT)?;
    let Line {
        rise,
        mut glyphs,
        ..
    } = line;
    move_pens(&mut glyphs, sides.left as u32);
    Ok(Line {
        width,
        height,
        rise: rise + sides.top as i32,
        glyphs,
    })
}
