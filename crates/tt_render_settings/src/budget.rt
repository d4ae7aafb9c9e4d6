//! The next line of a text, and what the lines of a call may take.

ghost use Rattle.std.specs.Prelude.{◌≡◌, ◌<◌, ◌≤◌, true, false, length, Some, IfErr, IfOk, OnOk};
ghost use Rattle.tt_core.specs.declared.fault.JobFault.TheVariants as fault;
ghost use Rattle.tt_render_settings.specs.declared.budget.Found.TheVariants as found;
ghost use Rattle.tt_render_settings.specs.Lines.{lines_budget};
ghost use Rattle.tt_render_settings.specs.TextsOutcome.{FailsByStop, FindsLine, IsPassFault, earlier, goes_on, refused_cost};
ghost use Rattle.tt_render_texts.specs.LineReading.{LosesFirst, held, text_left};

use tt_core::{JobFault, Source};
use tt_render_texts::{LINE_LIMIT, LinePlace, LineReader, NextLine, Refusal, TextsFault};

/// What the lines of a call may take with `Fit::Best` before one more is drawn, by how many they are.
pub fn lines_budget(before: u64) -> u128
    ensures { result ≡ lines_budget before }
{
    10_000_000 + 4_000_000 * u128::from(before)
}

/// The next part of a text.
#[derive(Clone, Copy)]
pub enum Found {
    /// A line.
    Line(LinePlace),
    /// A line that is not drawn, for this fault: TextLong, or WorkLarge of the lines before it.
    Refused(JobFault),
    /// The end.
    End,
}

/// Passes over a line that is too long, where the lines behind it are drawn. Errors: Read; Many, where its end is not
/// found.
fn pass_long<R: Source>(
    reader: &mut LineReader,
    lines: &mut R,
    keep_going: bool,
) -> Result<Found, Refusal>
    requires lines { R.has_failed lines.old ≡ false }
    requires held { 0 < length (held reader.old) }
    ensures found { IfOk result (λ f. f ≡ found.Refused fault.TextLong) }
    ensures passed { OnOk result (keep_going ≡ true → LosesFirst (text_left reader.old (R.left lines.old)) (text_left reader.new (R.left lines.new))) }
    ensures err { IfErr result (IsPassFault keep_going) }
    ensures failure { FailsByStop (R.has_failed lines.new) result }
{
    if keep_going {
        match reader.pass_line(lines) {
            Ok(true) => {}
            Ok(false) => return Err(Refusal::Many),
            Err(_) => return Err(Refusal::Read),
        }
    }
    Ok(Found::Refused(JobFault::TextLong))
}

/// The next part of a text, behind drawn lines that took `used` of the budget. With `keep_going` a line that is not drawn
/// is passed over. Errors: Read; Many, where 2^64 - 1 reads found no end of a line that is too long.
pub fn next_line<R: Source>(
    reader: &mut LineReader,
    lines: &mut R,
    drawn: u32,
    used: u128,
    keep_going: bool,
) -> Result<Found, Refusal>
    requires { R.has_failed lines.old ≡ false }
    ensures outcome { FindsLine reader.new keep_going drawn used result (text_left reader.old (R.left lines.old)) (text_left reader.new (R.left lines.new)) }
    ensures failure { FailsByStop (R.has_failed lines.new) result }
{
    let place = match reader.read_line(lines) {
        Ok(NextLine::Line(place)) => place,
        Ok(NextLine::Long) => return pass_long(reader, lines, keep_going),
        Ok(NextLine::End) => return Ok(Found::End),
        Err(_) => return Err(Refusal::Read),
    };
    if reader.line(place).len() > LINE_LIMIT {
        return Ok(Found::Refused(JobFault::TextLong));
    }
    if used > lines_budget(u64::from(drawn)) {
        return Ok(Found::Refused(JobFault::WorkLarge));
    }
    Ok(Found::Line(place))
}

/// Whether the lines behind a line with this refusal are drawn.
pub fn goes_on(keep_going: bool, why: Refusal) -> bool
    ensures { result ≡ goes_on keep_going why }
{
    match why {
        Refusal::Job(_) | Refusal::Space(_) | Refusal::NotUtf8 | Refusal::Missing(_) => {
            keep_going
        }
        Refusal::Font(_)
        | Refusal::FontRead
        | Refusal::FontLarge
        | Refusal::Read
        | Refusal::Create
        | Refusal::Write { .. }
        | Refusal::Many
        | Refusal::Memory => false,
    }
}

/// What a line with this refusal takes of the budget of a call, where the lines behind it are drawn: as much as a line takes
/// at most that is drawn, where it is too much work; else nothing.
pub fn refused_cost(why: Refusal) -> u128
    ensures exact { result ≡ refused_cost why }
    ensures bound { result ≤ 52000000 }
{
    match why {
        Refusal::Job(job) => match job {
            JobFault::WorkLarge => 52_000_000,
            JobFault::SizeRange
            | JobFault::TextLong
            | JobFault::EmptyPicture
            | JobFault::PictureLarge
            | JobFault::MarginRange => 0,
        },
        Refusal::Font(_)
        | Refusal::Space(_)
        | Refusal::NotUtf8
        | Refusal::Missing(_)
        | Refusal::FontRead
        | Refusal::FontLarge
        | Refusal::Read
        | Refusal::Create
        | Refusal::Write { .. }
        | Refusal::Many
        | Refusal::Memory => 0,
    }
}

/// The first of two faults, if there is one before.
pub fn earlier(before: Option<TextsFault>, fault: TextsFault) -> Option<TextsFault>
    ensures { result ≡ earlier before (Some fault) }
{
    match before {
        Some(first) => Some(first),
        None => Some(fault),
    }
}
