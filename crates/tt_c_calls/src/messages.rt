//! The message of an answer, for a person.

ghost use Rattle.std.specs.Prelude.{◌≡◌, ◌≢◌, ◌+◌, ◌<◌, length, string_bytes, IfOk};
ghost use Rattle.tt_core.specs.Faults.{is_ascii};
ghost use Rattle.tt_c_calls.specs.Messages.{IsTextSmall, IsTextWritten, WritesMessage, defect_message, defect_of, job_message, message_of};

use crate::answer::{CAnswer, DONE, ROOM, answer_of, sized};
use crate::fault::CallFault;
use std::alloc::{AllocError, Global};
use tt_core::{Fault, JobFault, Why};
use tt_render_streams::{RunFault, line};

/// Whether the bytes of a tag are ASCII.
fn is_tag(table: &[u8]) -> bool
    ensures { result ≡ is_ascii table.now }
{
    table.iter().all(|byte| *byte < 128)
}

/// The defect that an answer reports, if there is one.
#[tactic(auto, unfolding(crate::specs::Messages::defect_of))]
fn defect_of(told: &CAnswer) -> Option<Fault>
    ensures { result ≡ defect_of told.now }
{
    let why = Why::of(told.number)?;
    if !is_tag(&told.table) {
        return None;
    }
    Some(Fault::new(told.table, told.offset, why))
}

/// The text of an answer, without a zero at its end. Error: memory ran out.
#[tactic(auto, unfolding(crate::specs::Messages::message_of))]
fn text_of(alloc: Global, told: &CAnswer) -> Result<String, AllocError>
    ensures { IfOk result (λ text. string_bytes text ≡ message_of told.now) }
{
    match told.status {
        0 => String::from_str(alloc, "tt_render: done"),
        1 => defect_text(alloc, told),
        2 => job_text(alloc, told),
        3 => line(alloc, &RunFault::FontLarge),
        5 => line(alloc, &RunFault::Memory),
        6 => String::from_str(alloc, "tt_render: not UTF-8"),
        7 => {
            let bytes = told.bytes;
            let count = told.count;
            format!(in alloc; "tt_render: room for {bytes} bytes and {count} entries is wanted")
        }
        _ => String::from_str(alloc, "tt_render: no such answer"),
    }
}

fn defect_text(alloc: Global, told: &CAnswer) -> Result<String, AllocError>
    ensures { IfOk result (λ text. string_bytes text ≡ defect_message told.now) }
{
    match defect_of(told) {
        Some(fault) => line(alloc, &RunFault::Font(fault)),
        None => String::from_str(alloc, "tt_render: no such answer"),
    }
}

fn job_text(alloc: Global, told: &CAnswer) -> Result<String, AllocError>
    ensures { IfOk result (λ text. string_bytes text ≡ job_message told.now) }
{
    match told.number {
        66 => String::from_str(alloc, "tt_render: 66 UnknownFit"),
        67 => String::from_str(alloc, "tt_render: 67 LineEnds"),
        68 => String::from_str(alloc, "tt_render: 68 GlyphNumber"),
        69 => String::from_str(alloc, "tt_render: 69 WidthRange"),
        70 => String::from_str(alloc, "tt_render: 70 BoxRange"),
        71 => String::from_str(alloc, "tt_render: 71 BoxSmall"),
        72 => String::from_str(alloc, "tt_render: 72 UnknownAlign"),
        73 => String::from_str(alloc, "tt_render: 73 AxesMany"),
        number => match JobFault::of(number) {
            Some(fault) => line(alloc, &RunFault::Job(fault)),
            None => String::from_str(alloc, "tt_render: no such answer"),
        },
    }
}

/// Writes a text and a zero at the front of a caller's room. Answers: done; or the room is too small, and nothing is
/// written.
fn write_text(text: &[u8], room: &mut [u8]) -> CAnswer
    requires { length text.now < 9223372036854775808 }
    ensures done { result.status ≡ 0 → IsTextWritten text.now room.old room.new result }
    ensures small { result.status ≢ 0 → IsTextSmall text.now (length room.old) result }
    ensures kept { result.status ≢ 0 → room.new ≡ room.old }
{
    let count = text.len();
    if count >= room.len() {
        return sized(ROOM, count as u64 + 1, 0);
    }
    room[..count].copy_from_slice(text);
    room[count] = 0;
    sized(DONE, count as u64 + 1, 0)
}

/// Writes an answer's message, which is the program's line where there is one, and a zero. Answers: done, with the
/// bytes, the zero included; memory was refused; the room is too small. Unless the answer is done, `room` is unchanged.
pub fn message(alloc: Global, told: &CAnswer, room: &mut [u8]) -> CAnswer
    ensures { WritesMessage told.now room.old room.new result }
{
    match text_of(alloc, told) {
        Ok(text) => write_text(text.as_bytes(), room),
        Err(_) => answer_of(CallFault::Memory),
    }
}
