//! The answer of a call.

ghost use Rattle.std.specs.Prelude.{◌≡◌};
ghost use Rattle.tt_c_calls.specs.Answers.{call_answer, fault_answer, job_answer, plain_answer, sized_answer};

use crate::fault::CallFault;
use tt_core::{Fault, JobFault};

/// The answer of a call. Unused fields are 0.
#[repr(C)]
#[derive(Clone, Copy)]
pub struct CAnswer {
    /// 0: done. 1: the font is refused. 2: the job is refused. 3: the font is larger than 67,108,864 bytes. 5: memory
    /// was refused. 6: the text is not UTF-8. 7: the caller's room is too small.
    pub status: u32,
    /// The number of the refusal, with status 1 and 2.
    pub number: u32,
    /// The tag of the table that has the defect, with status 1.
    pub table: [u8; 4],
    /// The defect's offset in the table, in bytes.
    pub offset: u32,
    /// The number of bytes written, or, with status 7, of bytes needed.
    pub bytes: u64,
    /// The number of rows, entries or lines written. With status 7, of rows or entries needed; but where a line stopped
    /// `draw_lines`, of lines written.
    pub count: u64,
}

/// The call is done.
pub const DONE: u32 = 0;

/// The caller's room is too small.
pub const ROOM: u32 = 7;

/// An answer with nothing but a status and the number of a refusal.
fn plain(status: u32, number: u32) -> CAnswer
    ensures { result ≡ plain_answer status number }
{
    CAnswer {
        status,
        number,
        table: [0; 4],
        offset: 0,
        bytes: 0,
        count: 0,
    }
}

/// The answer of a call about `bytes` bytes and `count` rows, entries or lines. With DONE they are written; with ROOM the
/// caller's room is too small for them.
pub fn sized(status: u32, bytes: u64, count: u64) -> CAnswer
    ensures { result ≡ sized_answer status bytes count }
{
    CAnswer {
        bytes,
        count,
        ..plain(status, 0)
    }
}

fn of_defect(fault: Fault) -> CAnswer
    ensures { result ≡ fault_answer fault }
{
    let table = fault.table;
    CAnswer {
        table,
        offset: fault.offset,
        ..plain(1, u32::from(fault.why.number()))
    }
}

fn of_job(fault: JobFault) -> CAnswer
    ensures { result ≡ job_answer fault }
{
    plain(2, u32::from(fault.number()))
}

/// The answer of a call that a fault stopped.
pub fn answer_of(fault: CallFault) -> CAnswer
    ensures { result ≡ call_answer fault }
{
    match fault {
        CallFault::Font(fault) => of_defect(fault),
        CallFault::Job(fault) => of_job(fault),
        CallFault::UnknownFit => plain(2, 66),
        CallFault::LineEnds => plain(2, 67),
        CallFault::UnknownAlign => plain(2, 72),
        CallFault::AxesMany => plain(2, 73),
        CallFault::WidthRange => plain(2, 69),
        CallFault::BoxRange => plain(2, 70),
        CallFault::BoxSmall => plain(2, 71),
        CallFault::FontLarge => plain(3, 0),
        CallFault::Memory => plain(5, 0),
        CallFault::NotUtf8 => plain(6, 0),
    }
}
