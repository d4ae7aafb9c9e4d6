//! Decoding an instruction of a program. Apple TrueType Reference Manual, "Instruction Set" (pushing data onto the
//! interpreter stack).

ghost use Rattle.std.specs.Prelude.{◌≡◌, ◌+◌, ◌^◌, ◌<◌, ◌≤◌, [], length, slice_index, true, false, Ok, IfOk, IfErr, IfNone, IfSome};
ghost use Rattle.tt_core.specs.Outcomes.{Gives};
ghost use Rattle.tt_code.specs.Decoding.{Instr, head_length, data_length, instruction_at, takes_data};
ghost use Rattle.tt_code.specs.Views.{instr_view};

use tt_core::Why;

const NPUSHB: u8 = 0x40;

const NPUSHW: u8 = 0x41;

const PUSHB: u8 = 0xB0;

const PUSHB_LAST: u8 = 0xB7;

const PUSHW: u8 = 0xB8;

const PUSHW_LAST: u8 = 0xBF;

/// Why a program stops, and the offset of the byte where it stops.
#[derive(Clone, Copy, Debug, PartialEq, Eq)]
pub struct Halt {
    pub at: usize,
    pub why: Why,
}

/// An instruction: its opcode, the bytes of the data that it pushes, and its size in bytes.
#[derive(Clone, Copy, Debug)]
pub struct Instr<'a> {
    pub op: u8,
    pub args: &'a [u8],
    pub len: usize,
}

/// The count byte of NPUSHB and NPUSHW. It is 0 past the end: the instruction is short then.
fn count(code: &[u8], at: usize) -> usize
    requires { at < length code.now }
    ensures exact { result ≡ slice_index code.now (at + 1) }
    ensures high { result < 256 }
{
    if at + 1 < code.len() {
        usize::from(code[at + 1])
    } else {
        0
    }
}

/// Bytes before the data.
fn head_length(op: u8) -> usize
    ensures exact { result ≡ head_length op }
    ensures low { 1 ≤ result }
    ensures high { result ≤ 2 }
{
    match op {
        NPUSHB | NPUSHW => 2,
        _ => 1,
    }
}

/// Bytes of an instruction's data.
fn data_length(op: u8, count: usize) -> usize
    requires { count < 256 }
    ensures exact { result ≡ data_length op count }
    ensures high { result ≤ 512 }
{
    match op {
        NPUSHB => count,
        NPUSHW => 2 * count,
        PUSHB..=PUSHB_LAST => usize::from(op - PUSHB) + 1,
        PUSHW..=PUSHW_LAST => 2 * (usize::from(op - PUSHW) + 1),
        _ => 0,
    }
}

/// The opcode at an offset, or None if data follows it.
#[inline(always)]
pub fn plain_opcode(code: &[u8], at: usize) -> Option<u8>
    requires { at < length code.now }
    ensures none { IfNone result (takes_data (slice_index code.now at) ≡ true) }
    ensures plain { IfSome result (λ op. takes_data op ≡ false) }
    ensures some { IfSome result (λ op. instruction_at code.now at ≡ Ok (record { op = op; args = []; len = 1 })) }
{
    let op = code[at];
    match op {
        NPUSHB | NPUSHW | PUSHB..=PUSHW_LAST => None,
        _ => Some(op),
    }
}

/// The instruction at an offset. Error: CodeShort at that offset, if the data passes the end.
pub fn decode<'a>(code: &'a [u8], at: usize) -> Result<Instr<'a>, Halt>
    requires { at < length code.now }
    ensures exact { Gives instr_view result (instruction_at code.now at) }
    ensures some { IfOk result (λ i. 1 ≤ i.len) }
    ensures within { IfOk result (λ i. at + i.len ≤ length code.now) }
    ensures fits { IfOk result (λ i. at + i.len < 2 ^ 64) }
    ensures opcode { IfOk result (λ i. i.op ≡ slice_index code.now at) }
    ensures place { IfErr result (λ h. h.at ≡ at) }
{
    let op = code[at];
    let head = head_length(op);
    let data = data_length(op, count(code, at));
    if code.len() - at < head + data {
        return Err(Halt {
            at,
            why: Why::CodeShort,
        });
    }
    let from = at + head;
    Ok(Instr {
        op,
        args: &code[from..from + data],
        len: head + data,
    })
}
