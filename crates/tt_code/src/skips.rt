//! The end of a skip. Apple TrueType Reference Manual, "Instruction Set" (IF, ELSE, EIF, FDEF, ENDF). A skip goes
//! from instruction to instruction, so data that looks like an opcode is ignored.

ghost use Rattle.std.specs.Prelude.{◌≡◌, ℕ, ◌+◌, ◌^◌, ◌<◌, ◌≤◌, false, length, IfOk, IfErr};
ghost use Rattle.tt_core.specs.Outcomes.{Gives};
ghost use Rattle.tt_code.specs.Decoding.{head_length, data_length, instruction_at};
ghost use Rattle.tt_code.specs.Views.{instr_view};
ghost use Rattle.tt_code.specs.Skips.{ends, depth_after, skip_end, if_end, else_end, definition_end, IsSkip, StaysIn};
ghost use Rattle.tt_code.specs.declared.skips.Sought.{Sought};
ghost use Rattle.tt_code.specs.declared.skips.Sought.TheVariants as sought;

use crate::decoding::{Halt, Instr, decode, plain_opcode};
use tt_core::Why;

const ELSE: u8 = 0x1B;

const ENDF: u8 = 0x2D;

const IF: u8 = 0x58;

const EIF: u8 = 0x59;

/// The end that a skip looks for.
#[derive(Clone, Copy)]
enum Sought {
    /// For an IF with a false condition: its ELSE or EIF.
    ElseOrEif,
    /// For an ELSE that is reached: its EIF.
    Eif,
    /// For an FDEF: the first ENDF.
    Endf,
}

/// Whether an opcode ends a skip while `depth` inner IFs are open.
fn is_end(sought: Sought, depth: usize, op: u8) -> bool
    ensures { result ≡ ends sought depth op }
{
    match sought {
        Sought::ElseOrEif => depth == 0 && (op == ELSE || op == EIF),
        Sought::Eif => depth == 0 && op == EIF,
        Sought::Endf => op == ENDF,
    }
}

/// The number of open inner IFs after an opcode.
fn depth_after(depth: usize, op: u8) -> usize
    requires { depth + 1 < 2 ^ 64 }
    ensures exact { result ≡ depth_after depth op }
    ensures bound { result ≤ depth + 1 }
{
    match op {
        IF => depth + 1,
        EIF => depth.saturating_sub(1),
        _ => depth,
    }
}

/// Bytes that a skip passes at an opcode. An entry is 0 if a count follows the opcode, if the skip may end there, or
/// if another IF opens or closes.
const PASSED: [u8; 256] = [
    1, 1, 1, 1, 1, 1, 1, 1, 1, 1, 1, 1, 1, 1, 1, 1, 1, 1, 1, 1, 1, 1, 1, 1, 1, 1, 1, 0, 1, 1, 1, 1,
    1, 1, 1, 1, 1, 1, 1, 1, 1, 1, 1, 1, 1, 0, 1, 1, 1, 1, 1, 1, 1, 1, 1, 1, 1, 1, 1, 1, 1, 1, 1, 1,
    0, 0, 1, 1, 1, 1, 1, 1, 1, 1, 1, 1, 1, 1, 1, 1, 1, 1, 1, 1, 1, 1, 1, 1, 0, 0, 1, 1, 1, 1, 1, 1,
    1, 1, 1, 1, 1, 1, 1, 1, 1, 1, 1, 1, 1, 1, 1, 1, 1, 1, 1, 1, 1, 1, 1, 1, 1, 1, 1, 1, 1, 1, 1, 1,
    1, 1, 1, 1, 1, 1, 1, 1, 1, 1, 1, 1, 1, 1, 1, 1, 1, 1, 1, 1, 1, 1, 1, 1, 1, 1, 1, 1, 1, 1, 1, 1,
    1, 1, 1, 1, 1, 1, 1, 1, 1, 1, 1, 1, 1, 1, 1, 1, 2, 3, 4, 5, 6, 7, 8, 9, 3, 5, 7, 9, 11, 13, 15,
    17, 1, 1, 1, 1, 1, 1, 1, 1, 1, 1, 1, 1, 1, 1, 1, 1, 1, 1, 1, 1, 1, 1, 1, 1, 1, 1, 1, 1, 1, 1,
    1, 1, 1, 1, 1, 1, 1, 1, 1, 1, 1, 1, 1, 1, 1, 1, 1, 1, 1, 1, 1, 1, 1, 1, 1, 1, 1, 1, 1, 1, 1, 1,
    1, 1,
];

/// The opcode's entry in the table.
fn passed(op: u8) -> usize
    ensures few { result < 256 }
    ensures len { 0 < result → (count : ℕ) → head_length op + data_length op count ≡ result }
    ensures inside { 0 < result → (sought : Sought) (depth : ℕ) → ends sought depth op ≡ false }
    ensures level { 0 < result → (depth : ℕ) → depth_after depth op ≡ depth }
{
    usize::from(PASSED[usize::from(op)])
}

/// The instruction at an offset, equal to that of `decode`. It is faster for opcodes without data; every end of a
/// skip is such an opcode.
#[inline(always)]
fn next<'a>(code: &'a [u8], at: usize) -> Result<Instr<'a>, Halt>
    requires { at < length code.now }
    ensures exact { Gives instr_view result (instruction_at code.now at) }
    ensures some { IfOk result (λ i. 1 ≤ i.len) }
    ensures within { IfOk result (λ i. at + i.len ≤ length code.now) }
    ensures fits { IfOk result (λ i. at + i.len < 2 ^ 64) }
    ensures place { IfErr result (λ h. h.at ≡ at) }
{
    match plain_opcode(code, at) {
        Some(op) => Ok(Instr {
            op,
            args: &[],
            len: 1,
        }),
        None => decode(code, at),
    }
}

/// The offset after the end of a skip that begins at `at`. Errors: CodeShort if an instruction's data passes the end,
/// `lost` at `at` if the skip reaches the program's end.
#[inline(always)]
fn skip(sought: Sought, code: &[u8], at: usize, lost: Why) -> Result<usize, Halt>
    requires { at < length code.now }
    ensures exact { Gives (λ j. j) result (skip_end sought code.now at lost) }
    ensures stays { StaysIn code.now at result }
{
    let mut place = at + 1;
    let mut depth = 0;
    'instructions: while place < code.len() {
        let next_place = place + passed(code[place]);
        if place < next_place && next_place <= code.len() {
            place = next_place;
            continue;
        }
        let i = next(code, place)?;
        if is_end(sought, depth, i.op) {
            return Ok(place + i.len);
        }
        depth = depth_after(depth, i.op);
        place += i.len;
    }
    Err(Halt { at, why: lost })
}

/// For an IF at `at` with a false condition: the offset after its ELSE or EIF. Errors: CodeShort at an instruction
/// whose data passes the end, IfOpen at `at`.
// Inlined, since most IFs of a font with a false condition skip only a few instructions.
#[inline(always)]
pub fn skip_if(code: &[u8], at: usize) -> Result<usize, Halt>
    requires { at < length code.now }
    ensures exact { Gives (λ j. j) result (if_end code.now at) }
    // The end is the least reached place with an ELSE or EIF where all inner IFs are closed.
    ensures least { IsSkip sought.ElseOrEif code.now at Why.IfOpen result }
    ensures stays { StaysIn code.now at result }
{
    skip(Sought::ElseOrEif, code, at, Why::IfOpen)
}

/// For an ELSE at `at` that is reached: the offset after its EIF. Errors: CodeShort at an instruction whose data
/// passes the end, IfOpen at `at`.
// Not inlined, so that it takes no registers from the loop that runs a program.
#[inline(never)]
pub fn skip_else(code: &[u8], at: usize) -> Result<usize, Halt>
    requires { at < length code.now }
    ensures exact { Gives (λ j. j) result (else_end code.now at) }
    // The end is the least reached place with an EIF where all inner IFs are closed.
    ensures least { IsSkip sought.Eif code.now at Why.IfOpen result }
    ensures stays { StaysIn code.now at result }
{
    skip(Sought::Eif, code, at, Why::IfOpen)
}

/// For an FDEF at `at`: the offset after the first ENDF. Errors: CodeShort at an instruction whose data passes the
/// end, NoEndf at `at`.
pub fn skip_def(code: &[u8], at: usize) -> Result<usize, Halt>
    requires { at < length code.now }
    ensures exact { Gives (λ j. j) result (definition_end code.now at) }
    // The end is the least reached place with an ENDF.
    ensures least { IsSkip sought.Endf code.now at Why.NoEndf result }
    ensures stays { StaysIn code.now at result }
{
    skip(Sought::Endf, code, at, Why::NoEndf)
}
