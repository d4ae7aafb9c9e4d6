//! Executes the instruction of each opcode. Apple TrueType Reference Manual, "Instruction set". `at` is the
//! instruction's place; the frame's place is after it.

ghost use Rattle.std.specs.Prelude.{◌≡◌, ◌<◌, length, false};
ghost use Rattle.tt_exec_points.specs.declared.instruction.OnPoints.TheVariants as on;
ghost use Rattle.tt_exec_step.specs.Opcodes as table;
ghost use Rattle.tt_exec_step.specs.Operation as operation;
ghost use Rattle.tt_exec_step.specs.States.{state_of};
ghost use Rattle.tt_exec_step.specs.Step.{Operates};
ghost use Rattle.tt_exec_step.specs.Outcome.{wants_memory};

use crate::machine_state::MachineState;
use crate::outcome::Outcome;
use tt_core::Why;
use tt_exec_points::{
    DeltaRange, InTurn, Keeping, Measuring, OnLines, OnOne, OnPoints, OnRange, Position,
    ReferencePoint,
};
use tt_exec_stack::{Arithmetic, Logic, Managing};
use tt_exec_state::{GraphicsSetting, Query, StoredValues, Variation, Vectors};
use tt_state::{Axis, Round};

/// Whether an opcode has the bit with this value.
#[inline(always)]
fn has_bit(op: u8, bit: u8) -> bool
    requires { 0 < bit }
    ensures { result ≡ table.has_bit op bit }
{
    op / bit % 2 == 1
}

/// The options in the bits of an MDRP or MIRP opcode.
#[inline(always)]
fn keeping(op: u8) -> Keeping
    ensures { result ≡ table.keeping_of op }
{
    Keeping {
        set_rp0: has_bit(op, 16),
        minimum_distance: has_bit(op, 8),
        round: has_bit(op, 4),
    }
}

impl MachineState<'_> {
    /// SPVTL[], 0x06 and 0x07; SFVTL[], 0x08 and 0x09; ISECT[], 0x0F; ALIGNPTS[], 0x27; SDPVTL[], 0x86 and 0x87. Error:
    /// OffProfile without the whole instruction set.
    fn on_lines(&mut self, op: OnLines, at: usize) -> Outcome
        requires { at < length self.old.frame.code.bytes.now }
        ensures exact { Operates (operation.beyond (operation.on_points (on.OnLines op))) at (state_of self.old) (state_of self.new) result }
        ensures memory { wants_memory result ≡ false }
    {
        if self.graphics.whole {
            return self.on_points(OnPoints::OnLines(op), at);
        }
        Outcome::Refused(Why::OffProfile)
    }

    /// DEBUG[], 0x4F; S45ROUND[], 0x77. Error: OffProfile without the whole instruction set.
    fn set_beyond(&mut self, op: GraphicsSetting, at: usize) -> Outcome
        requires { at < length self.old.frame.code.bytes.now }
        ensures exact { Operates (operation.beyond (operation.set_state op)) at (state_of self.old) (state_of self.new) result }
        ensures memory { wants_memory result ≡ false }
    {
        if !self.graphics.whole {
            return Outcome::Refused(Why::OffProfile);
        }
        self.set_state(op, at)
    }

    /// IDEF[], 0x89. Error: OffProfile without the whole instruction set.
    fn define_instruction(&mut self, at: usize) -> Outcome
        requires { at < length self.old.frame.code.bytes.now }
        ensures { Operates (operation.beyond operation.idef) at (state_of self.old) (state_of self.new) result }
    {
        if !self.graphics.whole {
            return Outcome::Refused(Why::OffProfile);
        }
        self.idef(at)
    }

    /// GETVARIATION[], 0x91; GETDATA[], 0x92. Without an instance the opcode has no name.
    fn read_instance(&mut self, variation: Variation, op: u8, at: usize) -> Outcome
        requires { at < length self.old.frame.code.bytes.now }
        ensures { Operates (operation.read_instance variation op) at (state_of self.old) (state_of self.new) result }
    {
        if self.instance.is_some() {
            return self.answer_variation(variation, at);
        }
        self.call_instruction(op, at)
    }

    /// SPVTL[], SFVTL[], SDPVTL[], ISECT[], ALIGNPTS[], S45ROUND[], DEBUG[], IDEF[], GETVARIATION[], GETDATA[], and
    /// opcodes without a name. These are rare: with them apart, the others are one function. Errors: OffProfile of those
    /// that only the whole instruction set has, without that set; those of the instruction.
    #[cold]
    #[tactic(auto, unfolding(crate::specs::Opcodes::apart))]
    fn operate_apart(&mut self, op: u8, at: usize) -> Outcome
        requires { at < length self.old.frame.code.bytes.now }
        ensures { Operates (table.apart op) at (state_of self.old) (state_of self.new) result }
    {
        match op {
            0x06 => self.on_lines(OnLines::Spvtl { turned: false }, at),
            0x07 => self.on_lines(OnLines::Spvtl { turned: true }, at),
            0x08 => self.on_lines(OnLines::Sfvtl { turned: false }, at),
            0x09 => self.on_lines(OnLines::Sfvtl { turned: true }, at),
            0x0F => self.on_lines(OnLines::Isect, at),
            0x27 => self.on_lines(OnLines::Alignpts, at),
            0x4F => self.set_beyond(GraphicsSetting::Ignored, at),
            0x77 => self.set_beyond(GraphicsSetting::S45round, at),
            0x86 => self.on_lines(OnLines::Sdpvtl { turned: false }, at),
            0x87 => self.on_lines(OnLines::Sdpvtl { turned: true }, at),
            0x89 => self.define_instruction(at),
            0x91 => self.read_instance(Variation::Getvariation, 0x91, at),
            0x92 => self.read_instance(Variation::Getdata, 0x92, at),
            _ => self.call_instruction(op, at),
        }
    }

    /// Opcodes 0x00 to 0x1F.
    #[inline(always)]
    fn operate_00(&mut self, op: u8, at: usize) -> Outcome
        requires { at < length self.old.frame.code.bytes.now }
        ensures { Operates (table.named op table.opcodes_00) at (state_of self.old) (state_of self.new) result }
    {
        match op {
            0x00 => self.access_vectors(Vectors::Svtca(Axis::Y), at),
            0x01 => self.access_vectors(Vectors::Svtca(Axis::X), at),
            0x02 => self.access_vectors(Vectors::Spvtca(Axis::Y), at),
            0x03 => self.access_vectors(Vectors::Spvtca(Axis::X), at),
            0x04 => self.access_vectors(Vectors::Sfvtca(Axis::Y), at),
            0x05 => self.access_vectors(Vectors::Sfvtca(Axis::X), at),
            0x0A => self.access_vectors(Vectors::Spvfs, at),
            0x0B => self.access_vectors(Vectors::Sfvfs, at),
            0x0C => self.access_vectors(Vectors::Gpv, at),
            0x0D => self.access_vectors(Vectors::Gfv, at),
            0x0E => self.access_vectors(Vectors::Sfvtpv, at),
            0x10 => self.set_state(GraphicsSetting::Srp0, at),
            0x11 => self.set_state(GraphicsSetting::Srp1, at),
            0x12 => self.set_state(GraphicsSetting::Srp2, at),
            0x13 => self.set_state(GraphicsSetting::Szp0, at),
            0x14 => self.set_state(GraphicsSetting::Szp1, at),
            0x15 => self.set_state(GraphicsSetting::Szp2, at),
            0x16 => self.set_state(GraphicsSetting::Szps, at),
            0x17 => self.set_state(GraphicsSetting::Sloop, at),
            0x18 => self.set_state(GraphicsSetting::RoundTo(Round::Grid), at),
            0x19 => self.set_state(GraphicsSetting::RoundTo(Round::Half), at),
            0x1A => self.set_state(GraphicsSetting::Smd, at),
            0x1B => self.else_from(at),
            0x1C => self.jmpr(at),
            0x1D => self.set_state(GraphicsSetting::Scvtci, at),
            0x1E => self.set_state(GraphicsSetting::Sswci, at),
            0x1F => self.set_state(GraphicsSetting::Ssw, at),
            _ => self.operate_apart(op, at),
        }
    }

    /// Opcodes 0x20 to 0x3F.
    #[inline(always)]
    fn operate_20(&mut self, op: u8, at: usize) -> Outcome
        requires { at < length self.old.frame.code.bytes.now }
        ensures { Operates (table.named op table.opcodes_20) at (state_of self.old) (state_of self.new) result }
    {
        match op {
            0x20 => self.manage(Managing::Dup, at),
            0x21 => self.manage(Managing::Pop, at),
            0x22 => self.manage(Managing::Clear, at),
            0x23 => self.manage(Managing::Swap, at),
            0x24 => self.manage(Managing::Depth, at),
            0x25 => self.manage(Managing::Cindex, at),
            0x26 => self.manage(Managing::Mindex, at),
            0x29 => self.on_points(OnPoints::OnOne(OnOne::Utp), at),
            0x2A => self.loopcall(at),
            0x2B => self.call(at),
            0x2C => self.fdef(at),
            0x2D => self.endf(at),
            0x2E => self.on_points(OnPoints::OnOne(OnOne::Mdap { round: false }), at),
            0x2F => self.on_points(OnPoints::OnOne(OnOne::Mdap { round: true }), at),
            0x30 => self.on_points(OnPoints::Iup(Axis::Y), at),
            0x31 => self.on_points(OnPoints::Iup(Axis::X), at),
            0x32 => self.on_points(OnPoints::InTurn(InTurn::Shp(ReferencePoint::Rp2)), at),
            0x33 => self.on_points(OnPoints::InTurn(InTurn::Shp(ReferencePoint::Rp1)), at),
            0x34 => self.on_points(OnPoints::OnRange(OnRange::Shc(ReferencePoint::Rp2)), at),
            0x35 => self.on_points(OnPoints::OnRange(OnRange::Shc(ReferencePoint::Rp1)), at),
            0x36 => self.on_points(OnPoints::OnRange(OnRange::Shz(ReferencePoint::Rp2)), at),
            0x37 => self.on_points(OnPoints::OnRange(OnRange::Shz(ReferencePoint::Rp1)), at),
            0x38 => self.on_points(OnPoints::InTurn(InTurn::Shpix), at),
            0x39 => self.on_points(OnPoints::InTurn(InTurn::Ip), at),
            0x3A => self.on_points(OnPoints::OnOne(OnOne::Msirp { set_rp0: false }), at),
            0x3B => self.on_points(OnPoints::OnOne(OnOne::Msirp { set_rp0: true }), at),
            0x3C => self.on_points(OnPoints::InTurn(InTurn::Alignrp), at),
            0x3D => self.set_state(GraphicsSetting::RoundTo(Round::Double), at),
            0x3E => self.on_points(OnPoints::OnOne(OnOne::Miap { round: false }), at),
            0x3F => self.on_points(OnPoints::OnOne(OnOne::Miap { round: true }), at),
            _ => self.operate_apart(op, at),
        }
    }

    /// Opcodes 0x40 to 0x5F.
    #[inline(always)]
    fn operate_40(&mut self, op: u8, at: usize) -> Outcome
        requires { at < length self.old.frame.code.bytes.now }
        ensures { Operates (table.named op table.opcodes_40) at (state_of self.old) (state_of self.new) result }
    {
        match op {
            0x42 => self.access_values(StoredValues::Ws, at),
            0x43 => self.access_values(StoredValues::Rs, at),
            0x44 => self.access_values(StoredValues::Wcvtp, at),
            0x45 => self.access_values(StoredValues::Rcvt, at),
            0x46 => self.on_points(OnPoints::Measuring(Measuring::Gc(Position::Current)), at),
            0x47 => self.on_points(OnPoints::Measuring(Measuring::Gc(Position::Original)), at),
            0x48 => self.on_points(OnPoints::OnOne(OnOne::Scfs), at),
            0x49 => self.on_points(OnPoints::Measuring(Measuring::Md(Position::Current)), at),
            0x4A => self.on_points(OnPoints::Measuring(Measuring::Md(Position::Original)), at),
            0x4B => self.answer(Query::Mppem, at),
            0x4C => self.answer(Query::Mps, at),
            0x4D => self.set_state(GraphicsSetting::Flip(true), at),
            0x4E => self.set_state(GraphicsSetting::Flip(false), at),
            0x50 => self.evaluate(Logic::Lt, at),
            0x51 => self.evaluate(Logic::Lteq, at),
            0x52 => self.evaluate(Logic::Gt, at),
            0x53 => self.evaluate(Logic::Gteq, at),
            0x54 => self.evaluate(Logic::Eq, at),
            0x55 => self.evaluate(Logic::Neq, at),
            0x56 => self.evaluate(Logic::Odd, at),
            0x57 => self.evaluate(Logic::Even, at),
            0x58 => self.if_from(at),
            0x59 => Outcome::Done,
            0x5A => self.evaluate(Logic::And, at),
            0x5B => self.evaluate(Logic::Or, at),
            0x5C => self.evaluate(Logic::Not, at),
            0x5D => self.on_points(OnPoints::Deltap(DeltaRange::First), at),
            0x5E => self.set_state(GraphicsSetting::Sdb, at),
            0x5F => self.set_state(GraphicsSetting::Sds, at),
            _ => self.operate_apart(op, at),
        }
    }

    /// Opcodes 0x60 to 0x7F.
    #[inline(always)]
    fn operate_60(&mut self, op: u8, at: usize) -> Outcome
        requires { at < length self.old.frame.code.bytes.now }
        ensures { Operates (table.named op table.opcodes_60) at (state_of self.old) (state_of self.new) result }
    {
        match op {
            0x60 => self.compute(Arithmetic::Add, at),
            0x61 => self.compute(Arithmetic::Sub, at),
            0x62 => self.compute(Arithmetic::Div, at),
            0x63 => self.compute(Arithmetic::Mul, at),
            0x64 => self.compute(Arithmetic::Abs, at),
            0x65 => self.compute(Arithmetic::Neg, at),
            0x66 => self.compute(Arithmetic::Floor, at),
            0x67 => self.compute(Arithmetic::Ceiling, at),
            0x68 => self.compute(Arithmetic::Round, at),
            0x69 => self.compute(Arithmetic::Round, at),
            0x6A => self.compute(Arithmetic::Round, at),
            0x6B => self.compute(Arithmetic::Round, at),
            0x6C => self.compute(Arithmetic::Nround, at),
            0x6D => self.compute(Arithmetic::Nround, at),
            0x6E => self.compute(Arithmetic::Nround, at),
            0x6F => self.compute(Arithmetic::Nround, at),
            0x70 => self.access_values(StoredValues::Wcvtf, at),
            0x71 => self.on_points(OnPoints::Deltap(DeltaRange::Second), at),
            0x72 => self.on_points(OnPoints::Deltap(DeltaRange::Third), at),
            0x73 => self.on_points(OnPoints::Deltac(DeltaRange::First), at),
            0x74 => self.on_points(OnPoints::Deltac(DeltaRange::Second), at),
            0x75 => self.on_points(OnPoints::Deltac(DeltaRange::Third), at),
            0x76 => self.set_state(GraphicsSetting::Sround, at),
            0x78 => self.jrot(at),
            0x79 => self.jrof(at),
            0x7A => self.set_state(GraphicsSetting::RoundTo(Round::Off), at),
            0x7C => self.set_state(GraphicsSetting::RoundTo(Round::Up), at),
            0x7D => self.set_state(GraphicsSetting::RoundTo(Round::Down), at),
            0x7E => self.set_state(GraphicsSetting::Ignored, at),
            0x7F => self.set_state(GraphicsSetting::Ignored, at),
            _ => self.operate_apart(op, at),
        }
    }

    /// Opcodes 0x80 to 0xBF.
    #[inline(always)]
    fn operate_80(&mut self, op: u8, at: usize) -> Outcome
        requires { at < length self.old.frame.code.bytes.now }
        ensures { Operates (table.named op table.opcodes_80) at (state_of self.old) (state_of self.new) result }
    {
        match op {
            0x80 => self.on_points(OnPoints::InTurn(InTurn::Flippt), at),
            0x81 => self.on_points(OnPoints::OnRange(OnRange::Flip { on: true }), at),
            0x82 => self.on_points(OnPoints::OnRange(OnRange::Flip { on: false }), at),
            0x85 => self.set_state(GraphicsSetting::Scanctrl, at),
            0x88 => self.answer(Query::Getinfo, at),
            0x8A => self.manage(Managing::Roll, at),
            0x8B => self.compute(Arithmetic::Max, at),
            0x8C => self.compute(Arithmetic::Min, at),
            0x8D => self.set_state(GraphicsSetting::Scantype, at),
            0x8E => self.instctrl(at),
            _ => self.operate_apart(op, at),
        }
    }

    /// Executes the instruction of an opcode without data. (In functions by range for the prover: one match over all
    /// opcodes has more tests than it can take.)
    #[inline(always)]
    pub(crate) fn operate(&mut self, op: u8, at: usize) -> Outcome
        requires { at < length self.old.frame.code.bytes.now }
        ensures { Operates (table.operation_of op) at (state_of self.old) (state_of self.new) result }
    {
        match op {
            0x00..=0x1F => self.operate_00(op, at),
            0x20..=0x3F => self.operate_20(op, at),
            0x40..=0x5F => self.operate_40(op, at),
            0x60..=0x7F => self.operate_60(op, at),
            0x80..=0xBF => self.operate_80(op, at),
            0xC0..=0xDF => self.on_points(OnPoints::OnOne(OnOne::Mdrp(keeping(op))), at),
            _ => self.on_points(OnPoints::OnOne(OnOne::Mirp(keeping(op))), at),
        }
    }
}
