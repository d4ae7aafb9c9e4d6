//! The refusals of a font and of a job, with their numbers and names.

ghost use Rattle.std.specs.Prelude.{◌≡◌, IsTrue};
ghost use Rattle.tt_core.specs.Faults.{fault_at, is_ascii, why_number, why_name, why_of, job_number, job_name, job_fault_of};

use std::marker::Model;
use thiserror::Error;

/// The numbers and names of all kinds of defects. A call hands them to another macro.
macro_rules! whys {
    ($made:ident $of:expr) => {
        $made!(
            $of, Why,
            1 BadVersion,
            2 DirShort,
            3 NoTable,
            4 TableRange,
            5 HeadMagic,
            6 EmRange,
            7 LocaFormat,
            8 MaxpVersion,
            9 MetricsShort,
            10 NoCmap,
            11 CmapShape,
            12 LocaShort,
            13 GlyphRange,
            14 GlyphShort,
            15 ContourOrder,
            16 FlagRun,
            17 ComponentDepth,
            18 ComponentCount,
            19 ComponentGlyph,
            20 MatchPoint,
            21 ScaledOffset,
            22 PointLimit,
            23 CoordRange,
            24 CollectionVersion,
            25 NoFace,
            26 VariationShape,
            27 NoAxis,
            28 NoInstance,
            29 GlyphVariation,
            30 StepLimit,
            31 StackFull,
            32 StackShort,
            33 CallDepth,
            34 BadOpcode,
            35 OffProfile,
            36 JumpRange,
            37 CodeShort,
            38 NoFunction,
            39 DefinitionPlace,
            40 IfOpen,
            41 NoEndf,
            42 PointRange,
            43 ContourRange,
            44 ZoneRange,
            45 CvtRange,
            46 StorageRange,
            47 DivZero,
            48 ValueRange,
            49 Perpendicular,
            50 BadArgument,
        )
    };
}

/// The numbers and names of all faults of jobs. The C library alone has two more: 66 UnknownFit and 67 LineEnds.
macro_rules! job_faults {
    ($made:ident $of:expr) => {
        $made!(
            $of, JobFault,
            60 SizeRange,
            61 TextLong,
            62 EmptyPicture,
            63 PictureLarge,
            64 MarginRange,
            65 WorkLarge,
        )
    };
}

macro_rules! number {
    ($of:expr, $kind:ident, $($number:literal $name:ident,)*) => {
        match $of {
            $($kind::$name => $number,)*
        }
    };
}

macro_rules! name {
    ($of:expr, $kind:ident, $($number:literal $name:ident,)*) => {
        match $of {
            $($kind::$name => stringify!($name),)*
        }
    };
}

macro_rules! with_number {
    ($of:expr, $kind:ident, $($number:literal $name:ident,)*) => {
        match $of {
            $($number => $kind::$name,)*
            _ => return None,
        }
    };
}

/// The kind of a font's defect.
#[derive(Clone, Copy, Debug, PartialEq, Eq)]
pub enum Why {
    /// The file's version is neither 0x00010000 nor 'true'.
    BadVersion,
    /// The directory passes the end of the file.
    DirShort,
    /// A needed table is missing.
    NoTable,
    /// A needed table passes the end of the file.
    TableRange,
    /// head's magic number is wrong.
    HeadMagic,
    /// unitsPerEm is outside 16 to 16384.
    EmRange,
    /// indexToLocFormat is neither 0 nor 1.
    LocaFormat,
    /// maxp's version is not 1.0.
    MaxpVersion,
    /// head, maxp, hhea or hmtx is too short, or one of its counts is 0.
    MetricsShort,
    /// There is no supported character map.
    NoCmap,
    /// cmap's header, records or subtable do not fit, or its end codes fall.
    CmapShape,
    /// loca has too few entries.
    LocaShort,
    /// A loca entry is above the next one, or past glyf.
    GlyphRange,
    /// A glyph's bytes end too early.
    GlyphShort,
    /// A contour ends before the one before it.
    ContourOrder,
    /// A repeated flag runs past the last point.
    FlagRun,
    /// Composites are nested too deep.
    ComponentDepth,
    /// A composite has too many components.
    ComponentCount,
    /// A component is no glyph of the font.
    ComponentGlyph,
    /// A point to be matched does not exist.
    MatchPoint,
    /// A component requests a scaled offset.
    ScaledOffset,
    /// A glyph has too many points.
    PointLimit,
    /// A coordinate is outside its range.
    CoordRange,
    /// The collection's version is neither 1 nor 2.
    CollectionVersion,
    /// The file has no face with this number.
    NoFace,
    /// fvar's or gvar's header does not fit, or counts other axes.
    VariationShape,
    /// The font has no axis with a tag of the job.
    NoAxis,
    /// The font has no named instance with this number or name.
    NoInstance,
    /// A glyph's data in gvar do not fit.
    GlyphVariation,
    /// A program makes too many steps.
    StepLimit,
    /// The stack is full.
    StackFull,
    /// The stack has too few entries.
    StackShort,
    /// Calls are nested too deep.
    CallDepth,
    /// The opcode is no instruction.
    BadOpcode,
    /// The instruction is outside the supported set.
    OffProfile,
    /// A jump leaves the program.
    JumpRange,
    /// The program ends inside an instruction or a call.
    CodeShort,
    /// The function does not exist.
    NoFunction,
    /// A function is defined or ended out of place.
    DefinitionPlace,
    /// An IF or ELSE has no end.
    IfOpen,
    /// An FDEF has no end.
    NoEndf,
    /// The point does not exist.
    PointRange,
    /// The contour does not exist.
    ContourRange,
    /// The zone does not exist.
    ZoneRange,
    /// The control value does not exist.
    CvtRange,
    /// The storage place does not exist.
    StorageRange,
    /// A division by zero.
    DivZero,
    /// A value is outside its range.
    ValueRange,
    /// The projection and freedom vectors are perpendicular.
    Perpendicular,
    /// An argument has no meaning.
    BadArgument,
}

impl Why {
    /// The number in messages.
    #[tactic(auto, unfolding(crate::specs::Faults::why_number))]
    pub fn number(self) -> u8
        ensures { result ≡ why_number self }
    {
        whys!(number self)
    }

    /// The name in messages.
    #[tactic(auto, unfolding(crate::specs::Faults::why_name))]
    pub fn name(self) -> &'static str
        ensures { result.now ≡ why_name self }
    {
        whys!(name self)
    }

    /// The kind with a number; None where no kind has it.
    #[tactic(auto, unfolding(crate::specs::Faults::why_of))]
    pub fn of(number: u32) -> Option<Why>
        ensures { result ≡ why_of number }
    {
        let why = whys!(with_number number);
        Some(why)
    }
}

/// A defect of a font: the table (`file` for the directory), the offset in the table, and the kind of defect. The
/// table's tag is ASCII. Clauses see a record of the three.
#[derive(Clone, Copy, Debug, PartialEq, Eq)]
pub struct Fault {
    /// The table's tag.
    pub table: [u8; 4],
    /// In bytes from the table's start.
    pub offset: u32,
    pub why: Why,
}

impl Model for Fault {
    ghost use Rattle.std.specs.Prelude.{IsTrue};
    ghost use Rattle.tt_core.specs.Faults as faults;

    ghost Value = { faults.Fault };

    ghost view = { λ f. record { table = f.table; offset = f.offset; why = f.why } };

    ghost invariant = { λ f. IsTrue (faults.is_ascii f.table) };

    ghost inverse = { λ d. record { table = d.table; offset = d.offset; why = d.why } };
}

impl Fault {
    pub fn new(table: [u8; 4], offset: u32, why: Why) -> Self
        requires { IsTrue (is_ascii table) }
        ensures { result ≡ fault_at table offset why }
    {
        Fault { table, offset, why }
    }

    /// The table's tag as text.
    pub fn tag(&self) -> &str
        ensures text { result.now ≡ self.now.table }
        ensures ascii { IsTrue (is_ascii self.now.table) }
    {
        match std::str::from_utf8(&self.table) {
            Ok(tag) => tag,
            Err(_) => unreachable!(),
        }
    }
}

/// A defect of a job: of its size, of its text, or of the picture that would result.
#[derive(Clone, Copy, Debug, PartialEq, Eq, Error)]
pub enum JobFault {
    /// The size is outside 1 to 300 pixels per em.
    #[error("the size is outside 1 to 300 pixels per em")]
    SizeRange,
    /// The text has more than 4,096 characters.
    #[error("the text has more than 4,096 characters")]
    TextLong,
    /// The picture would have no pixel.
    #[error("the picture would have no pixel")]
    EmptyPicture,
    /// The picture would be too large.
    #[error("the picture would be too large")]
    PictureLarge,
    /// The margin is above 64 pixels.
    #[error("the margin is above 64 pixels")]
    MarginRange,
    /// The job's glyphs would be too much work.
    #[error("its glyphs would be too much work")]
    WorkLarge,
}

impl JobFault {
    /// The number in messages.
    #[tactic(auto, unfolding(crate::specs::Faults::job_number))]
    pub fn number(self) -> u8
        ensures { result ≡ job_number self }
    {
        job_faults!(number self)
    }

    /// The name in messages.
    #[tactic(auto, unfolding(crate::specs::Faults::job_name))]
    pub fn name(self) -> &'static str
        ensures { result.now ≡ job_name self }
    {
        job_faults!(name self)
    }

    /// The fault with a number; None where no fault has it.
    #[tactic(auto, unfolding(crate::specs::Faults::job_fault_of))]
    pub fn of(number: u32) -> Option<JobFault>
        ensures { result ≡ job_fault_of number }
    {
        let fault = job_faults!(with_number number);
        Some(fault)
    }
}
