//! The instructions that set or read a program's settings and values, by family. Apple TrueType Reference Manual,
//! "Instruction set".

use tt_state::{Axis, Round};

/// The instructions that set a variable of the graphics state.
#[derive(Clone, Copy)]
pub enum GraphicsSetting {
    Srp0,
    Srp1,
    Srp2,
    Szp0,
    Szp1,
    Szp2,
    Szps,
    Sloop,
    RoundTo(Round),
    Sround,
    S45round,
    Smd,
    Scvtci,
    Sswci,
    Ssw,
    Flip(bool),
    Sdb,
    Sds,
    Scanctrl,
    Scantype,
    Ignored,
}

/// The instructions that write and read the storage area and the control values.
#[derive(Clone, Copy)]
pub enum StoredValues {
    Ws,
    Rs,
    Wcvtp,
    Wcvtf,
    Rcvt,
}

/// The instructions that read the size or the engine.
#[derive(Clone, Copy)]
pub enum Query {
    Mppem,
    Mps,
    Getinfo,
}

/// The instructions that read the instance of a variable font.
#[derive(Clone, Copy)]
pub enum Variation {
    Getvariation,
    Getdata,
}

/// The instructions that set or read the projection and the freedom vector.
#[derive(Clone, Copy)]
pub enum Vectors {
    Svtca(Axis),
    Spvtca(Axis),
    Sfvtca(Axis),
    Spvfs,
    Sfvfs,
    Gpv,
    Gfv,
    Sfvtpv,
}
