//! What runs of the bytecode machine leave. A line of standard input is a question, or a font program, whose functions
//! the questions after it have:
//!
//!     TABLE BASE CODE EM PPEM CVT STORAGE TWILIGHT GLYPH ENDS
//!     whole TABLE BASE CODE EM PPEM CVT STORAGE TWILIGHT GLYPH ENDS
//!     tolerant TABLE BASE CODE EM PPEM CVT STORAGE TWILIGHT GLYPH ENDS
//!     varied INSTANCE TABLE BASE CODE EM PPEM CVT STORAGE TWILIGHT GLYPH ENDS
//!     font BASE CODE
//!
//! The program of TABLE (fpgm, prep or glyf) begins at the offset BASE there; CODE is its bytes in hexadecimal, or `-`.
//! The five lists are the control values, the storage, the points of both zones, and for each contour one past its last
//! point; each begins with its count. A point is `OX OY X Y FLAGS`, its original and its current place in 26.6 pixels,
//! and the sum of 1 if it is touched along x, 2 if along y, and 4 if it is on the curve. The graphics state is the
//! default one, and the functions are those that the font program defines, run with the same parts. After `whole` both
//! programs have the whole instruction set, and the instructions too are those that the font program defines. After
//! `tolerant` they have it too, and both are run by a tolerant machine. `varied` is `tolerant` at an instance of a
//! variable font: a count of axes, from 1 to 64, and the place on each in 1/65536.
//!
//! The answer of a question is a line too: the fault, or what the run leaves, with a semicolon between the parts: the
//! number of steps, the stack from the bottom, the fields of the graphics state, of each list the places and values
//! that changed, the functions as NUMBER TABLE START, and the two flags of INSTCTRL. The graphics state begins with the
//! projection and the freedom vector, as X or Y. With the whole instruction set it begins with the projection, the dual
//! projection and the freedom vector, each as its parts `x,y` in 2.14, and after the functions stand the instructions as
//! OPCODE TABLE START.

ghost use Rattle.std.specs.Prelude.{IsTrue};
ghost use Rattle.tt_core.specs.Faults.{is_ascii};

mod parts;
mod state;

use self::parts::{Rules, instance_in, parts_in};
use self::state::put_parts;
use crate::faults::put_fault;
use std::alloc::Global;
use std::mem::swap;
use tt_exec::{Code, ExecFault, Functions, Instance, Machine, Parts};
use tt_test_words::{Line, MOST};

/// A program: the offset of its first byte in its table, and its bytes.
#[derive(Drop)]
pub struct Program {
    base: u32,
    bytes: Vec<u8>,
}

impl Program {
    pub fn empty(alloc: Global) -> Program {
        Program {
            base: 0,
            bytes: Vec::new(alloc),
        }
    }
}

/// The program that the next two words are.
fn program_in(alloc: Global, line: &mut Line) -> Program {
    let base = line.count();
    let bytes = line.bytes(alloc);
    if bytes.len() > MOST {
        line.refuse("the program is too long");
    }
    Program { base, bytes }
}

/// A program of a table. One that is too long has no bytes: its line is refused.
fn code_of(table: [u8; 4], program: &Program) -> Code<'_>
    requires { IsTrue (is_ascii table) }
{
    if program.base as usize > MOST || program.bytes.len() > MOST {
        return Code {
            table,
            base: 0,
            bytes: &[],
        };
    }
    Code {
        table,
        base: program.base,
        bytes: program.bytes.as_slice(),
    }
}

/// Answers a question, or keeps a font program.
pub fn answer(alloc: Global, line: &mut Line, font: &mut Program) {
    match line.word() {
        "font" => {
            *font = program_in(alloc, line);
            line.end();
        }
        "whole" => {
            let word = line.word();
            answer_by(alloc, line, font, Rules::Whole, Instance::none(), word);
        }
        "tolerant" => {
            let word = line.word();
            answer_by(alloc, line, font, Rules::Tolerant, Instance::none(), word);
        }
        "varied" => {
            let instance = instance_in(line);
            let word = line.word();
            answer_by(alloc, line, font, Rules::Tolerant, instance, word);
        }
        word => answer_by(alloc, line, font, Rules::Profile, Instance::none(), word),
    }
}

/// Answers a question about a program of a table.
fn answer_by(
    alloc: Global,
    line: &mut Line,
    font: &Program,
    rules: Rules,
    instance: Instance,
    table: &str,
) {
    let table = table_named(line, table);
    let program = program_in(alloc, line);
    let parts = parts_in(alloc, line, rules, instance);
    line.end();
    if !line.is_refused() {
        run(
            alloc,
            line,
            code_of(*b"fpgm", font),
            code_of(table, &program),
            parts,
        );
    }
}

fn table_named(line: &mut Line, word: &str) -> [u8; 4]
    ensures { IsTrue (is_ascii result) }
{
    match word {
        "fpgm" => *b"fpgm",
        "prep" => *b"prep",
        "glyf" => *b"glyf",
        _ => {
            line.refuse("no such question");
            *b"fpgm"
        }
    }
}

type Definitions<'a> = (Functions<'a>, Functions<'a>);

/// Runs a program on these parts, after the font program has defined its functions and instructions.
fn run<'a>(alloc: Global, line: &mut Line, font: Code<'a>, code: Code<'a>, mut parts: Parts<'a>) {
    let Some(mut definitions) = definitions_of(alloc, &parts, font) else {
        line.refuse("the font program stops, or memory is refused");
        return;
    };
    swap(&mut parts.functions, &mut definitions.0);
    swap(&mut parts.instructions, &mut definitions.1);
    match started(alloc, &parts) {
        Some(machine) => put_run(line, machine, code, &parts),
        None => line.refuse("out of memory"),
    }
}

/// The functions that the font program defines, and the instructions; None where the program stops.
fn definitions_of<'a>(alloc: Global, parts: &Parts<'a>, font: Code<'a>) -> Option<Definitions<'a>> {
    let machine = started(alloc, parts)?;
    let parts = left_by(machine, font)?;
    Some((parts.functions, parts.instructions))
}

/// A machine of the same parts.
fn started<'a>(alloc: Global, parts: &Parts<'a>) -> Option<Machine<'a>> {
    match parts.copy() {
        Ok(copy) => Machine::new(alloc, copy).ok(),
        Err(_) => None,
    }
}

/// The parts that a program leaves; None where it stops.
fn left_by<'a>(mut machine: Machine<'a>, code: Code<'a>) -> Option<Parts<'a>> {
    match machine.run(code) {
        Ok(_) => machine.into_parts(),
        Err(_) => None,
    }
}

/// Runs a program, and puts the parts that it leaves, or its fault.
fn put_run<'a>(line: &mut Line, mut machine: Machine<'a>, code: Code<'a>, before: &Parts) {
    match machine.run(code) {
        Ok(steps) => put_steps(line, steps, machine, before),
        Err(fault) => put_refusal(line, fault),
    }
    line.put("\n");
}

/// Puts the steps, the stack and the parts that a run leaves.
fn put_steps(line: &mut Line, steps: u32, machine: Machine, before: &Parts) {
    line.put_number(i64::from(steps));
    line.put(" steps; stack");
    for value in machine.stack() {
        line.put_field(i64::from(*value));
    }
    match machine.into_parts() {
        Some(after) => put_parts(line, before, &after),
        None => line.refuse("the run leaves no parts"),
    }
}

fn put_refusal(line: &mut Line, fault: ExecFault) {
    match fault {
        ExecFault::Font(fault) => put_fault(line, fault),
        _ => line.refuse("out of memory"),
    }
}
