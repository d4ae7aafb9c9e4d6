//! The parts that a run leaves, as text.

use std::str;
use tt_exec::{Functions, Parts};
use tt_state::{GraphicsState, Point, Round, Vector, Zone};
use tt_test_words::Line;

/// Puts the parts that a run leaves, by their difference from the parts before it.
pub(crate) fn put_parts(line: &mut Line, before: &Parts, after: &Parts) {
    line.put("; ");
    put_state(line, &after.state);
    put_changed(line, "; cvt", &before.cvt, &after.cvt);
    put_changed(line, "; storage", &before.storage, &after.storage);
    put_moved(
        line,
        "; twilight",
        &before.zones.twilight,
        &after.zones.twilight,
    );
    put_moved(line, "; glyph", &before.zones.glyph, &after.zones.glyph);
    put_bodies(line, "; functions", &after.functions);
    if after.state.whole {
        put_bodies(line, "; instructions", &after.instructions);
    }
    line.put("; flags ");
    put_flag(line, after.skip_glyphs);
    line.put(" ");
    put_flag(line, after.default_state);
}

fn put_flag(line: &mut Line, flag: bool) {
    line.put(if flag { "true" } else { "false" });
}

fn put_state(line: &mut Line, state: &GraphicsState) {
    put_vectors(line, state);
    line.put_fields(&[
        i64::from(state.rp0),
        i64::from(state.rp1),
        i64::from(state.rp2),
    ]);
    for zone in [state.zp0, state.zp1, state.zp2] {
        line.put(match zone {
            Zone::Twilight => " Twilight",
            Zone::Glyph => " Glyph",
        });
    }
    line.put_field(i64::from(state.loops));
    put_round(line, &state.round);
    line.put_fields(&[
        i64::from(state.min_distance),
        i64::from(state.cut_in),
        i64::from(state.single_width),
        i64::from(state.single_cut_in),
    ]);
    line.put(" ");
    put_flag(line, state.auto_flip);
    line.put_fields(&[i64::from(state.delta_base), i64::from(state.delta_shift)]);
}

/// Puts the two vectors that may differ on the axes, or with the whole instruction set all three by their parts.
fn put_vectors(line: &mut Line, state: &GraphicsState) {
    if state.whole {
        put_vector(line, state.proj);
        line.put(" ");
        put_vector(line, state.dual);
        line.put(" ");
        put_vector(line, state.free);
    } else {
        line.put(axis(state.proj));
        line.put(" ");
        line.put(axis(state.free));
    }
}

fn put_vector(line: &mut Line, vector: Vector) {
    line.put_number(i64::from(vector.x()));
    line.put(",");
    line.put_number(i64::from(vector.y()));
}

fn axis(vector: Vector) -> &'static str {
    match vector {
        Vector::X => "X",
        Vector::Y => "Y",
        Vector::Off(_) => "Off",
    }
}

/// Puts the round state by its name.
fn put_round(line: &mut Line, round: &Round) {
    line.put(match round {
        Round::Grid => " Grid",
        Round::Half => " Half",
        Round::Double => " Double",
        Round::Down => " Down",
        Round::Up => " Up",
        Round::Off => " Off",
        Round::Super(_) => " Super",
    });
    if let Round::Super(state) = round {
        line.put("(");
        line.put_number(i64::from(state.period()));
        line.put(",");
        line.put_number(i64::from(state.phase()));
        line.put(",");
        line.put_number(i64::from(state.threshold()));
        line.put(")");
    }
}

/// Puts each value that changed, after its place.
fn put_changed(line: &mut Line, name: &str, before: &[i32], after: &[i32]) {
    line.put(name);
    for i in 0..after.len() {
        if before.get(i) != after.get(i) {
            line.put_field(i as i64);
            line.put_field(i64::from(after[i]));
        }
    }
}

/// Puts each point that changed, after its number.
fn put_moved(line: &mut Line, name: &str, before: &[Point], after: &[Point]) {
    line.put(name);
    for i in 0..after.len() {
        if before.get(i) != after.get(i) {
            line.put_field(i as i64);
            put_point(line, &after[i]);
        }
    }
}

fn put_point(line: &mut Line, point: &Point) {
    let flags = u8::from(point.touched_x)
        | u8::from(point.touched_y) << 1
        | u8::from(point.on) << 2;
    line.put_fields(&[
        i64::from(point.org_x),
        i64::from(point.org_y),
        i64::from(point.x),
        i64::from(point.y),
        i64::from(flags),
    ]);
}

/// Puts the program and the place of each function, or of each instruction.
fn put_bodies(line: &mut Line, name: &str, bodies: &Functions) {
    line.put(name);
    for number in 0..bodies.end() {
        if let Some(body) = bodies.get(number as i32) {
            line.put_field(number as i64);
            line.put(" ");
            if let Ok(table) = str::from_utf8(&body.code.table) {
                line.put(table);
            }
            line.put_field(body.start as i64);
        }
    }
}
