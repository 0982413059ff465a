//! What the program tells of a drawn card.
ghost use Rattle.std.specs.Prelude.{◌≤◌, length};
ghost use Rattle.card.specs.Scripts.{calls};

use crate::advice::{pe_to_repair, row_to_leave_out};
use crate::asking::{GREEDY, planned, reply};
use crate::canvas;
use crate::columns::Columns;
use crate::drawing::{Drawing, lines};
use crate::script::Script;
use crate::words::Told;
use host::part::Part;
use promise::call::Call;
use std::alloc::Global;
use std::io;
use std::io::Write;

/// No sheet is longer.
const LONGEST_SHEET: usize = 32_844;

const BYTES_A_LINE: usize = 32;

/// Tells what a drawing is refused for, or what its card carries.
pub fn report<W: Write>(alloc: Global, out: &mut W, text: &[u8]) -> io::Result<()> {
    let lines = lines(alloc, text)?;
    let drawing = match Drawing::of_lines(&lines) {
        Ok(drawing) => drawing,
        Err(refusal) => return writeln!(out, "no {}", u8::from(refusal)),
    };
    for row in 0..lines.len() {
        let told = Told(reply(drawing, &Script::of_lines(&lines[..=row])));
        if told.is_refused() {
            return writeln!(out, "row {row}: {told}");
        }
    }
    let rows = drawing.size.rows();
    let columns = drawing.size.columns();
    writeln!(out, "{rows} rows, {columns} columns")?;
    tell(alloc, out, drawing)
}

/// Whether fewer rows carry more PEs, which one is left out then, and all that follows.
fn tell<W: Write>(alloc: Global, out: &mut W, drawing: Drawing<'_>) -> io::Result<()> {
    let pictures = Script::of_lines(drawing.lines);
    let whole = Told(reply(drawing, &pictures.with(GREEDY)));
    writeln!(out, "all rows: {whole}")?;
    let Some(row) = row_to_leave_out(drawing, &pictures) else {
        return tell_repair(alloc, out, drawing, pictures);
    };
    let tried = pictures.with(Call::Trial { row });
    let told = Told(reply(drawing, &tried));
    writeln!(out, "without row {row}, which is left out: {told}")?;
    tell_repair(
        alloc,
        out,
        drawing,
        tried.with(Call::Choose { row, state: 0 }),
    )
}

/// A repair that would help, made for greedy and taken back, and all that follows.
fn tell_repair<W: Write>(
    alloc: Global,
    out: &mut W,
    drawing: Drawing<'_>,
    chosen: Script<'_>,
) -> io::Result<()>
    requires { length (calls chosen) ≤ 66 }
{
    let Some(pe) = pe_to_repair(drawing, &chosen) else {
        return tell_plan(alloc, out, drawing, chosen);
    };
    let part = Part::Pe(pe.row, pe.column);
    let repaired = chosen.with(Call::Mark { part, state: 0 }).with(GREEDY);
    let told = Told(reply(drawing, &repaired));
    writeln!(out, "PE ({}, {}) repaired: {told}", pe.row, pe.column)?;
    tell_plan(
        alloc,
        out,
        drawing,
        repaired.with(Call::Mark { part, state: 1 }),
    )
}

/// What greedy finds, and the plan that route makes, drawn and as its sheet.
fn tell_plan<W: Write>(
    alloc: Global,
    out: &mut W,
    drawing: Drawing<'_>,
    script: Script<'_>,
) -> io::Result<()>
    requires { length (calls script) ≤ 69 }
{
    let greedy = script.with(GREEDY);
    writeln!(out, "greedy: {}", Told(reply(drawing, &greedy)))?;
    let routed = greedy.with(Call::Route);
    let mut buffer = [0; LONGEST_SHEET];
    let sheet = planned(drawing, &routed, &mut buffer);
    let columns = Columns::of_sheet(sheet);
    let told = Told(reply(drawing, &routed));
    writeln!(out, "route: {told}, {} long links", columns.long_links())?;
    draw(alloc, out, drawing, &columns)?;
    tell_sheet(alloc, out, sheet)?;
    let judged = Told(reply(drawing, &routed.with(Call::Judge { sheet })));
    writeln!(out, "judge: {judged}")
}

/// A line for each row, with the columns that go through it.
fn draw<W: Write>(
    alloc: Global,
    out: &mut W,
    drawing: Drawing<'_>,
    columns: &Columns,
) -> io::Result<()> {
    for (row, text) in (0..64).zip(drawing.lines.iter()) {
        out.write_all(&canvas::line(alloc, text, columns.in_row(row))?)?;
        out.write_all(b"\n")?;
    }
    Ok(())
}

/// A sheet in hexadecimal.
fn tell_sheet<W: Write>(alloc: Global, out: &mut W, sheet: &[u8]) -> io::Result<()> {
    writeln!(out, "sheet of {} bytes:", sheet.len())?;
    for bytes in sheet.chunks(BYTES_A_LINE) {
        writeln!(out, "{}", hex::encode_upper(alloc, bytes)?)?;
    }
    Ok(())
}
