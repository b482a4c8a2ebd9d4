// The public entries, exported for programs in C and Rust. A slice goes in as a pointer and a length, an array as a pointer.
#![tactic(auto)]

ghost use Rattle.std.specs.Prelude.{◌≡◌, false};
ghost use Rattle.cells.specs.Extents.{off_place};
ghost use Rattle.refusals.specs.Refusals.{number_of};
ghost use Rattle.joiner.specs.Job.{Face, Curve, Point};
ghost use Rattle.joiner.specs.Calls.{enrol, join, cross, point, look};
ghost use Rattle.job.specs.declared.Stage.{Stage};
ghost use Rattle.job.specs.JobState.{told_by, tables_of, AnyTables};
ghost use Rattle.job.specs.Lent.{cross_lent, enrol_lent, look_lent, point_lent, seam_lent};
ghost use Rattle.strain_calls.specs.Tables.{total_tables};
ghost use Rattle.cells.specs.Box.{triple};
ghost use Rattle.labeller.specs.Labelling.{labelling};
ghost use Rattle.writer.specs.Writing.{writing};
ghost use Rattle.reader.specs.Loaded.{reading};
ghost use Rattle.maxima.specs.Maxima.{most_components};
ghost use Rattle.layer_printer.specs.Printing.{outcome, layer_printing};
ghost use Rattle.service.specs.Exports.{exported, export, exported_most, export_most, exported_writing, export_writing, exported_reading, export_reading, head_stored, counts_of};
ghost use Rattle.job_numbers.specs.Numbers.{job_in, KeptAfter};
ghost use Rattle.cell_calls.specs.Cells.{cell_lists};
ghost use Rattle.exports.specs.CellCalls.{ExportedRequest, ExportedFill};
ghost use Rattle.exports.specs.Exports.{ExportedOpening, ExportedStep, ExportedLookup, ExportedStrain, ExportedTotal, RowExported, six_of};
ghost use Rattle.reading_row.specs.Inner.{kind_of};

use blocks::Cuts;
use cells::Triple;
use counts::{Counts, store_answer};
use job::{Job, Stage};
use job_numbers::{job_in, keep_answer};
use judge_cells::CellLists;
use labeller::label;
use layer_printer::print_layer;
use lists::read_or;
use maxima::most_components;
use methods::Joining;
use reader::{Head, read_record};
use reading_cell::LookupTables;
use reading_row::Kind;
use refusals::{Refusal, number_of};
use totals::Totals;
use writer::write_record;

// Three numbers by axis.
fn triple(x: u16, y: u16, z: u16) -> Triple
    ensures { result ≡ triple x y z }
{
    Triple {
        x: usize::from(x),
        y: usize::from(y),
        z: usize::from(z),
    }
}

// The job that the numbers tell, as it is handed from step to step. A number that is no stage is read as `other`.
fn joining(numbers: &[u32; 13], other: Stage) -> Joining
    ensures { result.job ≡ job_in numbers.now other }
{
    Joining {
        job: job_in(numbers, other),
    }
}

// Stores the job that a step hands on; answers its refusal, 0 for none.
fn hand_on(numbers: &mut [u32; 13], answer: Result<Job, Refusal>) -> u32
    ensures number { result ≡ number_of answer }
    ensures kept { KeptAfter numbers.old numbers.new answer }
{
    keep_answer(numbers, &answer);
    number_of(&answer)
}

// Labels a block; answers the refusal, 0 for none, and stores how many faces, curves and points there are.
#[unsafe(no_mangle)]
pub extern "C" fn tugrelis_label(
    codes: &[u32],
    nx: u16,
    ny: u16,
    nz: u16,
    map: &mut [u32],
    work: &mut [u32],
    counts: &mut [u32; 3],
) -> u32
    ensures { exported result map.new work.new counts.new
        ≡ export (labelling (triple nx ny nz) codes.now map.old work.old) counts.old }
{
    let answer = label(codes, triple(nx, ny, nz), map, work);
    store_answer(&answer, counts);
    number_of(&answer)
}

// Tells the most faces, curves and points that a block can have; answers the refusal, 0 for none, and stores the three numbers.
#[unsafe(no_mangle)]
pub extern "C" fn tugrelis_most_components(nx: u16, ny: u16, nz: u16, counts: &mut [u32; 3]) -> u32
    ensures { exported_most result counts.new ≡ export_most (most_components (triple nx ny nz)) counts.old }
{
    let answer = most_components(triple(nx, ny, nz));
    store_answer(&answer, counts);
    number_of(&answer)
}

// Writes a record; answers the refusal, 0 for none, and stores the record's length.
#[unsafe(no_mangle)]
pub extern "C" fn tugrelis_write_record(
    nx: u16,
    ny: u16,
    nz: u16,
    ox: u16,
    oy: u16,
    oz: u16,
    map: &[u32],
    tray: &mut [u8],
    size: &mut usize,
) -> u32
    ensures { exported_writing result tray.new size.new
        ≡ export_writing (writing (triple nx ny nz) (triple ox oy oz) map.now tray.old) size.old }
{
    match write_record(triple(nx, ny, nz), triple(ox, oy, oz), map, tray) {
        Ok(length) => {
            *size = length;
            0
        }
        Err(refusal) => u32::from(refusal),
    }
}

// Stores the extents and the origin of a block in its place.
#[tactic(auto, using(crate::proofs::ExportLaws::placed_small))]
fn store_head(head: Head, fields: &mut [u16; 6])
    requires { off_place head.size head.origin ≡ false }
    ensures { fields.new ≡ head_stored head fields.old }
{
    fields[0] = head.size.x as u16;
    fields[1] = head.size.y as u16;
    fields[2] = head.size.z as u16;
    fields[3] = head.origin.x as u16;
    fields[4] = head.origin.y as u16;
    fields[5] = head.origin.z as u16;
}

// Reads a record; answers the refusal, 0 for none, and stores extents and origin.
#[unsafe(no_mangle)]
pub extern "C" fn tugrelis_read_record(bytes: &[u8], map: &mut [u32], fields: &mut [u16; 6]) -> u32
    ensures { exported_reading result map.new fields.new
        ≡ export_reading (reading bytes.now map.old) fields.old }
{
    match read_record(bytes, map) {
        Ok(head) => {
            store_head(head, fields);
            0
        }
        Err(refusal) => u32::from(refusal),
    }
}

// Prints a layer of a block's map; answers the refusal, 0 for none.
#[unsafe(no_mangle)]
pub extern "C" fn tugrelis_print_layer(
    nx: u16,
    ny: u16,
    nz: u16,
    z: u32,
    map: &[u32],
    tray: &mut [u8],
) -> u32
    ensures { outcome result tray.new ≡ layer_printing (triple nx ny nz) z map.now tray.old }
{
    number_of(&print_layer(triple(nx, ny, nz), z as usize, map, tray))
}

// Opens a job; answers the refusal, 0 for none, and stores the job.
#[unsafe(no_mangle)]
pub extern "C" fn tugrelis_open(
    job: &mut [u32; 13],
    nx: u32,
    ny: u32,
    nz: u32,
    face_entries: u32,
    curve_entries: u32,
    point_entries: u32,
    cx: &[u32],
    cy: &[u32],
    cz: &[u32],
    ticks: &mut [u32],
    blocks: &[u32],
    face_links: &[u32],
    curve_links: &[u32],
    face_keys: &[u64],
    curve_keys: &[u64],
    point_keys: &[u64],
    face_rows: &[u32],
    curve_rows: &[u32],
    point_rows: &[u32],
    face_numbers: &[u32],
    curve_numbers: &[u32],
    point_numbers: &[u32],
    face_firsts: &[u64],
    curve_firsts: &[u64],
    point_firsts: &[u64],
    face_listed: &[u32],
    curve_listed: &[u32],
    point_listed: &[u32],
    came: &mut [u32],
    face_sums: &mut [f64],
    face_counts: &mut [u64],
) -> u32
    ensures { ExportedOpening job.old job.new
        (told_by nx ny nz cx.now cy.now cz.now face_entries curve_entries point_entries)
        (tables_of ticks.old blocks.now face_links.now curve_links.now
        face_keys.now curve_keys.now point_keys.now face_rows.now curve_rows.now point_rows.now
        face_numbers.now curve_numbers.now point_numbers.now face_firsts.now curve_firsts.now point_firsts.now
        face_listed.now curve_listed.now point_listed.now)
        (tables_of ticks.new blocks.now face_links.now curve_links.now
        face_keys.now curve_keys.now point_keys.now face_rows.now curve_rows.now point_rows.now
        face_numbers.now curve_numbers.now point_numbers.now face_firsts.now curve_firsts.now point_firsts.now
        face_listed.now curve_listed.now point_listed.now)
        (total_tables came.old face_sums.old face_counts.old)
        (total_tables came.new face_sums.new face_counts.new) result }
{
    let cuts = Cuts {
        x: cx,
        y: cy,
        z: cz,
    };
    let entries = Counts {
        faces: face_entries,
        curves: curve_entries,
        points: point_entries,
    };
    let answer = Joining::open(
        nx,
        ny,
        nz,
        &cuts,
        entries,
        ticks,
        blocks,
        face_links,
        curve_links,
        face_keys,
        curve_keys,
        point_keys,
        face_rows,
        curve_rows,
        point_rows,
        face_numbers,
        curve_numbers,
        point_numbers,
        face_firsts,
        curve_firsts,
        point_firsts,
        face_listed,
        curve_listed,
        point_listed,
        came,
        face_sums,
        face_counts,
    );
    hand_on(job, answer)
}

// Enrols a block with its map; answers the refusal, 0 for none, and stores the job.
#[unsafe(no_mangle)]
pub extern "C" fn tugrelis_enrol(
    job: &mut [u32; 13],
    cx: &[u32],
    cy: &[u32],
    cz: &[u32],
    ticks: &mut [u32],
    blocks: &mut [u32],
    face_links: &mut [u32],
    curve_links: &mut [u32],
    face_keys: &mut [u64],
    curve_keys: &mut [u64],
    face_rows: &mut [u32],
    curve_rows: &mut [u32],
    block: u32,
    map: &[u32],
) -> u32
    ensures { AnyTables (λ t. ExportedStep job.old job.new Stage.Closed cx.now cy.now cz.now
        (enrol_lent t ticks.old blocks.old face_links.old curve_links.old face_keys.old
        curve_keys.old face_rows.old curve_rows.old)
        (enrol_lent t ticks.new blocks.new face_links.new curve_links.new face_keys.new curve_keys.new
        face_rows.new curve_rows.new)
        (enrol block map.now) result) }
{
    let cuts = Cuts {
        x: cx,
        y: cy,
        z: cz,
    };
    let answer = joining(job, Stage::Closed).enrol(
        &cuts,
        ticks,
        blocks,
        face_links,
        curve_links,
        face_keys,
        curve_keys,
        face_rows,
        curve_rows,
        block,
        map,
    );
    hand_on(job, answer)
}

// Joins two neighbouring blocks at the layer that they share; answers the refusal, 0 for none, and stores the job.
#[unsafe(no_mangle)]
pub extern "C" fn tugrelis_seam(
    job: &mut [u32; 13],
    cx: &[u32],
    cy: &[u32],
    cz: &[u32],
    ticks: &mut [u32],
    blocks: &[u32],
    face_links: &mut [u32],
    curve_links: &mut [u32],
    lower: u32,
    upper: u32,
    lower_map: &[u32],
    upper_map: &[u32],
) -> u32
    ensures { AnyTables (λ t. ExportedStep job.old job.new Stage.Closed cx.now cy.now cz.now
        (seam_lent t ticks.old blocks.now face_links.old curve_links.old)
        (seam_lent t ticks.new blocks.now face_links.new curve_links.new)
        (join lower upper lower_map.now upper_map.now) result) }
{
    let cuts = Cuts {
        x: cx,
        y: cy,
        z: cz,
    };
    let answer = joining(job, Stage::Closed).seam(
        &cuts,
        ticks,
        blocks,
        face_links,
        curve_links,
        lower,
        upper,
        lower_map,
        upper_map,
    );
    hand_on(job, answer)
}

// Joins the curves of a block at its point cells; answers the refusal, 0 for none, and stores the job.
#[unsafe(no_mangle)]
pub extern "C" fn tugrelis_crossing(
    job: &mut [u32; 13],
    cx: &[u32],
    cy: &[u32],
    cz: &[u32],
    ticks: &mut [u32],
    blocks: &[u32],
    face_links: &mut [u32],
    curve_links: &mut [u32],
    face_keys: &[u64],
    curve_keys: &[u64],
    face_rows: &[u32],
    curve_rows: &[u32],
    face_numbers: &mut [u32],
    curve_numbers: &mut [u32],
    face_firsts: &mut [u64],
    curve_firsts: &mut [u64],
    face_listed: &mut [u32],
    curve_listed: &mut [u32],
    block: u32,
    map: &[u32],
) -> u32
    ensures { AnyTables (λ t. ExportedStep job.old job.new Stage.Closed cx.now cy.now cz.now
        (cross_lent t ticks.old blocks.now face_links.old curve_links.old face_keys.now
        curve_keys.now face_rows.now curve_rows.now face_numbers.old curve_numbers.old
        face_firsts.old curve_firsts.old face_listed.old curve_listed.old)
        (cross_lent t ticks.new blocks.now face_links.new curve_links.new face_keys.now
        curve_keys.now face_rows.now curve_rows.now face_numbers.new curve_numbers.new
        face_firsts.new curve_firsts.new face_listed.new curve_listed.new)
        (cross block map.now) result) }
{
    let cuts = Cuts {
        x: cx,
        y: cy,
        z: cz,
    };
    let answer = joining(job, Stage::Closed).crossing(
        &cuts,
        ticks,
        blocks,
        face_links,
        curve_links,
        face_keys,
        curve_keys,
        face_rows,
        curve_rows,
        face_numbers,
        curve_numbers,
        face_firsts,
        curve_firsts,
        face_listed,
        curve_listed,
        block,
        map,
    );
    hand_on(job, answer)
}

// Finds the points of a block; answers the refusal, 0 for none, and stores the job.
#[unsafe(no_mangle)]
pub extern "C" fn tugrelis_point(
    job: &mut [u32; 13],
    cx: &[u32],
    cy: &[u32],
    cz: &[u32],
    ticks: &mut [u32],
    blocks: &[u32],
    curve_numbers: &[u32],
    point_keys: &mut [u64],
    point_rows: &mut [u32],
    point_numbers: &mut [u32],
    point_firsts: &mut [u64],
    point_listed: &mut [u32],
    block: u32,
    map: &[u32],
) -> u32
    ensures { AnyTables (λ t. ExportedStep job.old job.new Stage.Closed cx.now cy.now cz.now
        (point_lent t ticks.old blocks.now point_keys.old point_rows.old curve_numbers.now
        point_numbers.old point_firsts.old point_listed.old)
        (point_lent t ticks.new blocks.now point_keys.new point_rows.new curve_numbers.now
        point_numbers.new point_firsts.new point_listed.new)
        (point block map.now) result) }
{
    let cuts = Cuts {
        x: cx,
        y: cy,
        z: cz,
    };
    let answer = joining(job, Stage::Closed).point(
        &cuts,
        ticks,
        blocks,
        point_keys,
        point_rows,
        curve_numbers,
        point_numbers,
        point_firsts,
        point_listed,
        block,
        map,
    );
    hand_on(job, answer)
}

// The final number of a cell; answers the refusal, 0 for none, and stores the number.
#[unsafe(no_mangle)]
pub extern "C" fn tugrelis_lookup(
    job: &[u32; 13],
    cx: &[u32],
    cy: &[u32],
    cz: &[u32],
    ticks: &[u32],
    blocks: &[u32],
    face_numbers: &[u32],
    curve_numbers: &[u32],
    point_firsts: &[u64],
    block: u32,
    map: &[u32],
    x: u32,
    y: u32,
    z: u32,
    number: &mut u32,
) -> u32
    ensures { AnyTables (λ t. ExportedLookup job.now Stage.Enrol cx.now cy.now cz.now
        (look_lent t ticks.now blocks.now face_numbers.now curve_numbers.now point_firsts.now)
        (look block map.now (triple x y z)) result number.old number.new) }
{
    let cuts = Cuts {
        x: cx,
        y: cy,
        z: cz,
    };
    let tables = LookupTables {
        ticks,
        blocks,
        faces: face_numbers,
        curves: curve_numbers,
        points: point_firsts,
    };
    let c = Triple {
        x: x as usize,
        y: y as usize,
        z: z as usize,
    };
    match joining(job, Stage::Enrol).lookup(&cuts, &tables, block, map, c) {
        Ok(found) => {
            *number = found;
            0
        }
        Err(refusal) => u32::from(refusal),
    }
}

// Lists the blocks that a list of cells of a closed job is read from, each once, ascending; answers the refusal, 0 for none.
#[unsafe(no_mangle)]
pub extern "C" fn tugrelis_request_blocks(
    job: &[u32; 13],
    cx: &[u32],
    cy: &[u32],
    cz: &[u32],
    xs: &[u32],
    ys: &[u32],
    zs: &[u32],
    needed: &mut [u32],
    count: &mut u32,
) -> u32
    ensures { AnyTables (λ t. ExportedRequest job.now Stage.Enrol cx.now cy.now cz.now t
        (cell_lists xs.now ys.now zs.now) needed.old needed.new result count.old count.new) }
{
    let cuts = Cuts {
        x: cx,
        y: cy,
        z: cz,
    };
    let cells = CellLists {
        x: xs,
        y: ys,
        z: zs,
    };
    match joining(job, Stage::Enrol).request_blocks(&cuts, &cells, needed) {
        Ok(found) => {
            *count = found;
            0
        }
        Err(refusal) => u32::from(refusal),
    }
}

// Fills in the answers of a list of cells of a closed job that are read from one block; answers the refusal, 0 for none.
#[unsafe(no_mangle)]
pub extern "C" fn tugrelis_fill_cells(
    job: &[u32; 13],
    cx: &[u32],
    cy: &[u32],
    cz: &[u32],
    ticks: &[u32],
    blocks: &[u32],
    face_numbers: &[u32],
    curve_numbers: &[u32],
    point_firsts: &[u64],
    xs: &[u32],
    ys: &[u32],
    zs: &[u32],
    block: u32,
    map: &[u32],
    answers: &mut [u32],
) -> u32
    ensures { AnyTables (λ t. ExportedFill job.now Stage.Enrol cx.now cy.now cz.now
        (look_lent t ticks.now blocks.now face_numbers.now curve_numbers.now point_firsts.now)
        (cell_lists xs.now ys.now zs.now) block map.now answers.old result answers.new) }
{
    let cuts = Cuts {
        x: cx,
        y: cy,
        z: cz,
    };
    let tables = LookupTables {
        ticks,
        blocks,
        faces: face_numbers,
        curves: curve_numbers,
        points: point_firsts,
    };
    let cells = CellLists {
        x: xs,
        y: ys,
        z: zs,
    };
    number_of(&joining(job, Stage::Enrol).fill_cells(&cuts, &tables, &cells, block, map, answers))
}

// Adds the readings of a block to the totals of its faces; answers the refusal, 0 for none.
#[unsafe(no_mangle)]
pub extern "C" fn tugrelis_strain(
    job: &[u32; 13],
    cx: &[u32],
    cy: &[u32],
    cz: &[u32],
    blocks: &[u32],
    face_numbers: &[u32],
    came: &mut [u32],
    face_sums: &mut [f64],
    face_counts: &mut [u64],
    block: u32,
    map: &[u32],
    values: &[f64],
    kinds: &[u8],
) -> u32
    ensures { ExportedStrain job.now Stage.Enrol cx.now cy.now cz.now
        blocks.now face_numbers.now
        (total_tables came.old face_sums.old face_counts.old)
        block map.now values.now kinds.now result
        (total_tables came.new face_sums.new face_counts.new) }
{
    let cuts = Cuts {
        x: cx,
        y: cy,
        z: cz,
    };
    let answer = joining(job, Stage::Enrol).strain(
        &cuts,
        blocks,
        face_numbers,
        came,
        face_sums,
        face_counts,
        block,
        map,
        values,
        kinds,
    );
    number_of(&answer)
}

// The counts of both sides of a face in six places.
fn six_counts(totals: Totals) -> [u64; 6]
    ensures { result ≡ counts_of totals }
{
    let lower = totals.lower;
    let higher = totals.higher;
    [
        lower.strains,
        lower.clipped,
        lower.missing,
        higher.strains,
        higher.clipped,
        higher.missing,
    ]
}

// The totals of a face; answers the refusal, 0 for none, and stores the sums and the counts of its two sides.
#[unsafe(no_mangle)]
pub extern "C" fn tugrelis_total(
    job: &[u32; 13],
    cx: &[u32],
    cy: &[u32],
    cz: &[u32],
    came: &[u32],
    face_sums: &[f64],
    face_counts: &[u64],
    number: u32,
    sums: &mut [f64; 2],
    counts: &mut [u64; 6],
) -> u32
    ensures { ExportedTotal job.now Stage.Enrol cx.now cy.now cz.now
        (total_tables came.now face_sums.now face_counts.now) number result
        sums.old sums.new counts.old counts.new }
{
    let cuts = Cuts {
        x: cx,
        y: cy,
        z: cz,
    };
    match joining(job, Stage::Enrol).total(&cuts, came, face_sums, face_counts, number) {
        Ok(totals) => {
            *sums = [totals.lower.sum, totals.higher.sum];
            *counts = six_counts(totals);
            0
        }
        Err(refusal) => u32::from(refusal),
    }
}

// A part filled with zeros to six places.
fn six(part: &[u32]) -> [u32; 6]
    ensures { result ≡ six_of part.now }
{
    [
        read_or(part, 0, 0),
        read_or(part, 1, 0),
        read_or(part, 2, 0),
        read_or(part, 3, 0),
        read_or(part, 4, 0),
        read_or(part, 5, 0),
    ]
}

// The row of a component of a kind: answers the refusal, 0 for none, and stores the row.
fn read_row<'a>(
    job: Job,
    kind: Kind,
    number: u32,
    face_listed: &'a [u32],
    curve_listed: &'a [u32],
    point_listed: &'a [u32],
    places: &mut [u32; 6],
) -> u32
    ensures { RowExported job (kind_of kind) number
        face_listed.now curve_listed.now point_listed.now result places.old places.new }
{
    let answer = Joining { job }.row(kind, number, face_listed, curve_listed, point_listed);
    match answer {
        Ok(part) => {
            *places = six(part);
            0
        }
        Err(refusal) => u32::from(refusal),
    }
}

// The row of a face; answers the refusal, 0 for none, and stores the row, filled with zeros.
#[unsafe(no_mangle)]
pub extern "C" fn tugrelis_face_row<'a>(
    job: &[u32; 13],
    number: u32,
    face_listed: &'a [u32],
    curve_listed: &'a [u32],
    point_listed: &'a [u32],
    row: &mut [u32; 6],
) -> u32
    ensures { RowExported (job_in job.now Stage.Enrol) Face number
        face_listed.now curve_listed.now point_listed.now result row.old row.new }
{
    read_row(
        job_in(job, Stage::Enrol),
        Kind::Face,
        number,
        face_listed,
        curve_listed,
        point_listed,
        row,
    )
}

// The row of a curve; answers the refusal, 0 for none, and stores the row, filled with zeros.
#[unsafe(no_mangle)]
pub extern "C" fn tugrelis_curve_row<'a>(
    job: &[u32; 13],
    number: u32,
    face_listed: &'a [u32],
    curve_listed: &'a [u32],
    point_listed: &'a [u32],
    row: &mut [u32; 6],
) -> u32
    ensures { RowExported (job_in job.now Stage.Enrol) Curve number
        face_listed.now curve_listed.now point_listed.now result row.old row.new }
{
    read_row(
        job_in(job, Stage::Enrol),
        Kind::Curve,
        number,
        face_listed,
        curve_listed,
        point_listed,
        row,
    )
}

// The row of a point; answers the refusal, 0 for none, and stores the row, filled with zeros.
#[unsafe(no_mangle)]
pub extern "C" fn tugrelis_point_row<'a>(
    job: &[u32; 13],
    number: u32,
    face_listed: &'a [u32],
    curve_listed: &'a [u32],
    point_listed: &'a [u32],
    row: &mut [u32; 6],
) -> u32
    ensures { RowExported (job_in job.now Stage.Enrol) Point number
        face_listed.now curve_listed.now point_listed.now result row.old row.new }
{
    read_row(
        job_in(job, Stage::Enrol),
        Kind::Point,
        number,
        face_listed,
        curve_listed,
        point_listed,
        row,
    )
}
