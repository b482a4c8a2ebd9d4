// What an accepted crossing step stores: the block's curves joined; with the last block faces and curves numbered.
#![tactic(auto)]

ghost use Rattle.std.specs.Prelude.{length};
ghost use Rattle.job.specs.JobState.{job_by};
ghost use Rattle.store_cross.specs.Stores.{JoinReady, TalliesFit, CurvesJoined, KindRoom, BothNumbered};

use blocks::Cuts;
use counts::Counts;
use job::Job;
use judge::entry_of;
use judge_cross::step_of;
use kind_numbers::{number_copied, number_curves};
use pass_cross::cross_cells;
use stages::advance;

// Ticks the step and joins the block's curves. Not an entry.
#[tactic(auto, using(crate::proofs::StoreLaws::cross_trays, crate::proofs::StoreLaws::joined_by))]
pub fn join_curves(
    job: Job,
    cuts: &Cuts,
    ticks: &mut [u32],
    table: &[u32],
    face_links: &mut [u32],
    curve_links: &mut [u32],
    b: u32,
    m: &[u32],
) -> Job
    requires { JoinReady (job_by job cuts.now).told.cutting ticks.old table.now face_links.old curve_links.old b m.now
        × TalliesFit (job_by job cuts.now) }
    ensures { CurvesJoined job cuts.now ticks.old ticks.new table.now
        face_links.old face_links.new curve_links.old curve_links.new b m.now result }
{
    let here = cuts.block_at(b as usize);
    let entry = entry_of(table, b);
    let none = Counts {
        faces: 0,
        curves: 0,
        points: 0,
    };
    let next = advance(job, ticks, cuts, step_of(b), none);
    cross_cells(
        m,
        here.size,
        1,
        face_links,
        entry.face_from,
        curve_links,
        entry.curve_from,
    );
    next
}

// Numbers the faces, then the curves by the faces' numbers, and answers how many of each there are once numbered. Not an entry.
// Kept: the tables of a kind apart, since a struct of the six would be no plainer: `accept` of step_cross would build it, only for it to be
// taken apart here for `number_copied` and `number_curves`.
pub fn number_both(
    links_of_faces: &[u32],
    links_of_curves: &[u32],
    keys_of_faces: &[u64],
    keys_of_curves: &[u64],
    face_rows: &[u32],
    curve_rows: &[u32],
    face_numbers: &mut [u32],
    curve_numbers: &mut [u32],
    face_firsts: &mut [u64],
    curve_firsts: &mut [u64],
    face_listed: &mut [u32],
    curve_listed: &mut [u32],
    faces: u32,
    curves: u32,
) -> Counts
    requires kind_room { KindRoom 2 faces (length keys_of_faces.now) (length face_numbers.old) (length face_firsts.old) (length face_listed.old) }
    requires kind_room_2 { KindRoom 4 curves (length keys_of_curves.now) (length curve_numbers.old) (length curve_firsts.old) (length curve_listed.old) }
    ensures { BothNumbered links_of_faces.now links_of_curves.now keys_of_faces.now keys_of_curves.now face_rows.now curve_rows.now
        face_numbers.old face_numbers.new curve_numbers.old curve_numbers.new
        face_firsts.old face_firsts.new curve_firsts.old curve_firsts.new
        face_listed.old face_listed.new curve_listed.old curve_listed.new faces curves result }
{
    let faces = number_copied(
        links_of_faces,
        keys_of_faces,
        face_rows,
        2,
        face_numbers,
        face_firsts,
        face_listed,
        faces,
    );
    let curves = number_curves(
        links_of_curves,
        keys_of_curves,
        curve_rows,
        face_numbers,
        curve_numbers,
        curve_firsts,
        curve_listed,
        curves,
    );
    Counts {
        faces,
        curves,
        points: 0,
    }
}
