// The tests of a crossing step: the judge's, then the links of the block's faces and curves, and with the last block all links and rows.
#![tactic(auto)]

ghost use Rattle.std.specs.Prelude.{◌≡◌, ◌≤◌, ◌<◌};
ghost use Rattle.cutting.specs.Cutting.{most_blocks};
ghost use Rattle.joiner.specs.Stages.{crossing_step};
ghost use Rattle.job.specs.JobState.{job_by};
ghost use Rattle.judge_cross.specs.Tests.{crossed_but, last_in, rows_in, all_ready, numberable, own_stands, refusal_of};
ghost use Rattle.refusals.specs.Refusals.{number_of};

use blocks::Cuts;
use job::Job;
use joiner::{CROSSING_TICK, TICKS_PER_BLOCK};
use judge::{CallName, Entry, Lengths, entry_of, judge, links_stand};
use lists::read_or;
use refusals::Refusal;
use stages::is_ticked;
use union_find::all_sound;

// The number of a crossing's step.
pub fn step_of(b: u32) -> usize
    ensures { result ≡ crossing_step b }
{
    TICKS_PER_BLOCK * b as usize + CROSSING_TICK
}

// Whether block x is crossed, or is b.
#[tactic(auto, unfolding(crate::specs::Tests::crossed_but))]
fn crossed_but(ticks: &[u32], b: u32, x: usize) -> bool
    requires { x < most_blocks }
    ensures { result ≡ crossed_but ticks.now b x }
{
    let step = TICKS_PER_BLOCK * x + CROSSING_TICK;
    step_of(b) == step || is_ticked(ticks, step)
}

// Whether with block b all blocks are crossed.
fn last_crossing(ticks: &[u32], b: u32, blocks: usize) -> bool
    requires { blocks ≤ most_blocks }
    ensures { result ≡ last_in ticks.now b blocks }
{
    (0..blocks).all(|x| crossed_but(ticks, b, x))
}

// Whether the first n entries of the rows are places of a table of so many faces, + 1.
fn rows_stand(rows: &[u32], faces: u32, n: usize) -> bool
    ensures { result ≡ rows_in rows.now faces n }
{
    (0..n).all(|i| read_or(rows, i, 0) <= faces)
}

// Whether all can be numbered: the rows of curves name places of the face table, and no link is longer than its place.
#[tactic(auto, unfolding(crate::specs::Tests::all_ready))]
fn all_ready(job: Job, rows: &[u32], face_links: &[u32], curve_links: &[u32]) -> bool
    ensures { result ≡ all_ready rows.now job.entries.faces job.sofar.faces job.sofar.curves face_links.now curve_links.now }
{
    rows_stand(rows, job.entries.faces, 4 * job.sofar.curves as usize)
        && all_sound(face_links, job.sofar.faces as usize)
        && all_sound(curve_links, job.sofar.curves as usize)
}

// .. asked at the last crossing only.
#[tactic(auto, unfolding(crate::specs::Tests::numberable))]
fn rows_ready(
    job: Job,
    ticks: &[u32],
    b: u32,
    blocks: usize,
    rows: &[u32],
    face_links: &[u32],
    curve_links: &[u32],
) -> bool
    requires { blocks ≤ most_blocks }
    ensures { result ≡ numberable ticks.now b blocks rows.now job.entries.faces job.sofar.faces job.sofar.curves face_links.now curve_links.now }
{
    !last_crossing(ticks, b, blocks) || all_ready(job, rows, face_links, curve_links)
}

// Whether the block's links may be followed, and with the last block all can be numbered.
#[tactic(auto, unfolding(crate::specs::Tests::own_stands))]
fn own_stands(
    job: Job,
    ticks: &[u32],
    b: u32,
    blocks: usize,
    entry: Entry,
    rows: &[u32],
    face_links: &[u32],
    curve_links: &[u32],
) -> bool
    requires { blocks ≤ most_blocks }
    ensures { result ≡ own_stands ticks.now b blocks entry rows.now job.entries.faces job.sofar.faces job.sofar.curves face_links.now curve_links.now }
{
    links_stand(face_links, curve_links, entry)
        && rows_ready(job, ticks, b, blocks, rows, face_links, curve_links)
}

// The lowest refusal that applies. Layers cannot differ, and no table gets full. What grows with the tallies comes after their test.
pub fn judge_crossing(
    job: Job,
    cuts: &Cuts,
    ticks: &[u32],
    lengths: Lengths,
    table: &[u32],
    rows: &[u32],
    face_links: &[u32],
    curve_links: &[u32],
    b: u32,
    m: &[u32],
) -> Result<(), Refusal>
    ensures { number_of result ≡ refusal_of (job_by job cuts.now) ticks.now lengths table.now rows.now face_links.now curve_links.now b m.now }
{
    let step = step_of(b);
    judge(
        job,
        cuts,
        ticks,
        table,
        CallName::Crossing,
        lengths,
        b,
        step,
        m,
    )?;
    let count = cuts.block_count();
    let entry = entry_of(table, b);
    if !own_stands(job, ticks, b, count, entry, rows, face_links, curve_links) {
        return Err(Refusal::StrayLabel);
    }
    Ok(())
}
