// The enrolment of a block: what a job takes in of its map.
#![tactic(auto)]

ghost use Rattle.std.specs.Prelude.{◌≡◌, [], ◌+◌, ◌*◌, ◌≤◌, ◌<◌, length};
ghost use Rattle.lists.specs.Lists.{overlay};
ghost use Rattle.cutting.specs.Cutting.{most_blocks};
ghost use Rattle.joiner.specs.Job.{numbers_per_block};
ghost use Rattle.joiner.specs.Calls.{enrol, answer};
ghost use Rattle.joiner.specs.Outcomes.{EnrolDone, CallStep};
ghost use Rattle.job.specs.JobState.{job_after, state_by};
ghost use Rattle.job.specs.Lent.{no_tables, enrol_lent};
ghost use Rattle.refusals.specs.Refusals.{number_of};
ghost use Rattle.step_enrol.specs.Inner.{KindReady, KindDone, block_numbers, Ready};

use blocks::{Block, Cuts};
use cells::Triple;
use counts::Counts;
use job::Job;
use joiner::{NUMBERS_PER_BLOCK, TICKS_PER_BLOCK};
use judge_enrol::{judge_enrolment, lengths_of};
use lists::{write_front, write_zeros};
use pass_enrol::{store_keys, store_rows};
use refusals::Refusal;
use stages::advance;

// Writes the numbers of block b: its largest ones, and the places of its first face and first curve.
#[tactic(auto, unfolding(crate::specs::Inner::block_numbers))]
fn put_block(blocks: &mut [u32], b: usize, plan: Counts, from: Counts)
    requires { (b < most_blocks) × (numbers_per_block * b + numbers_per_block ≤ length blocks.old) }
    ensures { blocks.new ≡ overlay blocks.old (numbers_per_block * b) (block_numbers plan from.faces from.curves) numbers_per_block }
{
    let numbers = [
        plan.faces,
        plan.curves,
        plan.points,
        from.faces,
        from.curves,
    ];
    write_front(blocks, NUMBERS_PER_BLOCK * b, &numbers, NUMBERS_PER_BLOCK);
}

// The components of one order: how many, their first place in the tables, and what is added to the entries of their rows.
#[derive(Clone, Copy)]
struct Part {
    order: usize,
    from: usize,
    count: usize,
    shift: u32,
}

// Enrols the components of one order: none is joined to another, and each has its key and its row.
fn enrol_kind(
    links: &mut [u32],
    keys: &mut [u64],
    rows: &mut [u32],
    p: Part,
    m: &[u32],
    v: Triple,
    block: Block,
    b: usize,
)
    requires { KindReady v block b m.now p.order p.shift p.from p.count (length links.old) (length keys.old) (length rows.old) }
    ensures { KindDone v block b m.now p.order p.shift p.from p.count links.old keys.old rows.old links.new keys.new rows.new }
{
    write_zeros(links, p.from, p.count);
    store_keys(keys, p.from, p.count, m, v, block, b, p.order);
    store_rows(rows, p.from, p.count, m, keys, v, block, p.order, p.shift);
}

// Stores what an accepted enrolment leaves.
fn act(
    job: Job,
    cuts: &Cuts,
    ticks: &mut [u32],
    blocks: &mut [u32],
    face_links: &mut [u32],
    curve_links: &mut [u32],
    face_keys: &mut [u64],
    curve_keys: &mut [u64],
    face_rows: &mut [u32],
    curve_rows: &mut [u32],
    block: u32,
    m: &[u32],
    plan: Counts,
) -> Job
    requires { Ready (state_by job cuts.now
        (enrol_lent no_tables ticks.old blocks.old face_links.old curve_links.old face_keys.old curve_keys.old face_rows.old curve_rows.old))
        block m.now plan }
    ensures { EnrolDone
        (state_by job cuts.now
        (enrol_lent no_tables ticks.old blocks.old face_links.old curve_links.old face_keys.old
        curve_keys.old face_rows.old curve_rows.old))
        block m.now
        (state_by result cuts.now
        (enrol_lent no_tables ticks.new blocks.new face_links.new curve_links.new face_keys.new
        curve_keys.new face_rows.new curve_rows.new)) }
{
    let b = block as usize;
    let v = job.extents();
    let r = cuts.block_at(b);
    let first = job.sofar;
    let faces = Part {
        order: 2,
        from: first.faces as usize,
        count: plan.faces as usize,
        shift: 0,
    };
    let curves = Part {
        order: 1,
        from: first.curves as usize,
        count: plan.curves as usize,
        shift: first.faces,
    };
    let more = Counts { points: 0, ..plan };
    put_block(blocks, b, plan, first);
    enrol_kind(face_links, face_keys, face_rows, faces, m, v, r, b);
    enrol_kind(curve_links, curve_keys, curve_rows, curves, m, v, r, b);
    advance(job, ticks, cuts, TICKS_PER_BLOCK * b, more)
}

// Enrols a block with its map.
// Kept: the tables one by one, as the C interface hands them on.
pub fn enrol(
    job: Job,
    cuts: &Cuts,
    ticks: &mut [u32],
    blocks: &mut [u32],
    face_links: &mut [u32],
    curve_links: &mut [u32],
    face_keys: &mut [u64],
    curve_keys: &mut [u64],
    face_rows: &mut [u32],
    curve_rows: &mut [u32],
    block: u32,
    m: &[u32],
) -> Result<Job, Refusal>
    ensures { CallStep
        (state_by job cuts.now
        (enrol_lent no_tables ticks.old blocks.old face_links.old curve_links.old face_keys.old
        curve_keys.old face_rows.old curve_rows.old))
        (enrol block m.now) (answer (number_of result) 0 [])
        (state_by (job_after job result) cuts.now
        (enrol_lent no_tables ticks.new blocks.new face_links.new curve_links.new face_keys.new
        curve_keys.new face_rows.new curve_rows.new)) }
{
    let lengths = lengths_of(
        ticks.len(),
        blocks.len(),
        face_links.len(),
        curve_links.len(),
        face_keys.len(),
        curve_keys.len(),
        face_rows.len(),
        curve_rows.len(),
    );
    let plan = judge_enrolment(job, cuts, ticks, lengths, block, m)?;
    Ok(act(
        job,
        cuts,
        ticks,
        blocks,
        face_links,
        curve_links,
        face_keys,
        curve_keys,
        face_rows,
        curve_rows,
        block,
        m,
        plan,
    ))
}
