// The labeller of one block.
#![tactic(auto)]

ghost use Rattle.std.specs.Prelude.{◌≡◌, ◌≤◌, length, Ok};
ghost use Rattle.lists.specs.Lists.{zeros};
ghost use Rattle.refusals.specs.Refusals.{number_of};
ghost use Rattle.counts.specs.Counts.{told};
ghost use Rattle.cells.specs.Extents.{Sized};
ghost use Rattle.cells.specs.Grid.{cells};
ghost use Rattle.labels.specs.Number.{numbered};
ghost use Rattle.labels.specs.Components.{largest};
ghost use Rattle.labeller.specs.Labelling.{wrong_tray, refusal_of, Ready, outcome, accepted, labelling};

use cells::Triple;
use counts::Counts;
use extents::{grid_cells, off_size};
use pass_fill::fill;
use pass_join::join_cells;
use pass_number::number_cells;
use refusals::Refusal;
use union_find::clear;

// Whether the length of the codes, of the map or of the working tray is not the block's.
#[tactic(auto, using(cells::proofs::ExtentLaws::area_high, cells::proofs::ExtentLaws::volume_high), unfolding(crate::specs::Labelling::wrong_tray, cells::specs::Box::volume))]
fn wrong_tray(e: Triple, codes: usize, map: usize, work: usize) -> bool
    requires { Sized 64 e }
    ensures { result ≡ wrong_tray e codes map work }
{
    let cells = grid_cells(e);
    !(codes == e.x * e.y * e.z && map == cells && work == cells)
}

// What refuses a call, by the lengths of its codes and trays: the refusal of the lowest number that applies.
#[tactic(auto, using(crate::proofs::LabellingLaws::refusal_is, extents::proofs::SizeLaws::sized_of), unfolding(refusals::specs::Refusals::number))]
fn judge(codes: usize, e: Triple, map: usize, work: usize) -> Result<(), Refusal>
    ensures { number_of result ≡ refusal_of e codes map work }
{
    if off_size(64, e) {
        return Err(Refusal::OffSize);
    }
    if wrong_tray(e, codes, map, work) {
        return Err(Refusal::WrongTray);
    }
    Ok(())
}

// Numbers the components of order j over the map of the orders above, and answers how many there are. The links are zeros before and after.
fn number_order(map: &mut [u32], e: Triple, j: usize, links: &mut [u32]) -> u32
    requires { Sized 64 e × (length map.old ≡ cells e) × (links.old ≡ zeros (cells e)) × (j ≤ 2) }
    ensures numbers { map.new ≡ numbered e j map.old }
    ensures total { result ≡ largest e (numbered e j map.old) j }
    ensures cleared { links.new ≡ zeros (cells e) }
{
    join_cells(map, e, j, links);
    number_cells(map, e, j, links)
}

// Labels a block that is not refused.
fn label_block(codes: &[u32], e: Triple, map: &mut [u32], work: &mut [u32]) -> Counts
    requires { Ready e (length codes.now) (length map.old) (length work.old) }
    ensures { outcome (told (Ok result)) map.new work.new ≡ accepted e codes.now }
{
    fill(codes, e, map);
    clear(work);
    let faces = number_order(map, e, 2, work);
    let curves = number_order(map, e, 1, work);
    // Point cells never meet: there is nothing to join.
    let points = number_cells(map, e, 0, work);
    Counts {
        faces,
        curves,
        points,
    }
}

// Labels a block of these extents: the codes, x fastest, into the map. The working tray is left with zeros.
pub fn label(codes: &[u32], e: Triple, map: &mut [u32], work: &mut [u32]) -> Result<Counts, Refusal>
    ensures { outcome (told result) map.new work.new ≡ labelling e codes.now map.old work.old }
{
    judge(codes.len(), e, map.len(), work.len())?;
    Ok(label_block(codes, e, map, work))
}
