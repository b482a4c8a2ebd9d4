// Numbers the components of one kind and writes its closed tables.
#![tactic(auto)]

ghost use Rattle.std.specs.Prelude.{◌*◌, ◌≤◌, length};
ghost use Rattle.joiner.specs.Job.{Curve};
ghost use Rattle.kind_numbers.specs.Numbered.{Numbered, AnyCopied, AnyCurves};

use closed_tables::{copy_rows, curve_rows, write_firsts};
use ranking::rank_kind;

// Numbers the n components of a kind whose closed rows are those enrolled or found: faces and points. Not an entry.
pub fn number_copied(
    links: &[u32],
    keys: &[u64],
    rows: &[u32],
    width: usize,
    numbers: &mut [u32],
    firsts: &mut [u64],
    listed: &mut [u32],
    n: u32,
) -> u32
    requires n_in_bounds { (n ≤ length keys.now) × (n ≤ length numbers.old) × (n ≤ length firsts.old) }
    requires le_width { (2 ≤ width) × (width ≤ 6) × (width * n ≤ length listed.old) }
    ensures { AnyCopied links.now keys.now rows.now width
        (λ t κ. Numbered t κ n result numbers.old numbers.new firsts.old firsts.new listed.old listed.new) }
{
    let total = rank_kind(links, keys, numbers, firsts, listed, n);
    copy_rows(listed, firsts, rows, width, total);
    write_firsts(firsts, keys, total);
    total
}

// Numbers the n curves, their rows by the faces' final numbers. Not an entry.
// Kept: apart from `number_copied`, of whose three calls one is another here. One function with a closure for it would be no plainer: it
// takes the same seven tables and n, and needs a clause of its own for what the closure leaves.
pub fn number_curves(
    links: &[u32],
    keys: &[u64],
    rows: &[u32],
    face_numbers: &[u32],
    numbers: &mut [u32],
    firsts: &mut [u64],
    listed: &mut [u32],
    n: u32,
) -> u32
    requires { (n ≤ length keys.now) × (n ≤ length numbers.old) × (n ≤ length firsts.old) × (4 * n ≤ length listed.old) }
    ensures { AnyCurves links.now keys.now rows.now face_numbers.now
        (λ t. Numbered t Curve n result numbers.old numbers.new firsts.old firsts.new listed.old listed.new) }
{
    let total = rank_kind(links, keys, numbers, firsts, listed, n);
    curve_rows(listed, firsts, rows, face_numbers, total);
    write_firsts(firsts, keys, total);
    total
}
