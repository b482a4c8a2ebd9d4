// Numbers the components of one kind by first position: the classes of the links, the first one of each, sorted by key.
#![tactic(auto)]

ghost use Rattle.std.specs.Prelude.{◌≡◌, cond, ◌≢◌, ℕ, ◌+◌, ◌*◌, ◌≤◌, ◌<◌, length, get_or, set};
ghost use Rattle.lists.specs.Lists.{overlay};
ghost use Rattle.union_find.specs.Links.{root};
ghost use Rattle.sorting.specs.Sorting.{Listed};
ghost use Rattle.ranking.specs.Ranking.{AnyKind, Ranked, part, Classes, entered, Leaders, is_leader, LeadersListed, Found, Ordered, Different, Placed};

use sorting::sort;
use union_find::parent;

// The class of x, where the classes of all before it stand in the table.
#[tactic(auto, using(crate::proofs::FirstLaws::class_root, crate::proofs::FirstLaws::class_up, union_find::proofs::LinkLaws::parent_low))]
fn class_of(links: &[u32], classes: &[u32], x: u32) -> u32
    requires x_in_bounds { x < length classes.now }
    requires by_index { (y : ℕ) → y < x → get_or classes.now y 0 ≡ root links.now y }
    ensures { result ≡ root links.now x }
{
    let p = parent(links, x);
    if p == x { x } else { classes[p as usize] }
}

// Writes the class of each of the first n places.
#[tactic(auto, using(lists::proofs::Overlay::overlay_none, lists::proofs::Overlay::written_next))]
fn store_classes(links: &[u32], classes: &mut [u32], n: u32)
    requires { n ≤ length classes.old }
    ensures { classes.new ≡ overlay classes.old 0 (root links.now) n }
{
    for x in 0..n {
        classes[x as usize] = class_of(links, classes, x);
    }
}

// Enters place x, of class c, as the first one of its class: if no earlier place is of the class, or if its key is below that of the one entered.
#[tactic(auto, using(crate::proofs::FirstLaws::enter_root, crate::proofs::FirstLaws::enter_first, crate::proofs::FirstLaws::enter_later))]
fn enter(keys: &[u64], leaders: &mut [u32], c: u32, x: u32)
    requires x_in_bounds { (x < length keys.now) × (x < length leaders.old) }
    requires c_in_bounds { (c < length leaders.old) × (c ≢ x → get_or leaders.old c 0 < length keys.now) }
    ensures { leaders.new ≡ entered keys.now c x leaders.old }
{
    if c == x {
        leaders[x as usize] = x;
        return;
    }
    let f = leaders[c as usize];
    if keys[x as usize] < keys[f as usize] {
        leaders[c as usize] = x;
    }
}

// The first n places with their classes. A class is named by one of its places, which comes no later than the others.
#[derive(Clone, Copy)]
struct Classed<'a> {
    classes: &'a [u32],
    n: u32,
    ghost named: { Classes classes.now n },
}

impl Classed<'_> {
    // Finds the first one of each class.
    fn find_leaders(&self, keys: &[u64], leaders: &mut [u32])
        requires { (self.now.n ≤ length keys.now) × (self.now.n ≤ length leaders.old) }
        ensures leaders { Leaders keys.now self.now.classes.now self.now.n leaders.new }
        ensures leaders_len_unchanged { length leaders.new ≡ length leaders.old }
    {
        for x in 0..self.n {
            enter(keys, leaders, self.classes[x as usize], x);
        }
    }

    // Lists x behind the h places listed from n on, if it is the first one of its class, and returns how many are listed then.
    #[tactic(auto, unfolding(crate::specs::Ranking::is_leader))]
    fn list_first(&self, spare: &mut [u32], x: u32, h: u32) -> u32
        requires x_in_bounds { x < self.now.n }
        requires h_lt_n { (h < self.now.n) × (self.now.n + h < length spare.old) }
        ensures value { result ≡ cond (is_leader self.now.classes.now spare.old x) (h + 1) h }
        ensures spare_after { spare.new ≡ cond (is_leader self.now.classes.now spare.old x) (set spare.old (self.now.n + h) x) spare.old }
    {
        let c = self.classes[x as usize];
        if spare[c as usize] == x {
            spare[self.n as usize + h as usize] = x;
            return h + 1;
        }
        h
    }

    // Lists the first ones from place n on, ascending, and returns how many there are.
    fn list_leaders(&self, spare: &mut [u32]) -> u32
        requires { 2 * self.now.n ≤ length spare.old }
        ensures { LeadersListed self.now.classes.now self.now.n self.now.n result spare.old spare.new }
    {
        let mut h = 0;
        for x in 0..self.n {
            h = self.list_first(spare, x, h);
        }
        h
    }

    // Writes the number of each class, and the places of the first ones by number.
    fn place_leaders(&self, leaders: &mut [u64], spare: &mut [u32], h: u32)
        requires h_le_n { (h ≤ self.now.n) × (self.now.n ≤ length leaders.old) × (2 * self.now.n ≤ length spare.old) }
        requires apart { Different self.now.classes.now spare.old self.now.n h }
        ensures placed { Placed self.now.classes.now spare.old spare.new self.now.n h }
        ensures leaders_after { leaders.new ≡ overlay leaders.old 0 (λ i. get_or spare.old (self.now.n + i) 0) h }
    {
        for i in 0..h {
            let x = spare[self.n as usize + i as usize];
            let c = self.classes[x as usize];
            spare[c as usize] = i + 1;
            leaders[i as usize] = u64::from(x);
        }
    }
}

// Writes the classes, lists the first ones of the classes from place n on, ascending, and returns how many there are.
fn gather(links: &[u32], keys: &[u64], classes: &mut [u32], spare: &mut [u32], n: u32) -> u32
    requires { (n ≤ length keys.now) × (n ≤ length classes.old) × (2 * n ≤ length spare.old) }
    ensures { Found links.now keys.now n result classes.old classes.new spare.old spare.new }
{
    store_classes(links, classes, n);
    let classed = Classed { classes, n };
    classed.find_leaders(keys, spare);
    classed.list_leaders(spare)
}

// Sorts the h places listed from n on by key. The table of classes serves as the other tray, and the classes are written again.
fn arrange(links: &[u32], keys: &[u64], classes: &mut [u32], spare: &mut [u32], n: u32, h: u32)
    requires h_le_n { (h ≤ n) × (n ≤ length classes.old) × (2 * n ≤ length spare.old) }
    requires listed { Listed (part spare.old n h) keys.now }
    ensures { Ordered links.now keys.now n h classes.old classes.new spare.old spare.new }
{
    let from = n as usize;
    let count = h as usize;
    let end = from + count;
    sort(&mut spare[from..end], &mut classes[..count], keys);
    store_classes(links, classes, n);
}

// Replaces each of the first n classes by its number.
#[tactic(auto, using(lists::proofs::Overlay::overlay_none))]
fn renumber(spare: &[u32], numbers: &mut [u32], n: u32)
    requires { (n ≤ length spare.now) × Classes numbers.old n }
    ensures { numbers.new ≡ overlay numbers.old 0 (λ x. get_or spare.now (get_or numbers.old x 0) 0) n }
{
    for x in 0..n {
        let c = numbers[x as usize];
        numbers[x as usize] = spare[c as usize];
    }
}

// Numbers the first n components of a kind by first position, then block, then number, and returns how many numbers there are. `leaders` gets
// the place of the first one of each number. Not an entry.
pub fn rank_kind(
    links: &[u32],
    keys: &[u64],
    numbers: &mut [u32],
    leaders: &mut [u64],
    spare: &mut [u32],
    n: u32,
) -> u32
    requires { (n ≤ length keys.now) × (n ≤ length numbers.old) × (n ≤ length leaders.old) × (2 * n ≤ length spare.old) }
    ensures any_kind { AnyKind links.now keys.now (λ t κ. Ranked t κ n result numbers.old numbers.new leaders.old leaders.new) }
    ensures spare_len_unchanged { length spare.new ≡ length spare.old }
{
    let h = gather(links, keys, numbers, spare, n);
    arrange(links, keys, numbers, spare, n, h);
    let classed = Classed {
        classes: numbers,
        n,
    };
    classed.place_leaders(leaders, spare, h);
    renumber(spare, numbers, n);
    h
}
