// One write, and the move of a step.
ghost use Rattle.std.specs.Prelude.{◌≡◌, ℕ, ◌+◌, ◌*◌, ◌%◌, ◌≤◌, ◌<◌, length};
ghost use Rattle.moving.specs.Bytes.{copied};
ghost use Rattle.moving.specs.Step.{buffers_of, write_from, write_takes};
ghost use Rattle.algebra.specs.Carry.{place_by};
ghost use Rattle.blocks.specs.Places.{on_drives, drive_place};
ghost use Rattle.blocks.specs.Moving.{BetweenReady, MoveReady, WriteReady, move_by, from_after, to_after, memory_after};
ghost use Rattle.tables.specs.Tables.{pass_for};

use crate::block::Records;
use bank::{Address, Block, Step, power};
use matrix::carry::flip;
use planning::Phase;
use stripes::stripe::{blank_step, read_step};
use tables::pace::Standing;
use tables::tables::Tables;

// A block on each drive. On drive q it is the first with the blocks' columns that q picks, and its first record comes from
// the place with the places' columns that q picks.
fn write_drives(
    records: Records,
    area: &mut [u8],
    first: Block,
    blocks: &[u32],
    base: u32,
    places: &[u32],
    drives: usize,
)
    requires some { 0 < drives }
    requires by_index { (q : ℕ) → q < drives → place_by first.0 blocks.now q % drives ≡ q }
    requires by_index_2 { (q : ℕ) → q < drives → place_by first.0 blocks.now q * (records.count * records.r) + records.count * records.r ≤ length area.old }
    requires by_index_3 { (q : ℕ) → q < drives → (k : ℕ) → k < records.count
        → place_by (place_by base places.now q) records.columns.now k * records.r + records.r ≤ length records.memory.now }
    ensures { area.new ≡ copied (on_drives records.entry.count drives (place_by first.0 blocks.now))
        (drive_place records.entry.count drives (place_by base places.now) records.entry.columns.now) records.entry.r
        records.entry.memory.now area.old }
{
    let mut block = first.0;
    let mut place = base;
    for q in 0..drives {
        records.write(area, Block(block), place);
        block ^= u64::from(flip(blocks, q));
        place ^= flip(places, q);
    }
}

// The write of a load's tier: on each drive, one block of the area is filled from memory, which stays.
#[tactic(auto, using(bank::proofs::Limits::limits))]
fn write_step(area: &mut [u8], memory: &[u8], t: Tables, load: u64, tier: u64)
    requires { WriteReady t load tier area.old memory.now }
    ensures { area.new ≡ copied (write_takes t.geometry (pass_for t) load tier) (write_from t.geometry (pass_for t))
        t.geometry.r memory.now area.old }
{
    let g = t.geometry;
    let first = Address(load * power(g.m));
    let goes = t.goes_to(first);
    let place = t.first_place(goes, tier);
    let block = t.first_block(goes, place);
    let b = g.b as usize;
    let e = b + g.d as usize;
    let records = Records {
        memory,
        columns: &t.columns[..b],
        count: power(g.b) as usize,
        r: g.r as usize,
    };
    let drives = power(g.d) as usize;
    write_drives(
        records,
        area,
        block,
        &t.blocks[b..e],
        place,
        &t.columns[b..e],
        drives,
    );
}

// A step of a pass that reads, and may blank, the one area and writes the other.
fn move_between(from: &mut [u8], to: &mut [u8], memory: &mut [u8], t: Tables, at: Standing)
    requires { BetweenReady t at from.old to.old memory.old }
    ensures { (from.new ≡ from_after t at from.old) × (to.new ≡ to_after t at to.old memory.old)
        × (memory.new ≡ memory_after t at from.old memory.old) }
{
    let Standing { load, phase, tier } = at;
    // Each kind of step takes other buffers, so an arm each is plainer than a closure.
    match phase {
        Phase::Reads => read_step(memory, from, t.geometry, load, tier),
        Phase::Writes => write_step(to, memory, t, load, tier),
        Phase::Blanks => blank_step(from, memory, t.geometry, load, tier),
    }
}

// The move of a step of the tables' pass. Even passes read area 0. The buffers come one by one, since each kind of step lends on other ones.
pub fn move_step(t: Tables, s: Step, area0: &mut [u8], area1: &mut [u8], memory: &mut [u8])
    requires { MoveReady t (buffers_of area0.old area1.old memory.old) }
    ensures { buffers_of area0.new area1.new memory.new
        ≡ move_by t s.0 (buffers_of area0.old area1.old memory.old) }
{
    let at = t.pace.standing(s);
    let side = t.pass % 2;
    if side == 0 {
        move_between(area0, area1, memory, t, at);
    } else {
        move_between(area1, area0, memory, t, at);
    }
}
