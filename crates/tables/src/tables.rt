// What the writes of a pass need, worked out once a pass.
ghost use Rattle.std.specs.Prelude.{◌≡◌, true, map, ◌++◌, ◌-◌, ◌/◌, ◌%◌, ◌≤◌, ◌<◌, ◌^◌, take, length, replicate};
ghost use Rattle.bank.specs.Limits;
ghost use Rattle.std.specs.Int.Bits.{bit_xor};
ghost use Rattle.bank.specs.Geometry.{block, memory_size, records, tiers, in_limits};
ghost use Rattle.algebra.specs.Vector;
ghost use Rattle.algebra.specs.Vector.{comb};
ghost use Rattle.algebra.specs.Matrix.{applied, target};
ghost use Rattle.moving.specs.Blocks.{block_start};
ghost use Rattle.planning.specs.Stored.{route_of};
ghost use Rattle.tables.specs.Tables.{tables_for, tables_of, TablesReady, pass_for};
ghost use Rattle.planning.specs.Inner.{Runs};

use crate::pace::Pace;
use bank::{Address, Block, Geometry, ROWS, power};
use elimination::questions::inverse_columns;
use matrix::rows::apply;
use matrix::vector::sum;
use planning::Plan;
use store::pass_rows;

// The pace of the plan's steps; the pass's rows and complement; the columns of the inverse of its low m by m part; what the
// pass makes of those, in blocks.
#[derive(Clone, Copy, Debug, PartialEq, Eq)]
pub struct Tables {
    pub geometry: Geometry,
    pub pace: Pace,
    pub pass: u64,
    pub rows: [u32; ROWS],
    pub complement: u32,
    pub columns: [u32; ROWS],
    pub blocks: [u32; ROWS],
}

// What the rows make of the columns, in blocks of 2^b; the places after them hold zero.
fn block_columns(rows: &[u32], columns: &[u32], b: u32) -> [u32; ROWS]
    requires { (length rows.now ≤ Limits.ROWS) × (length columns.now ≤ Limits.ROWS) × (b < Vector.WORD) }
    ensures { result ≡ map (λ v. applied rows.now v / 2 ^ b) columns.now ++ replicate (Limits.ROWS - length columns.now) 0 }
{
    let mut blocks = [0u32; ROWS];
    for (j, v) in columns.iter().enumerate() {
        blocks[j] = apply(rows, *v) >> b;
    }
    blocks
}

// The tables of a pass.
#[tactic(auto, using(bank::proofs::Limits::limits))]
fn tables_for(g: Geometry, pace: Pace, pass: u64, rows: [u32; ROWS], complement: u32) -> Tables
    requires { TablesReady g rows complement }
    ensures { result ≡ tables_for g pace pass rows complement }
{
    let n = g.n as usize;
    let m = g.m as usize;
    let columns = inverse_columns(&rows[..m]);
    let blocks = block_columns(&rows[..n], &columns[..m], g.b);
    Tables {
        geometry: g,
        pace,
        pass,
        rows,
        complement,
        columns,
        blocks,
    }
}

// That the geometry is inside the limits stays a clause: `tables_for` (specs/Tables) makes tables of any.
impl Tables {
    // The tables of pass p of a plan that can run.
    pub fn of(plan: Plan, p: u64) -> Tables
        requires { Runs (route_of plan) × (p < plan.count) }
        ensures { result ≡ tables_of plan p }
    {
        let at = p as usize;
        let rows = pass_rows(&plan.rows, at);
        let pace = Pace::of(plan);
        tables_for(plan.geometry, pace, p, rows, plan.complements[at])
    }

    // Where the pass sends the record at x.
    #[tactic(auto, using(bank::proofs::Limits::limits))]
    pub fn goes_to(&self, x: Address) -> Address
        requires { (in_limits self.now.geometry ≡ true) × (x.0 < records self.now.geometry) }
        ensures { result.0 ≡ target (pass_for self.now).rows self.now.complement x.0 }
    {
        let n = self.geometry.n as usize;
        let y = apply(&self.rows[..n], x.0 as u32) ^ self.complement;
        Address(u64::from(y))
    }

    // The place of the first record of the block that write `tier` fills on drive 0, where the load's first record goes to `goes`.
    #[tactic(auto, using(bank::proofs::Limits::limits))]
    pub fn first_place(&self, goes: Address, tier: u64) -> u32
        requires { (in_limits self.now.geometry ≡ true) × (tier < tiers self.now.geometry) }
        ensures { result ≡ comb (take self.now.geometry.m self.now.columns)
            (bit_xor (block_start self.now.geometry tier 0) (goes.0 % memory_size self.now.geometry)) }
    {
        let g = self.geometry;
        let start = tier * power(g.d) * power(g.b);
        let picks = start ^ (goes.0 % power(g.m));
        let m = g.m as usize;
        sum(&self.columns[..m], picks as u32)
    }

    // The block that the pass sends the record of this place of memory to, where the load's first record goes to `goes`.
    #[tactic(auto, using(bank::proofs::Limits::limits))]
    pub fn first_block(&self, goes: Address, place: u32) -> Block
        requires { in_limits self.now.geometry ≡ true }
        ensures { result.0 ≡ bit_xor (applied (pass_for self.now).rows place) goes.0 / block self.now.geometry }
    {
        let n = self.geometry.n as usize;
        let y = u64::from(apply(&self.rows[..n], place)) ^ goes.0;
        Block(y >> self.geometry.b)
    }
}
