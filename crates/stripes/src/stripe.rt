// A stripe: a block on each drive, side by side, read into memory or blanked. Geometry, load and tier come one by one, as `stripe_of` takes them.
ghost use Rattle.std.specs.Prelude.{◌≡◌, true, ◌+◌, ◌*◌, ◌≤◌, ◌<◌, length};
ghost use Rattle.bank.specs.Geometry.{in_limits, loads, tiers};
ghost use Rattle.moving.specs.Bytes.{copied, zeroed};
ghost use Rattle.moving.specs.Step.{blank_takes, read_from, read_takes};
ghost use Rattle.moving.specs.Laid.{laid};
ghost use Rattle.stripes.specs.Stripe.{ReadReady, stripe_of};

use bank::{Block, Geometry, power};
use copying::{clear_part, copy_part};

// Where a load's tier lies: its first block in the area and in memory, the bytes of a block, and the number of drives.
#[derive(Clone, Copy)]
struct Stripe {
    first: Block,
    place: Block,
    size: usize,
    drives: u64,
}

// Block `from` of src, of size bytes, becomes block `to` of dst.
fn lay_block(dst: &mut [u8], to: Block, src: &[u8], from: Block, size: usize)
    requires { (to.0 * size + size ≤ length dst.old) × (from.0 * size + size ≤ length src.now) }
    ensures { dst.new ≡ laid dst.old (to.0 * size) size src.now (from.0 * size) }
{
    let o = from.0 as usize * size;
    let e = o + size;
    copy_part(dst, to.0 as usize * size, &src[o..e]);
}

impl Stripe {
    // The stripe of a load's tier.
    #[tactic(auto, using(bank::proofs::Limits::limits))]
    fn of(g: Geometry, load: u64, tier: u64) -> Stripe
        requires { (in_limits g ≡ true) × (load < loads g) × (tier < tiers g) }
        ensures { result ≡ stripe_of g load tier }
    {
        let drives = power(g.d);
        let size = power(g.b) * u64::from(g.r);
        let place = tier * drives;
        let blocks = power(g.m - g.b);
        Stripe {
            first: Block(load * blocks + place),
            place: Block(place),
            size: size as usize,
            drives,
        }
    }

    // A block for each drive, from `from` on in src and from `to` on in dst: they lie side by side in both, be it area or memory.
    fn lay(self, dst: &mut [u8], to: Block, src: &[u8], from: Block)
        requires { (to.0 * self.size + self.drives * self.size ≤ length dst.old) × (from.0 * self.size + self.drives * self.size ≤ length src.now) × (0 < self.size) }
        ensures { dst.new ≡ laid dst.old (to.0 * self.size) (self.drives * self.size) src.now (from.0 * self.size) }
    {
        for q in 0..self.drives {
            lay_block(dst, Block(to.0 + q), src, Block(from.0 + q), self.size);
        }
    }
}

// The read of a load's tier: on each drive, one block of the area goes to its place in memory.
pub fn read_step(memory: &mut [u8], area: &[u8], g: Geometry, load: u64, tier: u64)
    requires { ReadReady g load tier area.now memory.old }
    ensures { memory.new ≡ copied (read_takes g tier) (read_from g load) g.r area.now memory.old }
{
    let s = Stripe::of(g, load, tier);
    s.lay(memory, s.place, area, s.first);
}

// The blank of a load's tier: its places in memory are filled with zero, and from there, on each drive, one block of the area.
// Copied so, a blank costs no more than a read, but for small blocks, where it is some nanoseconds dearer; with the block filled by itself it costs more (docs/SPEED.md).
pub fn blank_step(area: &mut [u8], memory: &mut [u8], g: Geometry, load: u64, tier: u64)
    requires { ReadReady g load tier area.old memory.old }
    ensures { (area.new ≡ zeroed (blank_takes g load tier) g.r area.old)
        × (memory.new ≡ zeroed (read_takes g tier) g.r memory.old) }
{
    let s = Stripe::of(g, load, tier);
    let at = s.place.0 as usize * s.size;
    clear_part(memory, at, s.drives as usize * s.size);
    s.lay(area, s.first, memory, s.place);
}
