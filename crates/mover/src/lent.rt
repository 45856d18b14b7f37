// The buffers that a call lends.
ghost use Rattle.std.specs.Prelude.{◌≡◌, true, length};
ghost use Rattle.bank.specs.Geometry.{in_limits};
ghost use Rattle.moving.specs.Step.{lengths_fit};

use bank::{Geometry, power};

// The two areas and memory: they go from call to call together.
#[derive(Drop)]
pub(crate) struct Lent<'a> {
    pub area0: &'a mut [u8],
    pub area1: &'a mut [u8],
    pub memory: &'a mut [u8],
}

impl Lent<'_> {
    // Whether they are of their lengths.
    #[tactic(auto, using(bank::proofs::Limits::limits))]
    pub(crate) fn fit(&self, g: Geometry) -> bool
        requires { in_limits g ≡ true }
        ensures { result ≡ lengths_fit g (length self.now.area0.now) (length self.now.area1.now) (length self.now.memory.now) }
    {
        let r = u64::from(g.r);
        let area = power(g.n) * r;
        let memory = power(g.m) * r;
        self.area0.len() as u64 == area
            && self.area1.len() as u64 == area
            && self.memory.len() as u64 == memory
    }
}
