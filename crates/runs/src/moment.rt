// What there is between two calls: the buffers that are lent, and the state.
use crate::labels::{changed, label, zeros};
use crate::say;
use bank::Step;
use mover::run::run;
use mover::step::step;
use planning::Plan;
use planning::state::State;
use std::io;
use totals::total_steps;

// The bytes of an area and of the memory in G, where a record has 8.
pub(crate) const AREA: usize = 128;

pub(crate) const MEMORY: usize = 32;

#[derive(Drop)]
pub(crate) struct Moment<'a> {
    pub(crate) area0: &'a mut [u8],
    pub(crate) area1: &'a mut [u8],
    pub(crate) memory: &'a mut [u8],
    pub(crate) state: State,
}

impl<'a> Moment<'a> {
    // Before the first step, with labels in the buffers.
    pub(crate) fn labelled(
        area0: &'a mut [u8],
        area1: &'a mut [u8],
        memory: &'a mut [u8],
    ) -> Moment<'a> {
        label(area0, 50);
        label(area1, 150);
        label(memory, 100);
        Moment {
            area0,
            area1,
            memory,
            state: State::fresh(),
        }
    }

    // Sends a step: its number.
    fn send(&mut self, p: Plan, k: u64) -> u8 {
        let answer = step(p, self.state, Step(k), self.area0, self.area1, self.memory);
        self.state = answer.state();
        answer.number()
    }

    // Asks for a step, and says its number.
    pub(crate) fn ask(&mut self, rt: &impl Print, asked: &str, p: Plan, k: u64) -> io::Result<()> {
        let number = self.send(p, k);
        say::line(rt, asked, &[u64::from(number)])
    }

    // Runs with an allowance, and says the number, the count and the next step.
    pub(crate) fn go(
        &mut self,
        rt: &impl Print,
        asked: &str,
        p: Plan,
        allowance: u64,
    ) -> io::Result<()> {
        let r = run(
            p,
            self.state,
            allowance,
            self.area0,
            self.area1,
            self.memory,
        );
        self.state = r.state;
        say::line(rt, asked, &[u64::from(r.number), r.count, r.state.next.0])
    }

    // Every step asked twice: how many were answered 0 and 9.
    pub(crate) fn twice(&mut self, p: Plan) -> u64 {
        let mut right = 0u64;
        for k in 0..total_steps(p) {
            let first = self.send(p, k);
            let again = self.send(p, k);
            right += u64::from(first == 0 && again == 9);
        }
        right
    }

    // How many bytes of three labelled buffers changed.
    pub(crate) fn say_changed(&self, rt: &impl Print) -> io::Result<()> {
        say::line(
            rt,
            "bytes that changed",
            &[
                changed(self.area0, 50),
                changed(self.area1, 150),
                changed(self.memory, 100),
            ],
        )
    }

    // How many bytes are zero.
    pub(crate) fn say_zeros(&self, rt: &impl Print) -> io::Result<()> {
        say::line(
            rt,
            "zero bytes",
            &[zeros(self.area0), zeros(self.area1), zeros(self.memory)],
        )
    }
}
