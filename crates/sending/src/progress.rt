// What is said on standard error while the steps are sent.
ghost use Rattle.std.specs.Prelude.{◌<◌};

use std::fmt::Display;

// Nothing, a line for each pass, or one line that is written over.
#[derive(Clone, Copy)]
pub enum Progress {
    Silent,
    Lines,
    Rewritten,
}

// A piece of a line. What can't be said is left unsaid, piece by piece: each is tried, whatever became of the one before.
fn say<R: Eprint, D: Display + Drop>(rt: &R, piece: D) {
    let _ = rt.eprint(piece);
}

// Whether the line is written over once so many steps are done: a hundred times in a run, and at its end.
fn is_due(done: u64, total: u64) -> bool {
    done % (total / 100 + 1) == 0 || done == total
}

// What is said once so many of the steps are done, the last of them in this pass.
pub(crate) fn say_step<R: Eprint>(
    rt: &R,
    progress: Progress,
    pass: u64,
    each: u64,
    done: u64,
    total: u64,
)
    requires { 0 < each }
{
    match progress {
        Progress::Lines if done % each == 0 => {
            say(rt, "pass ");
            say(rt, pass);
            say(rt, " done\n");
        }
        Progress::Rewritten if is_due(done, total) => {
            say(rt, "\rpass ");
            say(rt, pass);
            say(rt, ", step ");
            say(rt, done);
            say(rt, " of ");
            say(rt, total);
        }
        _ => {}
    }
}

// What is said once all are done: the line that was written over ends. Where there is no step there is no line.
pub(crate) fn say_end<R: Eprint>(rt: &R, progress: Progress, total: u64) {
    match progress {
        Progress::Rewritten if total != 0 => say(rt, "\n"),
        _ => {}
    }
}
