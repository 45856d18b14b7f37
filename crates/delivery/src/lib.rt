// A run is set in tray order on lent bytes: its order text is read, planned, and every step of the plan sent.
#![tactic(auto)]

ghost use Rattle.std.specs.Prelude.{◌≡◌, ◌≤◌, ◌*◌, ◌^◌, true, length};
ghost use Rattle.bank.specs.Limits;
ghost use Rattle.bank.specs.Geometry.{in_limits};
ghost use Rattle.order.specs.Order.{judgement};
ghost use Rattle.moving.specs.Step.{buffers_of, buffers_fit};
ghost use Rattle.delivery.specs.Delivery.{set_in_order, DeliveryPromise};

use bank::refusal::Refusal;
use bank::{Address, Geometry, power};
use copying::{clear, copy_into};
use order::Order;
use plan::make::plan_for;
use reading::{Read, read_order};
use sending::progress::Progress;
use sending::send_all;
use totals::result_area;

// Done; refused by a number, and z with 3, 0 with every other; or the run, of so many bytes, has no room in the buffers.
// The theorem `delivery_outcome` speaks of these cases, so they stay as they are.
#[derive(Clone, Copy)]
pub enum Delivery {
    Done,
    Refused(u8, Address),
    NoRoom(u64),
}

// 2^k·R, the bytes of 2^k records: of an area for n, of a memory for m.
fn bytes_of(g: Geometry, k: u32) -> u64
    requires { (in_limits g ≡ true) × (k ≤ g.n) }
    ensures { result ≡ 2 ^ k * g.r }
{
    power(k) * u64::from(g.r)
}

// Every step of the order's plan is sent, and the result, where it lies in area 1, goes to area 0; where the spent area is to
// be blanked, area 1 is spent then too. The order was judged when it was read. The buffers come one by one, as `deliver` is lent them.
fn set_in_order<R: Eprint>(
    rt: &R,
    order: Order,
    blanks: bool,
    again: u64,
    progress: Progress,
    area0: &mut [u8],
    area1: &mut [u8],
    memory: &mut [u8],
)
    requires order_value { (judgement order ≡ 0) × (length order.rows ≡ Limits.ROWS) }
    requires memory_value { buffers_fit order.geometry (buffers_of area0.old area1.old memory.old) ≡ true }
    ensures { buffers_of area0.new area1.new memory.new
        ≡ set_in_order order blanks (buffers_of area0.old area1.old memory.old) }
{
    let Order {
        geometry,
        rows,
        complement,
    } = order;
    let plan = plan_for(geometry, rows, complement, blanks);
    send_all(rt, plan, again, progress, area0, area1, memory);
    if result_area(plan) == 1 {
        copy_into(area0, area1);
        if blanks {
            clear(area1);
        }
    }
}

// The run in tray order, every step sent so many times more, and the spent area blanked or not; or a refusal, which changes nothing.
pub fn deliver<R: Eprint>(
    rt: &R,
    text: &[u8],
    blanks: bool,
    again: u64,
    progress: Progress,
    run: &mut [u8],
    spare: &mut [u8],
    memory: &mut [u8],
) -> Delivery
    ensures { DeliveryPromise text.now blanks (buffers_of run.old spare.old memory.old) result
        (buffers_of run.new spare.new memory.new) }
{
    let Read { number, order, z } = read_order(text);
    if number != 0 {
        return Delivery::Refused(number, z);
    }
    let g = order.geometry;
    // A usize has 64 bits, so `as` cuts nothing off.
    let size = bytes_of(g, g.n) as usize;
    let room = bytes_of(g, g.m) as usize;
    if spare.len() < size || memory.len() < room {
        return Delivery::NoRoom(size as u64);
    }
    if run.len() != size {
        return Delivery::Refused(Refusal::Length.number(), Address(0));
    }
    let spare = &mut spare[..size];
    let memory = &mut memory[..room];
    set_in_order(rt, order, blanks, again, progress, run, spare, memory);
    Delivery::Done
}
