//! The loop of a clock.

ghost use Rattle.hubloops.specs.Loops.{observed};
ghost use Rattle.hubloops.specs.Ticker.{TicksOn, TicksUntil};

use crate::{Gate, LoopEnd};
use push_base::Clock;
use push_base::limits::MAX_MOMENT;
use pushserver::HubFault;

/// Asks the clock once, and hands its moment on. Gives the turns that are left.
fn tick_on<G: Gate, T: Clock>(gate: &mut G, clock: &mut T, turns: u64) -> Result<u64, LoopEnd>
    ensures { TicksOn (observed (G.state gate.old) (T.moments clock.old) (T.calls clock.old)) (observed (G.state gate.new) (T.moments clock.new) (T.calls clock.new)) turns result }
{
    if gate.done() {
        return Err(LoopEnd::Finished);
    }
    if turns == 0 {
        return Err(LoopEnd::Turns);
    }
    let moment = clock.tick().min(MAX_MOMENT);
    if turns == 1 {
        return Err(LoopEnd::Turns);
    }
    match gate.moment(moment) {
        Ok(()) => Ok(turns - 2),
        Err(HubFault::NoMemory) => Err(LoopEnd::NoMemory),
    }
}

/// Hands each moment of the clock to the hub, until nothing is left to do, or all turns were used. A turn is one tick or one
/// call of the hub.
pub fn clock_loop<G: Gate, T: Clock>(gate: &mut G, clock: &mut T, turns: u64) -> LoopEnd
    ensures { TicksUntil (observed (G.state gate.old) (T.moments clock.old) (T.calls clock.old)) (observed (G.state gate.new) (T.moments clock.new) (T.calls clock.new)) turns result }
{
    let mut left = turns;
    'turns: loop {
        match tick_on(gate, clock, left) {
            Ok(less) => left = less,
            Err(end) => return end,
        }
    }
}
