//! One event after the other.

ghost use Rattle.std.specs.Prelude.{◌≡◌, [], ℕ, List, length, OnOk};
ghost use Rattle.outside_traits.specs.Lists.{clock_ahead};
ghost use Rattle.outside_traits.specs.Memory.{link_ahead, link_sent};
ghost use Rattle.b2_model.specs.State.{State};
ghost use Rattle.served_world.specs.World.{start};
ghost use Rattle.request_acts.specs.Answering.{none_under_way, none_read, reads};
ghost use Rattle.event_loop.specs.Serving.{IsWilling};
ghost use Rattle.event_loop.specs.Turns.{HasRun};

use crate::events::serve_event;
use conn_table::Conns;
use outside_traits::{Clock, Link, ListClock, MemLink};
use request_acts::{Answering, End};
use std::alloc::Global;

/// Serves the events of a link, of which there are so many, each at the next reading of the clock.
pub fn serve<S: Answering>(
    alloc: Global,
    store: &mut S,
    link: &mut MemLink,
    clock: &mut ListClock,
    turns: usize,
) -> Result<(), End>
    requires somewhere { (M : State (List ℕ)) × (words : List ℕ)
        × S.at store.old M words none_under_way none_read }
    requires willing { IsWilling link.old }
    requires unsent { link_sent link.old ≡ [] }
    requires events { turns ≡ length (link_ahead link.old) }
    requires readings { turns ≡ length (clock_ahead clock.old) }
    ensures { OnOk result ((M : State (List ℕ)) (words : List ℕ)
        → S.at store.old M words none_under_way none_read
        → HasRun (reads S.call S.upload) (start M words) (link_ahead link.old)
        (clock_ahead clock.old) (link_sent link.new)) }
{
    let mut conns = Conns::new(alloc);
    'turns: for _ in 0..turns {
        let reading = clock.now();
        let Ok(event) = link.next() else {
            return Err(End::Memory);
        };
        serve_event(alloc, &mut conns, store, reading, &event, link)?;
    }
    Ok(())
}
