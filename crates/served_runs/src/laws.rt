//! Runs of all events.

ghost use Rattle.std.specs.Prelude.{◌≡◌, ℕ, List};
ghost use Rattle.b2_model.specs.State.{State};
ghost use Rattle.http_edge.specs.Received.{Received, IsReceived};
ghost use Rattle.conn_talk.specs.Asked.{Asked, IsAsked};
ghost use Rattle.served_world.specs.World.{Turn, World, start, Run};
ghost use Rattle.served_world.specs.Laws.{AreOne};
ghost use Rattle.served_runs.specs.Whole.{ReadsAll};

use served_world::Requests;

/// Whatever the bytes of a connection are, they come to something, and ask for something.
pub fn bytes_come_to_something()
    ensures received { (bytes : List ℕ) → (received : Received) × IsReceived bytes received }
    ensures asked { (before : ℕ) (bytes : List ℕ) → (asked : Asked) × IsAsked before bytes asked }
{}

/// From every state, for every list of events with the clock's readings and what the link took at
/// them, and for every list of random words, there is a run, where each request whose head is read
/// is a call or an upload; and where each is one, there is no other run.
pub fn every_list_has_a_run<Q: Requests>()
    ensures some { (M : State (List ℕ)) (words : List ℕ) (turns : List Turn)
        → ReadsAll (record { call = Q.call; upload = Q.upload })
        → (w : World)
        × Run (record { call = Q.call; upload = Q.upload }) (start M words) turns w }
    ensures one { (M : State (List ℕ)) (words : List ℕ) (turns : List Turn)
        → ReadsAll (record { call = Q.call; upload = Q.upload })
        → AreOne (record { call = Q.call; upload = Q.upload })
        → (w : World)
        × Run (record { call = Q.call; upload = Q.upload }) (start M words) turns w
        × ((v : World)
        → Run (record { call = Q.call; upload = Q.upload }) (start M words) turns v → v ≡ w) }
{}
