//! What holds of all runs.

ghost use Rattle.std.specs.Prelude.{◌≡◌, ℕ, List, [], Some, None, option_map};
ghost use Rattle.std.specs.List.{flat_map};
ghost use Rattle.std.specs.Option.{is_some};
ghost use Rattle.b2_model.specs.State.{State};
ghost use Rattle.b2_model.specs.UploadSteps.{flight_of};
ghost use Rattle.conn_talk.specs.Talk.{is_uploading};
ghost use Rattle.served_world.specs.Replies.{Reads};
ghost use Rattle.served_world.specs.World.{Turn, Conn, World, start, Run};
ghost use Rattle.served_world.specs.Served.{IsServed, IsShown, bytes_on};
ghost use Rattle.served_world.specs.Laws.{AreOne, HasNone, IsUnfinished};

use crate::reads::Requests;

/// Every run has the statement: each connection was sent a front of the replies to its requests,
/// each of them a refusal of its form or the machine's answer to a step of its own, and the state
/// is the machine's after these steps.
pub fn every_run_is_served<Q: Requests>()
    ensures { (M : State (List ℕ)) (words : List ℕ) (turns : List Turn) (w : World)
        → Run (record { call = Q.call; upload = Q.upload }) (start M words) turns w
        → IsServed (record { call = Q.call; upload = Q.upload }) M words w }
{}

/// What the link has of a number is what was sent on its connections, one after the other.
pub fn link_has_what_was_sent<Q: Requests>()
    ensures { (M : State (List ℕ)) (words : List ℕ) (turns : List Turn) (w : World)
        → Run (record { call = Q.call; upload = Q.upload }) (start M words) turns w → IsShown w }
{}

/// The events, the readings of the clock, the random words and what the link took determine the
/// run, where a request is one call.
pub fn one_run<Q: Requests>()
    ensures { (M : State (List ℕ)) (words : List ℕ) (turns : List Turn) (w v : World)
        → AreOne (record { call = Q.call; upload = Q.upload })
        → Run (record { call = Q.call; upload = Q.upload }) (start M words) turns w
        → Run (record { call = Q.call; upload = Q.upload }) (start M words) turns v
        → w ≡ v }
{}

/// Nothing is sent on a connection of which no request came whole or was refused; and where there
/// is no such request, no byte is sent at all.
pub fn nothing_sent_unasked<Q: Requests>()
    ensures conn { (M : State (List ℕ)) (words : List ℕ) (turns : List Turn) (w : World)
        (c : ℕ) (k : Conn)
        → Run (record { call = Q.call; upload = Q.upload }) (start M words) turns w
        → w.conns c ≡ Some k → HasNone k.name w.answered → k.sent ≡ [] }
    ensures link { (M : State (List ℕ)) (words : List ℕ) (turns : List Turn) (w : World)
        → Run (record { call = Q.call; upload = Q.upload }) (start M words) turns w
        → w.answered ≡ [] → (c : ℕ) → flat_map (bytes_on c) w.sends ≡ [] }
{}

/// Every whole request has its reply, and so has each whose form or begin is refused: of an open
/// connection without one nothing came yet, or its bytes are no whole request. A list of events
/// that ends here leaves no other request open.
pub fn whole_requests_are_answered<Q: Requests>()
    ensures { (M : State (List ℕ)) (words : List ℕ) (turns : List Turn) (w : World)
        (c : ℕ) (k : Conn) → M.flights ≡ []
        → Run (record { call = Q.call; upload = Q.upload }) (start M words) turns w
        → w.conns c ≡ Some k → k.talk.reply ≡ None → IsUnfinished k.talk }
{}

/// An upload is under way in the machine exactly where one began on the open connection of that
/// number and has no reply.
pub fn uploads_are_on_connections<Q: Requests>()
    ensures { (M : State (List ℕ)) (words : List ℕ) (turns : List Turn) (w : World)
        (c : ℕ) → M.flights ≡ []
        → Run (record { call = Q.call; upload = Q.upload }) (start M words) turns w
        → is_some (flight_of w.machine.state c)
        ≡ is_uploading (option_map (λ (k : Conn). k.talk) (w.conns c)) }
{}
