//! Laws on what is sent and shown.

ghost use Rattle.std.specs.Prelude.{◌≡◌, ℕ, List};
ghost use Rattle.served_world.specs.Laws.{AreOne};
ghost use Rattle.b2_server.specs.Answer.{reads};
ghost use Rattle.b2_server.specs.Run.{HasOutput, IsServedOutput};

use event_script::one_first_wrong_line;

/// A request is one call at most, and a script has one output.
pub fn one_output()
    ensures request { AreOne reads }
    ensures output { (bytes first second : List ℕ) → HasOutput bytes first
        → HasOutput bytes second → first ≡ second }
{
    one_first_wrong_line();
}

/// A script's output shows what a server sends by the statement that knows nothing of events: each
/// connection was sent a front of the replies to its requests, each of them a refusal of its form or
/// the machine's answer to a step of its own, and nothing else was sent.
pub fn served_output()
    ensures { (bytes output : List ℕ) → HasOutput bytes output → IsServedOutput bytes output }
{}
