//! What follows of sound states for numbers, tokens and uploads under way.
#![tactic(auto)]

ghost use Rattle.std.specs.Prelude.{◌≡◌, ◌≢◌, ℕ, ◌<◌, ◌^◌, List, ◌∷◌, ◌++◌, Option, Some, All};
ghost use Rattle.std.specs.List.{AllPairs};
ghost use Rattle.b2_base.specs.declared.settings.Settings.{Settings as TheSettings};
ghost use Rattle.b2_types.specs.declared.key.Flight.{Flight as TheFlight};
ghost use Rattle.b2_types.specs.declared.key.Grant.{Grant as TheGrant};
ghost use Rattle.b2_model.specs.State.{State, Pieces};
ghost use Rattle.b2_model.specs.LiveGrant.{grant_at};
ghost use Rattle.b2_model.specs.Changes.{new_store};
ghost use Rattle.b2_model.specs.UploadSteps.{flight_of};
ghost use Rattle.b2_model.specs.Stored.{numbers_of};
ghost use Rattle.b2_model.specs.Run.{Step, Progress, run};
ghost use Rattle.sound_states.specs.Sound.{IsBefore, IsFor, IsSound, Names};
ghost use Rattle.sound_steps.specs.FitSteps.{IsFitStep};
ghost use Rattle.given_once.specs.Numbers.{NeverAgain};
ghost use Rattle.given_once.specs.Tokens.{token_given};

/// No number of a bucket, a version or a key that was given is given again in a run: what is new
/// has the next number, and the next number never falls.
#[tactic(auto)]
pub fn numbers_are_given_once<C>()
    ensures { (K : Pieces C) (M : State C) (words : List ℕ) (steps : List (Step C))
        → NeverAgain M (run K M words steps).state }
{}

/// The texts of the tokens that a run gives differ, restarts included, as long as the count of
/// openings fits its eight digits: of a later token the boot number or the serial is greater.
#[tactic(auto)]
pub fn tokens_differ<C>()
    ensures { (K : Pieces C) (M : State C) (words : List ℕ) (earlier later : List (Step C))
        (s u : Step C) (g h : TheGrant)
        → M.serial < 2 ^ 64 → (run K M words (earlier ++ s ∷ later)).state.boot < 2 ^ 32
        → token_given K (run K M words earlier) s ≡ Some g
        → token_given K (run K M words (earlier ++ s ∷ later)) u ≡ Some h → g.text ≢ h.text }
{}

/// In each state of a run of a store that was made, the tokens stand by their texts; and the token
/// that a step gives stands after all that stood.
#[tactic(auto)]
pub fn tokens_stand_by_text<C>()
    ensures run { (K : Pieces C) (settings : TheSettings) (t : ℕ) (words : List ℕ)
        (steps : List (Step C)) → All IsFitStep steps
        → AllPairs (λ g h. IsBefore g.text h.text)
        (run K (new_store settings t) words steps).state.grants }
    ensures last { (K : Pieces C) (P : Progress C) (s : Step C) (g : TheGrant)
        → IsSound P.state → token_given K P s ≡ Some g
        → All (λ h. IsBefore h.text g.text) P.state.grants }
{}

/// The token of an upload under way stands, and is one for what the upload names; no other upload
/// is under way on it.
#[tactic(auto)]
pub fn uploads_have_their_tokens<C>()
    ensures token { (M : State C) (conn : ℕ) (f : TheFlight) → IsSound M
        → flight_of M conn ≡ Some f
        → ((g : TheGrant) × (grant_at M f.token ≡ Some g) × IsFor f.upload g) }
    ensures alone { (M : State C) (conn other : ℕ) (f h : TheFlight) → IsSound M
        → flight_of M conn ≡ Some f → flight_of M other ≡ Some h
        → f.token ≡ h.token → conn ≡ other }
{}

/// No token is of the next key: a new key takes over none of a key that was deleted.
#[tactic(auto)]
pub fn new_keys_have_no_tokens<C>()
    ensures { (M : State C) → IsSound M → All (λ g. g.key ≢ M.next_key) M.grants }
{}

/// What a token names was given: its key, and by its kind its bucket and its file. None of them
/// need stand any more.
#[tactic(auto)]
pub fn tokens_name_what_was_given<C>()
    ensures { (M : State C) (text : List ℕ) (g : TheGrant) → IsSound M
        → grant_at M text ≡ Some g → (g.key < M.next_key) × Names (numbers_of M) g.kind g }
{}
