//! What holds of each workload.

ghost use Rattle.std.specs.Prelude.{◌≡◌, ◌≤◌, ◌+◌, ℕ, Ok};
ghost use Rattle.b2_base.specs.BucketId.{bucket_id};
ghost use Rattle.b2_model.specs.LiveGrant.{token_text};
ghost use Rattle.event_script.specs.declared.script.Script.{Script as TheScript};
ghost use Rattle.event_script.specs.Script.{IsScript, GivesScript, Says, text_of};
ghost use Rattle.workload.specs.Requests.{account_token, upload_token, bucket};
ghost use Rattle.workload.specs.Workload.{workload, opened_in};

/// The text of a workload of so many requests opens three connections more.
pub fn one_connection_each()
    ensures { (seed n : ℕ) → opened_in (workload seed n) ≡ n + 3 }
{}

/// What the requests name is known before the run: the tokens are those of the boot number 1, the
/// serial numbers 1 and 2 and the random words 1 to 4, and the bucket is the first.
pub fn tokens_are_known()
    ensures account { account_token ≡ token_text 1 1 1 2 }
    ensures upload { upload_token ≡ token_text 1 2 3 4 }
    ensures bucket { bucket ≡ bucket_id 1 }
{}

/// A workload with no more lines that say `ready` than a script may have is a script, and a script
/// that its text is read as says the same.
pub fn small_workloads_are_scripts()
    ensures script { (seed n : ℕ) → n ≤ 16381 → IsScript (workload seed n) }
    ensures read { (seed n : ℕ) (s : TheScript) → n ≤ 16381
        → GivesScript (text_of (workload seed n)) (Ok s) → Says s (workload seed n) }
{}
