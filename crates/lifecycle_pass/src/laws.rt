//! Laws of a pass.

ghost use Rattle.std.specs.Prelude.{◌≡◌, ◌≢◌, ℕ, List, Option, Some, nat_le};
ghost use Rattle.b2_types.specs.declared.bucket.Rule.{Rule};
ghost use Rattle.b2_model.specs.State.{State};
ghost use Rattle.b2_types.specs.declared.bucket.Bucket.{Bucket};
ghost use Rattle.b2_model.specs.Rows.{rows};
ghost use Rattle.b2_model.specs.Pass.{names_in, pass_names, pass_on};
ghost use Rattle.lifecycle_pass.specs.Buckets.{ArePlans, after_plans};
ghost use Rattle.lifecycle_pass.specs.declared.plans.Plan.{Plan as Drawn};
ghost use Rattle.lifecycle_pass.specs.Plans.{IsPlan};
ghost use Rattle.lifecycle_pass.specs.Names.{AreNumbered, after_plan, others, rows_of};

/// What a pass does to a name leaves the versions of every other name as they are, and numbers stay
/// those of one name each.
#[tactic(auto, using(crate::proofs::OtherNames::others_stay, crate::proofs::OtherNames::numbers_stay, crate::proofs::SortedRows::seen_still))]
pub fn other_names_stay<C>()
    ensures versions { (t bucket : ℕ) (name : List ℕ) (rule : Option Rule) (M : State C)
        → AreNumbered M → others bucket name (pass_on t bucket name rule M).versions
        ≡ others bucket name M.versions }
    ensures numbers { (t bucket : ℕ) (name : List ℕ) (rule : Option Rule) (M : State C)
        → AreNumbered M → AreNumbered (pass_on t bucket name rule M) }
    ensures seen { (t bucket : ℕ) (name other : List ℕ) (rule : Option Rule) (M : State C)
        → AreNumbered M → name ≢ other
        → rows_of (pass_on t bucket other rule M) bucket name ≡ rows_of M bucket name }
{}

/// What a plan says of a name is what the machine's pass does to it.
#[tactic(auto, using(crate::proofs::PlanPass::carried_out))]
pub fn plan_is_the_pass<C>()
    ensures { (t bucket : ℕ) (name : List ℕ) (rule : Rule) (M : State C) (plan : Drawn)
        → AreNumbered M
        → IsPlan t rule (nat_le M.next_version M.settings.last_version)
        (rows_of M bucket name) plan
        → pass_on t bucket name (Some rule) M ≡ after_plan t bucket name plan M }
{}

/// Plans for the names of a bucket, all of them from what stood before the first, are what the machine's
/// pass does to the bucket: so one walk over its rows is enough.
#[tactic(auto, using(crate::proofs::WholeBucket::whole_bucket))]
pub fn plans_are_the_pass<C>()
    ensures { (t : ℕ) (bucket : Bucket) (M : State C) (plans : List (Option Drawn))
        → AreNumbered M
        → ArePlans t bucket M M.next_version (names_in (rows M bucket.num)) plans
        → pass_names t bucket (names_in (rows M bucket.num)) M
        ≡ after_plans t bucket.num (names_in (rows M bucket.num)) plans M }
{}
