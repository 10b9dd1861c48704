//! What a pass looks at: a version's face, and the rule of a name.

ghost use Rattle.std.specs.Prelude.{◌≡◌, IfOk, IsTrue, List, map, option_map};
ghost use Rattle.name_rules.specs.Folder.{begins_with};
ghost use Rattle.std.specs.List.{list_all};
ghost use Rattle.b2_base.specs.declared.extent.Extent.{Extent as Place};
ghost use Rattle.b2_types.specs.declared.version.VersionOf.{VersionOf as TheVersion};
ghost use Rattle.b2_types.specs.LifecycleRules.{has_days};
ghost use Rattle.b2_model.specs.Checks.{some_and};
ghost use Rattle.b2_model.specs.Locks.{is_active, is_protected};
ghost use Rattle.b2_model.specs.Pass.{rule_for};
ghost use Rattle.lifecycle_pass.specs.Plans.{face_of};
ghost use Rattle.bucket_pass.specs.Changes.{IsPlanFor};

use b2_base::{Memory, Moment};
use b2_types::{Action, Bucket, Retention, Rule, Version};
use lifecycle_pass::{Face, Plan, plan_name};
use name_rules::is_prefix;
use std::alloc::Global;

fn is_active(retention: Option<Retention>, t: Moment) -> bool
    ensures { result ≡ some_and (is_active t) retention }
{
    match retention {
        Some(retention) => t.get() < retention.until.get(),
        None => false,
    }
}

#[tactic(auto, using(crate::proofs::Looks::held_or_active))]
// Whether Object Lock keeps the version.
fn is_protected(version: &Version, t: Moment) -> bool
    ensures { result ≡ is_protected t version.now }
{
    matches!(version.action, Action::Upload) & (version.hold | is_active(version.retention, t))
}

/// What a pass at the moment looks at in the version.
pub(crate) fn face(version: &Version, t: Moment) -> Face
    ensures { result ≡ face_of t version.now }
{
    Face {
        num: version.num,
        action: version.action,
        stamp: version.stamp,
        protected: is_protected(version, t),
    }
}

fn begins(rule: &Rule, name: &str) -> bool
    ensures { result ≡ begins_with rule.now.prefix name.now }
{
    is_prefix(rule.prefix.get().as_bytes(), name.as_bytes())
}

// The rule whose prefix begins the name.
fn rule_for<'a>(bucket: &'a Bucket, name: &str) -> Option<&'a Rule>
    ensures { option_map (λ r. r.now) result ≡ rule_for bucket.now name.now }
{
    bucket.rules.get().iter().find(|rule| begins(rule, name))
}

/// What a pass does to a name with these versions, where a rule holds for it.
pub(crate) fn plan_for(
    alloc: Global,
    bucket: &Bucket,
    name: &str,
    faces: &[Face],
    t: Moment,
    room: bool,
) -> Result<Option<Plan>, Memory>
    requires { IsTrue (list_all has_days bucket.now.rules) }
    ensures { IfOk result (λ plan. (versions : List (TheVersion Place))
        → map (face_of t) versions ≡ faces.now
        → IsPlanFor t (rule_for bucket.now name.now) room versions plan) }
{
    match rule_for(bucket, name) {
        Some(rule) => Ok(Some(plan_name(alloc, faces, rule, t, room)?)),
        None => Ok(None),
    }
}
