//! What a pass does to one name.

ghost use Rattle.std.specs.Prelude.{◌≡◌, ◌<◌, ℕ, ◌&&◌, ◌++◌, not, List, [], ◌∷◌, IsTrue, IfOk, OnOk, MatchOption, map, filter, if◌then◌else◌};
ghost use Rattle.b2_base.specs.declared.extent.Extent.{Extent as Place};
ghost use Rattle.b2_types.specs.declared.version.VersionOf.{VersionOf as Version};
ghost use Rattle.b2_types.specs.LifecycleRules.{has_days};
ghost use Rattle.b2_model.specs.Kinds.{is_hide, is_start};
ghost use Rattle.b2_model.specs.Pass.{all_go, drops, has_aged, is_due, lower_drops};
ghost use Rattle.lifecycle_pass.specs.Plans.{IsMarker, IsNewest, IsPlan, face_of, files, is_stale, numbers};

use b2_base::{List, Memory, Moment, VersionNum};
use b2_types::{Action, Rule};
use std::alloc::{AllocError, Global};

/// What a pass looks at in a version.
#[derive(Clone, Copy, Debug, PartialEq, Eq)]
pub struct Face {
    pub num: VersionNum,
    pub action: Action,
    pub stamp: Moment,
    /// Whether Object Lock keeps it at the moment of the pass.
    pub protected: bool,
}

/// What a pass does to one name.
#[derive(Debug, Drop)]
pub struct Plan {
    /// The starts that are cancelled.
    pub cancels: List<VersionNum>,
    /// Whether the name is hidden.
    pub hide: bool,
    /// The other versions that are removed.
    pub drops: List<VersionNum>,
}

/// The milliseconds of a day.
const DAY: u64 = 86_400_000;

fn is_start(action: Action) -> bool
    ensures { result ≡ is_start action }
{
    matches!(action, Action::Start)
}

fn has_aged(t: Moment, stamp: Moment, days: Option<u32>) -> bool
    ensures { result ≡ has_aged t stamp days }
{
    match days {
        Some(days) => stamp.get() + u64::from(days) * DAY <= t.get(),
        None => false,
    }
}

// Whether it goes, where the version above it is of this moment.
fn goes_under(above: Moment, face: &Face, rule: &Rule, t: Moment) -> bool
    ensures { result ≡ (has_aged t above rule.now.delete_days && not face.now.protected) }
{
    has_aged(t, above, rule.delete_days) & !face.protected
}

// The newest that is no start, and those below it.
fn newest(faces: &[Face]) -> Option<(&Face, &[Face])>
    ensures { (t : ℕ) (versions : List (Version Place)) → map (face_of t) versions ≡ faces.now
        → MatchOption result (files versions ≡ [])
        (λ n. IsNewest t versions n.0.now n.1.now) }
{
    for (place, face) in faces.iter().enumerate() {
        if !is_start(face.action) {
            return Some((face, &faces[place + 1..]));
        }
    }
    None
}

// Whether all of them go, where the version above them is of this moment.
fn all_go(above: Moment, faces: &[Face], rule: &Rule, t: Moment) -> bool
    ensures { (top : Version Place) (versions : List (Version Place)) → top.stamp ≡ above
        → map (face_of t) versions ≡ faces.now → result ≡ all_go t rule.now top (files versions) }
{
    let mut above = above;
    for face in faces {
        if !is_start(face.action) {
            if !goes_under(above, face, rule, t) {
                return false;
            }
            above = face.stamp;
        }
    }
    true
}

// Appends the numbers of those that go, where the version above them is of this moment.
fn push_lower(
    above: Moment,
    faces: &[Face],
    rule: &Rule,
    t: Moment,
    gone: &mut Vec<VersionNum>,
) -> Result<(), Memory>
    ensures { OnOk result ((top : Version Place) (versions : List (Version Place))
        → top.stamp ≡ above → map (face_of t) versions ≡ faces.now
        → gone.new.items ≡ gone.old.items ++ numbers
        (lower_drops t rule.now top (files versions))) }
{
    let mut above = above;
    for face in faces {
        if !is_start(face.action) {
            if goes_under(above, face, rule, t) {
                gone.push(face.num)?;
            }
            above = face.stamp;
        }
    }
    Ok(())
}

fn is_due(faces: &[Face], rule: &Rule, t: Moment) -> bool
    ensures { (versions : List (Version Place)) → map (face_of t) versions ≡ faces.now
        → result ≡ is_due t rule.now (files versions) }
{
    match newest(faces) {
        Some((top, _)) => {
            matches!(top.action, Action::Upload) & has_aged(t, top.stamp, rule.hide_days)
        }
        None => false,
    }
}

// The starts that were begun long enough ago.
fn stale(
    alloc: Global,
    faces: &[Face],
    rule: &Rule,
    t: Moment,
) -> Result<Vec<VersionNum>, AllocError>
    ensures { IfOk result (λ gone. gone.items ≡ map (λ f. f.num)
        (filter (λ f. is_start f.action && has_aged t f.stamp rule.now.cancel_days) faces.now)) }
{
    faces
        .iter()
        .filter(|face| is_start(face.action) & has_aged(t, face.stamp, rule.cancel_days))
        .map(|face| face.num)
        .collect(alloc)
}

// The same, of the versions.
fn cancels(
    alloc: Global,
    faces: &[Face],
    rule: &Rule,
    t: Moment,
) -> Result<List<VersionNum>, Memory>
    ensures { IfOk result (λ gone. (versions : List (Version Place))
        → map (face_of t) versions ≡ faces.now
        → gone ≡ numbers (filter (is_stale t rule.now) versions)) }
{
    Ok(List::of(stale(alloc, faces, rule, t)?))
}

// Those that go of a name that is not hidden now. A marker goes with the last that it hides.
fn drops(alloc: Global, faces: &[Face], rule: &Rule, t: Moment) -> Result<List<VersionNum>, Memory>
    ensures { IfOk result (λ gone. (versions : List (Version Place))
        → map (face_of t) versions ≡ faces.now
        → gone ≡ numbers (drops t rule.now (files versions))) }
{
    let mut gone = Vec::new(alloc);
    let Some((top, lower)) = newest(faces) else {
        return Ok(List::of(gone));
    };
    let is_marker = matches!(top.action, Action::Hide);
    if is_marker & all_go(top.stamp, lower, rule, t) & has_aged(t, top.stamp, rule.delete_days) {
        gone.push(top.num)?;
    }
    push_lower(top.stamp, lower, rule, t, &mut gone)?;
    Ok(List::of(gone))
}

// Those that go of a name that is hidden now: the new marker stays.
fn drops_below(
    alloc: Global,
    faces: &[Face],
    rule: &Rule,
    t: Moment,
) -> Result<List<VersionNum>, Memory>
    requires { IsTrue (has_days rule.now) }
    ensures { IfOk result (λ gone. (marker : Version Place) (versions : List (Version Place))
        → IsMarker t marker → map (face_of t) versions ≡ faces.now
        → gone ≡ numbers (drops t rule.now (marker ∷ files versions))) }
{
    let mut gone = Vec::new(alloc);
    push_lower(t, faces, rule, t, &mut gone)?;
    Ok(List::of(gone))
}

/// What a pass at the moment does by the rule to a name with these versions, newest first. `room` says
/// whether a version number is left: without one the name is not hidden.
pub fn plan_name(
    alloc: Global,
    faces: &[Face],
    rule: &Rule,
    t: Moment,
    room: bool,
) -> Result<Plan, Memory>
    requires { IsTrue (has_days rule.now) }
    ensures { IfOk result (λ plan. (versions : List (Version Place))
        → map (face_of t) versions ≡ faces.now → IsPlan t rule.now room versions plan) }
{
    let hide = is_due(faces, rule, t) & room;
    let cancels = cancels(alloc, faces, rule, t)?;
    let drops = if hide {
        drops_below(alloc, faces, rule, t)?
    } else {
        drops(alloc, faces, rule, t)?
    };
    Ok(Plan {
        cancels,
        hide,
        drops,
    })
}
