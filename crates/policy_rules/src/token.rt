//! The rules of the token: P1 to P6.

ghost use Rattle.std.specs.Prelude.{◌≡◌, nat_le};
ghost use Rattle.std.specs.List.{list_any};
ghost use Rattle.b2_model.specs.Kinds.{token_place};
ghost use Rattle.b2_model.specs.LiveGrant.{is_before_end};
ghost use Rattle.b2_model.specs.Checks.{first_fault};
ghost use Rattle.b2_model.specs.Policy.{token_rules, is_of_kinds};
ghost use Rattle.b2_model.specs.UploadSteps.{fits};
ghost use Rattle.policy_rules.specs.Asked.{caller};
ghost use Rattle.b2_types.specs.Denied.{denied};

use crate::asked::Asker;
use b2_base::Moment;
use b2_types::{Denial, Grant, Target, TokenKind};

fn place(kind: TokenKind) -> u8
    ensures { result ≡ token_place kind }
{
    match kind {
        TokenKind::Account => 0,
        TokenKind::UploadUrl => 1,
        TokenKind::PartUrl => 2,
        TokenKind::Download => 3,
    }
}

fn is_of_kinds(kinds: &[TokenKind], grant: &Grant) -> bool
    ensures { result ≡ is_of_kinds kinds.now grant.now }
{
    kinds.iter().any(|kind| place(*kind) == place(grant.kind))
}

// Whether the grant is one for the path.
fn is_for(target: Target, grant: &Grant) -> bool
    ensures { result ≡ fits target grant.now }
{
    match target {
        Target::Nothing => true,
        Target::Bucket(bucket) => grant.bucket.get() == bucket.get(),
        Target::File(bucket, file) => {
            (grant.bucket.get() == bucket.get()) & (grant.file.get() == file.get())
        }
    }
}

fn is_before(t: Moment, end: Option<Moment>) -> bool
    ensures { result ≡ is_before_end t end }
{
    match end {
        Some(end) => t.get() < end.get(),
        None => true,
    }
}

/// The first of the rules P1 to P6 that fails, for a call that takes these kinds of tokens at this path.
pub fn token_rule(
    asker: &Asker<'_>,
    kinds: &[TokenKind],
    target: Target,
    t: Moment,
) -> Result<(), Denial>
    ensures { denied result
        ≡ first_fault (token_rules t kinds.now (fits target) (caller asker.now)) }
{
    if asker.token.is_none() {
        return Err(Denial::P1);
    }
    let Some(grant) = asker.grant else {
        return Err(Denial::P2);
    };
    let is_right = is_of_kinds(kinds, grant) & is_for(target, grant);
    if !is_right {
        return Err(Denial::P3);
    }
    let Some(key) = asker.key else {
        return Err(Denial::P4);
    };
    if grant.end.get() <= t.get() {
        return Err(Denial::P5);
    }
    if !is_before(t, key.end) {
        return Err(Denial::P6);
    }
    Ok(())
}
