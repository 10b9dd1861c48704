//! Bodies of authorize calls.

ghost use Rattle.std.specs.Prelude.{◌≡◌, [], ◌∷◌, length};
ghost use Rattle.b2_types.specs.declared.kinds.ApiVersion.TheVariants.{V3, V4};
ghost use Rattle.worked_rows.specs.Authorize.{authorization, other_secret, no_header};
ghost use Rattle.worked_rows.specs.Store.{photos_1};
ghost use Rattle.worked_cases.specs.Keys.{authorize_under};
ghost use Rattle.worked_answers.specs.Bodies.{body};
ghost use Rattle.worked_answers.specs.Accounts.{limit_account};
ghost use Rattle.worked_answers.specs.AccountTexts.{account_text, limit_text, limit_text_4, gone_text, gone_text_4, unknown_text, no_token_text, many_buckets_text};

/// The master key has each capability, and no limit.
pub fn authorize_body()
    ensures text { body authorization.answer ≡ account_text }
    ensures length { length account_text ≡ 889 }
{}

/// A limited key is told its bucket and its prefix, and of a bucket that is gone the id alone.
pub fn limited_authorize_body()
    ensures third_version { body (limit_account V3 (photos_1 ∷ [])).answer ≡ limit_text }
    ensures fourth_version { body (limit_account V4 (photos_1 ∷ [])).answer ≡ limit_text_4 }
    ensures gone { body (limit_account V3 []).answer ≡ gone_text }
    ensures gone_fourth { body (limit_account V4 []).answer ≡ gone_text_4 }
{}

/// What is refused is told with its code, its text and its status.
pub fn refused_authorize_body()
    ensures secret { body other_secret.answer ≡ unknown_text }
    ensures length { length unknown_text ≡ 75 }
    ensures header { body no_header.answer ≡ no_token_text }
    ensures buckets { body (authorize_under V3).answer ≡ many_buckets_text }
{}
