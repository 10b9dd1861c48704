//! Bodies of calls on keys.

ghost use Rattle.std.specs.Prelude.{◌≡◌, None, Some};
ghost use Rattle.b2_types.specs.declared.kinds.ApiVersion.TheVariants.{V3, V4};
ghost use Rattle.worked_rows.specs.Keys.{short};
ghost use Rattle.worked_rows.specs.Limited.{key_deletion};
ghost use Rattle.worked_answers.specs.Bodies.{body};
ghost use Rattle.worked_answers.specs.Accounts.{bucket_key, free_key, key_of_two, keys_from, second_id};
ghost use Rattle.worked_answers.specs.AccountTexts.{new_key_text, new_key_text_4, free_key_text_4, key_text, two_text, two_text_4, keys_text, last_keys_text};

/// A new key is shown with its secret.
pub fn new_key_bodies()
    ensures third_version { body short.answer ≡ new_key_text }
    ensures fourth_version { body bucket_key.answer ≡ new_key_text_4 }
    ensures of_no_bucket { body free_key.answer ≡ free_key_text_4 }
{}

/// A key that was deleted is shown without it; version 3 says where its buckets are several.
pub fn key_bodies()
    ensures limited { body key_deletion.answer ≡ key_text }
    ensures third_version { body (key_of_two V3).answer ≡ two_text }
    ensures fourth_version { body (key_of_two V4).answer ≡ two_text_4 }
{}

/// A page of keys tells the id of the next.
pub fn keys_bodies()
    ensures first { body (keys_from None).answer ≡ keys_text }
    ensures last { body (keys_from (Some second_id)).answer ≡ last_keys_text }
{}
