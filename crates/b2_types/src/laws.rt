//! Laws of the tables.

ghost use Rattle.std.specs.Prelude.{◌≡◌, Some};
ghost use Rattle.std.specs.Option.{is_some};
ghost use Rattle.b2_types.specs.declared.call.Call.{Call as TheCall};
ghost use Rattle.b2_types.specs.declared.need_table.Thing.TheVariants.{Account, Bucket, SomeBucket, PathBucket, File, Source, Name, Prefix};
ghost use Rattle.rule_table.specs.declared.fault.FaultKind.{FaultKind as TheKind};
ghost use Rattle.b2_types.specs.declared.denial.Denial.{Denial as TheRule};
ghost use Rattle.b2_types.specs.Denied.{kind_of};
ghost use Rattle.b2_types.specs.FaultTable.{rule_of};
ghost use Rattle.b2_types.specs.Need.{name_of, names};
ghost use Rattle.b2_types.specs.Naming.{IsInForm, fields_of};

/// What the row of a call names is what is read from its fields: it names a thing exactly where the fields
/// give one.
#[tactic(auto, using(crate::proofs::Rows::names_account, crate::proofs::Rows::names_bucket, crate::proofs::Rows::names_some, crate::proofs::Rows::names_path, crate::proofs::Rows::names_file, crate::proofs::Rows::names_source, crate::proofs::Rows::names_name, crate::proofs::Rows::names_prefix))]
pub fn rows_and_fields()
    ensures account { (c : TheCall) → IsInForm c → names Account (name_of c)
        ≡ is_some (fields_of c).account }
    ensures bucket { (c : TheCall) → IsInForm c → names Bucket (name_of c)
        ≡ is_some (fields_of c).bucket }
    ensures some { (c : TheCall) → IsInForm c → names SomeBucket (name_of c)
        ≡ is_some (fields_of c).some_bucket }
    ensures path { (c : TheCall) → IsInForm c → names PathBucket (name_of c)
        ≡ is_some (fields_of c).path_bucket }
    ensures file { (c : TheCall) → IsInForm c → names File (name_of c)
        ≡ is_some (fields_of c).file }
    ensures source { (c : TheCall) → IsInForm c → names Source (name_of c)
        ≡ is_some (fields_of c).source }
    ensures name { (c : TheCall) → IsInForm c → names Name (name_of c)
        ≡ is_some (fields_of c).name }
    ensures prefix { (c : TheCall) → IsInForm c → names Prefix (name_of c)
        ≡ is_some (fields_of c).prefix }
{}

/// Each rule has a kind of fault of its own, which names it, and no other kind names it.
#[tactic(auto, using(crate::proofs::Denied::back, crate::proofs::Denied::alone))]
pub fn rules_and_kinds()
    ensures back { (rule : TheRule) → rule_of (kind_of rule) ≡ Some rule }
    ensures alone { (kind : TheKind) (rule : TheRule) → rule_of kind ≡ Some rule
        → kind ≡ kind_of rule }
{}
