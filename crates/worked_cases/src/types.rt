//! Types of files by their names.

ghost use Rattle.std.specs.Prelude.{◌≡◌, codes, map};
ghost use Rattle.b2_model.specs.MediaTypes.{resolved_type};
ghost use Rattle.worked_cases.specs.Types.{type_of, texts, others, unusual};

/// The type is that of the extension, and one that is given stays.
pub fn type_by_extension()
    ensures texts { map type_of texts ≡ map (λ row. row.1) texts }
    ensures others { map type_of others ≡ map (λ row. row.1) others }
    ensures unusual { map type_of unusual ≡ map (λ row. row.1) unusual }
    ensures given { resolved_type (codes "text/plain") (codes "a.png") ≡ codes "text/plain" }
{}
