//! Prefixes of names, and the folders that a delimiter makes of them.

ghost use Rattle.std.specs.Prelude.{◌≡◌, ◌↔◌, ◌<◌, ℕ, List, None, Some, length, drop};
ghost use Rattle.name_rules.specs.Folder.{begins_with, folder_end, IsFolderEnd, HasNoFolder};

/// Whether the name begins with the prefix.
pub fn is_prefix(prefix: &[u8], name: &[u8]) -> bool
    ensures { result ≡ begins_with prefix.now name.now }
{
    name.starts_with(prefix)
}

/// The length of the name's folder: up to the end of the first delimiter after the prefix.
pub fn folder_of(name: &[u8], prefix: &[u8], delimiter: &[u8]) -> Option<usize>
    ensures { result
        ≡ folder_end delimiter.now (length prefix.now) (drop (length prefix.now) name.now) }
{
    let mut at = prefix.len();
    'places: while at < name.len() {
        if is_prefix(delimiter, &name[at..]) {
            return Some(at + delimiter.len());
        }
        at += 1;
    }
    None
}

/// A folder ends with the first delimiter that stands at or after the prefix's end.
pub fn folder_ends()
    ensures end { (name delimiter : List ℕ) (start end : ℕ) → 0 < length delimiter
        → (folder_end delimiter start (drop start name) ≡ Some end)
        ↔ IsFolderEnd name delimiter start end }
    ensures none { (name delimiter : List ℕ) (start : ℕ) → 0 < length delimiter
        → (folder_end delimiter start (drop start name) ≡ None)
        ↔ HasNoFolder name delimiter start }
{}
