//! The names that a folder without a manifest may have.

ghost use Rattle.std.specs.Prelude.{◌≡◌, ◌↔◌, IsTrue, slice_index};
ghost use Rattle.ix_folder.specs.FolderNames.{IsFileName, IsLeftName, IsNumber, IsOwnName};

/// Whether a program may have left a file of this name in a folder that it was to write a first manifest to: the lock, the
/// new manifest, or a file by its number.
pub fn is_own_name(name: &str) -> bool
    ensures { IsTrue result ↔ IsOwnName name.now }
{
    name == "lock" || is_left_name(name)
}

/// Whether a program may have left a file of this name that no manifest names.
pub(crate) fn is_left_name(name: &str) -> bool
    ensures { IsTrue result ↔ IsLeftName name.now }
{
    name == "manifest.new" || is_file_name(name)
}

/// Whether it is the name of a file by its number.
fn is_file_name(name: &str) -> bool
    ensures { IsTrue result ↔ IsFileName name.now }
{
    if let Some(number) = name.strip_prefix("segment-") {
        return is_number(number);
    }
    match name.strip_prefix("removals-") {
        Some(number) => is_number(number),
        None => false,
    }
}

/// Whether it is a number of 64 bits in decimal, without leading zeros.
fn is_number(text: &str) -> bool
    ensures { IsTrue result ↔ IsNumber text.now }
{
    // A sign or a zero may be before a number.
    if first_byte(text) > b'0' {
        return text.parse::<u64>().is_ok();
    }
    text == "0"
}

/// The first byte; 0 if there is none.
fn first_byte(text: &str) -> u8
    ensures { result ≡ slice_index text.now 0 }
{
    match text.as_bytes() {
        [first, ..] => *first,
        [] => 0,
    }
}
