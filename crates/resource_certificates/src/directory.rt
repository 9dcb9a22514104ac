//! Files of a directory, by their URIs.

ghost use Rattle.std.specs.Prelude.{◌≡◌, option_map};
ghost use Rattle.resource_certificates.specs.Directories.{is_name as is_name_of, is_name_behind as is_name_behind_of, ends_in_slash as ends_in_slash_of};
ghost use Rattle.resource_certificates.specs.Directories.{is_file_of as is_file_of_directory, names_file as names_file_of};

/// Whether this is one name.
fn is_name(name: &[u8]) -> bool
    ensures { result ≡ is_name_of name.now }
{
    !name.is_empty() && !name.contains(&b'/')
}

/// Whether this is a slash and one name.
fn is_name_behind(rest: &[u8]) -> bool
    ensures { result ≡ is_name_behind_of rest.now }
{
    match rest {
        [b'/', name @ ..] => is_name(name),
        _ => false,
    }
}

/// Whether the last octet is a slash.
fn ends_in_slash(uri: &[u8]) -> bool
    ensures { result ≡ ends_in_slash_of uri.now }
{
    match uri {
        [.., last] => *last == b'/',
        [] => false,
    }
}

/// Whether this is the URI of a file of a directory.
fn is_file_of(directory: &[u8], uri: &[u8]) -> bool
    ensures { result ≡ is_file_of_directory directory.now uri.now }
{
    let length = directory.len();
    if uri.len() < length || &uri[..length] != directory {
        return false;
    }
    if ends_in_slash(directory) {
        return is_name(&uri[length..]);
    }
    is_name_behind(&uri[length..])
}

/// Whether both URIs are there, and the second is that of a file of the first.
pub(crate) fn names_file(directory: Option<&[u8]>, uri: Option<&[u8]>) -> bool
    ensures { result ≡ names_file_of (option_map (λ u. u.now) directory.entry) (option_map (λ u. u.now) uri.entry) }
{
    match (directory, uri) {
        (Some(directory), Some(uri)) => is_file_of(directory, uri),
        _ => false,
    }
}
