//! Requests whose text is in a file.

ghost use Rattle.std.specs.Prelude.{◌≡◌, option_map};
ghost use Rattle.desk_assignments.specs.Sources.{at_path, seen_source, source_of};

use desk_base::Profile;
use desk_json::Request;
use desk_model::Command;

/// The file that holds the text of a request, by its path.
#[derive(Clone, Copy)]
pub enum Source<'a> {
    /// A document is imported, whose operators are written by the profile.
    Document(&'a str, Profile),
    /// A catalogue is loaded.
    Catalogue(&'a str),
}

/// The path behind the `@` with which a text begins.
fn at_path(bytes: &[u8]) -> Option<&str>
    ensures { option_map (λ path. path.now) result ≡ at_path bytes.now }
{
    let (first, path) = bytes.split_first()?;
    if *first != b'@' {
        return None;
    }
    match str::from_utf8(path) {
        Ok(path) => Some(path),
        Err(_) => None,
    }
}

/// The file of a request, if it is an import or a catalogue whose text is `@` and a path. A text that
/// begins with `@` itself has to be in a file.
pub fn source_of(request: &Request) -> Option<Source<'_>>
    ensures { option_map seen_source result ≡ source_of request.now }
{
    match request {
        Request::Act(Command::Import { bytes, profile }) => {
            Some(Source::Document(at_path(bytes.as_slice())?, *profile))
        }
        Request::Act(Command::LoadCatalogue { text }) => {
            Some(Source::Catalogue(at_path(text.as_str().as_bytes())?))
        }
        _ => None,
    }
}
