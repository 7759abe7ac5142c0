//! Paths and their parts.

ghost use Rattle.std.specs.Prelude.{◌≡◌};
ghost use Rattle.desk_http.specs.Paths.{path_of, part_at, before_slash, after_slash};

/// The path of a target: what comes before its first `?`.
pub fn path_of(target: &str) -> &str
    ensures { result.now ≡ path_of target.now }
{
    match target.split_once('?') {
        Some((path, _)) => path,
        None => target,
    }
}

fn before_slash(path: &str) -> &str
    ensures { result.now ≡ before_slash path.now }
{
    match path.split_once('/') {
        Some((part, _)) => part,
        None => path,
    }
}

fn after_slash(path: &str) -> &str
    ensures { result.now ≡ after_slash path.now }
{
    match path.split_once('/') {
        Some((_, rest)) => rest,
        None => "",
    }
}

/// The part of a path after this many slashes.
pub fn part_at(path: &str, slashes: usize) -> &str
    ensures { result.now ≡ part_at slashes path.now }
{
    if slashes == 0 {
        return before_slash(path);
    }
    part_at(after_slash(path), slashes - 1)
}
