//! Which words ask for a replay.
ghost use Rattle.std.specs.Prelude.{◌≡◌, ◌&&◌, ◌∷◌, map};
ghost use Rattle.std.specs.String.{string_bytes};
ghost use Rattle.jsh_words.specs.Meant.{meaning, is_file, is_replay};
ghost use Rattle.jsh_words.specs.Lone.{is_end, is_lone_file};

use crate::checks::is_name;

// Nothing stands there, or one `--`.
fn is_end(words: &[String]) -> bool
    ensures { result ≡ is_end (map string_bytes words.now) }
{
    match words {
        [] => true,
        [word] => word.as_str() == "--",
        _ => false,
    }
}

// The name of a file, with nothing behind it.
fn is_alone(name: &[u8], behind: &[String]) -> bool
    ensures { result ≡ (is_file name.now && is_end (map string_bytes behind.now)) }
{
    is_name(name) && is_end(behind)
}

// The name of a file stands there alone.
fn is_lone_file(words: &[String]) -> bool
    ensures { result ≡ is_lone_file (map string_bytes words.now) }
{
    match words {
        [] => false,
        [name, behind @ ..] => is_alone(name.as_bytes(), behind),
    }
}

// The first word, with those behind it.
fn begins_replay(first: &str, behind: &[String]) -> bool
    ensures { result ≡ is_replay (meaning (first.now ∷ map string_bytes behind.now)) }
{
    if first == "--replay" {
        return is_lone_file(behind);
    }
    match first.as_bytes().strip_prefix(b"--replay=") {
        Some(name) => is_alone(name, behind),
        None => false,
    }
}

/// Whether the words are accepted and hold the option `--replay`, as they are where they mean a replay.
///
/// It takes no memory.
pub fn wants_replay(words: &[String]) -> bool
    ensures { result ≡ is_replay (meaning (map string_bytes words.now)) }
{
    match words {
        [] => false,
        [first, behind @ ..] => begins_replay(first.as_str(), behind),
    }
}
