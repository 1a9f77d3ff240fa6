//! Directory and file of a path.

ghost use Rattle.std.specs.Prelude.{◌≡◌, ◌<◌, true, length, option_map, IfNone, IfSome};
ghost use Rattle.bz_bytes.specs.Path.{begins_with_slash, last_byte, last_live, pieces, slash_after, split, CutsDead, EndsLive};

/// Whether the path begins with a slash. A file's path that does so isn't relative to a directory.
pub fn begins_with_slash(path: &str) -> bool
    ensures { result ≡ begins_with_slash path.now }
{
    match path.as_bytes() {
        [first, ..] => *first == b'/',
        [] => false,
    }
}

/// The slash to put between a directory and a file in it: none where the directory is empty or ends
/// in a slash.
pub fn slash_after(dir: &str) -> &'static str
    ensures { result.now ≡ slash_after (last_byte dir.now) }
{
    match dir.as_bytes().last() {
        Some(last) => if *last == b'/' { "" } else { "/" },
        None => "",
    }
}

/// Directory and file of the path of a source file. A piece between its slashes is dead if it is
/// empty, or if it is a dot and isn't the first. The file is the last live piece. The directory is the
/// text to the end of the live piece before that. Where none is before it, the directory is `/` if the
/// text begins with a slash, and else there is none. Where no piece is live, the file is `/` and has
/// no directory; but the empty text has neither.
pub fn split_source<'a>(text: &'a str) -> Option<(Option<&'a str>, &'a str)>
    ensures { option_map (λ parts. (option_map (λ directory. directory.now) parts.0, parts.1.now)) result ≡ split text.now }
{
    let kept = up_to_live(text);
    if kept.is_empty() {
        return if text.is_empty() {
            None
        } else {
            Some((None, "/"))
        };
    }
    let Some((before, file)) = kept.rsplit_once('/') else {
        return Some((None, kept));
    };
    let directory = up_to_live(before);
    if directory.is_empty() {
        Some((Some("/"), file))
    } else {
        Some((Some(directory), file))
    }
}

/// The text from its start to the end of its last live piece.
fn up_to_live(text: &str) -> &str
    ensures live { last_live true (pieces result.now) ≡ last_live true (pieces text.now) }
    ensures rooted { 0 < length result.now → begins_with_slash result.now ≡ begins_with_slash text.now }
    ensures ends { EndsLive result.now }
{
    let mut kept = text;
    while let Some(front) = without_dead(kept) {
        kept = front;
    }
    kept
}

/// The text without its last piece and the slash before it, if that piece is dead.
fn without_dead(text: &str) -> Option<&str>
    ensures some { IfSome result (λ front. CutsDead text.now front.now) }
    ensures none { IfNone result (EndsLive text.now) }
{
    match text.strip_suffix('/') {
        Some(front) => Some(front),
        None => text.strip_suffix('.')?.strip_suffix('/'),
    }
}
