//! Paths, of small texts.

use bz_base::{CodeInfo, split_source};
use std::alloc::Global;
use std::borrow::CowStr;

/// Texts, with their directory and file. An empty text stands for none.
static SPLITS: [(&str, &str, &str); 14] = [
    ("/src/app/main.c", "/src/app", "main.c"),
    ("a//b/./c.c", "a//b", "c.c"),
    ("/c.c", "/", "c.c"),
    ("./c.c", ".", "c.c"),
    ("a/", "", "a"),
    ("/", "", "/"),
    (".", "", "."),
    ("", "", ""),
    ("c.c", "", "c.c"),
    ("/./", "", "/"),
    ("/./c.c", "/", "c.c"),
    ("a/../.", "a", ".."),
    (".//./", "", "."),
    ("ä/ö.c", "ä", "ö.c"),
];

/// Directories and files, with their path.
static PATHS: [(&str, &str, &str); 4] = [
    ("/foobar", "source.c", "/foobar/source.c"),
    ("a/", "b", "a/b"),
    ("a", "/b", "/b"),
    ("", "b", "b"),
];

/// Whether a directory is this one, where an empty text stands for none.
fn is_directory(directory: Option<&str>, want: &str) -> bool {
    match directory {
        Some(directory) => !directory.is_empty() && directory == want,
        None => want.is_empty(),
    }
}

/// Whether a text has this directory and file, where an empty text stands for none.
fn splits_into(text: &str, directory: &str, file: &str) -> bool {
    match split_source(text) {
        Some((front, last)) => is_directory(front, directory) && !last.is_empty() && last == file,
        None => directory.is_empty() && file.is_empty(),
    }
}

/// Whether this is the path of the site's file.
fn has_path(alloc: Global, site: &CodeInfo<'_>, want: &str) -> bool {
    match site.to_path(alloc) {
        Ok(path) => path.as_str() == want,
        Err(_) => false,
    }
}

/// Whether this is the path of a file in a directory, or of a file without one.
fn joins_to(alloc: Global, dir: Option<CowStr<'_>>, file: &str, want: &str) -> bool {
    let site = CodeInfo {
        dir,
        file: CowStr::Borrowed(file),
        line: None,
        column: None,
    };
    has_path(alloc, &site, want)
}

#[test]
fn splits_and_joins_paths(rt: HostRuntime) {
    for (text, directory, file) in &SPLITS {
        assert!(rt; splits_into(text, directory, file), "'{text}' is split");
    }
    for (directory, file, want) in &PATHS {
        assert!(rt;
            joins_to(rt.alloc(), Some(CowStr::Borrowed(directory)), file, want),
            "'{want}' is joined"
        );
    }
    assert!(rt;
        joins_to(rt.alloc(), None, "source.c", "source.c"),
        "a file alone"
    );
}
