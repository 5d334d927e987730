// Paths and URIs that were worked out apart from this crate, by the URL Standard and RFC 3986.
use uri_paths::UriError;

/// URIs, and the path that each names or the reason why it names none.
pub static READ: [(&str, Result<&str, UriError>); 51] = [
    ("file:///p/a.c", Ok("/p/a.c")),
    ("file:///", Ok("/")),
    ("file:/p/a.c", Ok("/p/a.c")),
    ("file:p", Ok("/p")),
    ("file:", Ok("/")),
    ("FILE:///a", Ok("/a")),
    ("file:///a%20b", Ok("/a b")),
    ("file:///a b", Ok("/a b")),
    ("file:///a%2Fb", Ok("/a/b")),
    ("file:///a%2F..", Err(UriError::NotText)),
    ("file:///a%00b", Err(UriError::NotText)),
    ("file:///%FF", Err(UriError::NotText)),
    ("file:///%E2%82%AC", Ok("/\u{20ac}")),
    ("file://host/a", Err(UriError::HasHost)),
    ("file://localhost/a", Ok("/a")),
    ("file://HOST/a", Err(UriError::HasHost)),
    ("file:///a/../b", Ok("/b")),
    ("file:///a/./b", Ok("/a/b")),
    ("file:///a/%2e%2e/b", Ok("/b")),
    ("file:///..", Ok("/")),
    ("file:///a//b///", Ok("/a/b")),
    ("file:////a", Ok("/a")),
    ("file:///a?q#f", Ok("/a")),
    ("file:///a#f", Ok("/a")),
    ("file:///c:/x", Ok("/c:/x")),
    ("file:///c|/x", Ok("/c:/x")),
    ("file://c:/x", Ok("/c:/x")),
    ("http://x/a", Err(UriError::NotFile)),
    ("http://", Err(UriError::NotUrl)),
    ("untitled:a", Err(UriError::NotFile)),
    ("", Err(UriError::NotUrl)),
    ("a", Err(UriError::NotUrl)),
    ("/p/a.c", Err(UriError::NotUrl)),
    ("file", Err(UriError::NotUrl)),
    ("file:\\\\\\a\\b", Ok("/a/b")),
    ("  file:///a  ", Ok("/a")),
    ("fi\tle:///a", Ok("/a")),
    ("file:///\u{e9}", Ok("/\u{e9}")),
    ("file:///a%", Ok("/a%")),
    ("file:///a%zz", Ok("/a%zz")),
    ("file:///%2E", Ok("/")),
    ("file:///%2e%2e%2fa", Err(UriError::NotText)),
    ("file:///.%2e/a", Ok("/a")),
    ("file:///a/%2E", Ok("/a")),
    ("file:///a/..%2Fb", Err(UriError::NotText)),
    ("file:///a%5Cb", Ok("/a\\b")),
    ("urn:x:y", Err(UriError::NotFile)),
    ("file://a b/c", Err(UriError::NotUrl)),
    ("file:///a%2F%2Fb", Ok("/a/b")),
    ("file:///a/.b", Ok("/a/.b")),
    ("file:///a/..b", Ok("/a/..b")),
];

/// Paths and their URIs.
pub static WRITTEN: [(&str, &str); 9] = [
    ("/", "file:///"),
    ("/p/a.c", "file:///p/a.c"),
    ("/a b", "file:///a%20b"),
    ("/\u{e9}", "file:///%C3%A9"),
    ("/a%b", "file:///a%25b"),
    ("/~x-_.", "file:///~x-_."),
    ("/a+b&c=d;e", "file:///a%2Bb%26c%3Dd%3Be"),
    ("/\u{1f600}", "file:///%F0%9F%98%80"),
    ("/c:/x", "file:///c%3A/x"),
];

/// Folders, names and the paths that the names mean in them.
pub static WITHIN: [(&str, &str, Option<&str>); 9] = [
    ("/", "a", Some("/a")),
    ("/p", "../a", Some("/a")),
    ("/p", "../../a", None),
    ("/p/q", "./x//y/.", Some("/p/q/x/y")),
    ("/p", "/x/../y", Some("/y")),
    ("/p", "", Some("/p")),
    ("/p", "/..", None),
    ("/", "..", None),
    ("/a/b", "../../..", None),
];

/// Files, names and the paths that the names mean beside them.
pub static BESIDE: [(&str, &str, Option<&str>); 5] = [
    ("/p/a.c", "h.h", Some("/p/h.h")),
    ("/a.c", "h.h", Some("/h.h")),
    ("/p/q/a.c", "../h.h", Some("/p/h.h")),
    ("/a.c", "../h.h", None),
    ("/p/a.c", "/x", Some("/x")),
];
