//! The kind of an output, by its name, and what a command does, by the extension of its first output.
ghost use Rattle.std.specs.Prelude.{◌≡◌, ◌+◌, ◌<◌, map, [], MatchOption, length, take};
ghost use Rattle.nl_tool_texts.specs.{Kind.{base_of, kind_of}, Work.{extension_of, is_in, place, word, work_of}};

use memchr::{memchr, memrchr, memrchr2};

#[derive(Clone, Copy, Drop)]
pub enum KindRule {
    /// The name from its last dot on, if no `/` follows.
    Extension,
    /// The name up to its last `/`.
    Folder,
    /// The name up to its first `/`.
    Top,
    /// The word for what the command does.
    Work,
}

/// Empty if the name has no kind.
pub fn kind_of(rule: KindRule, name: &[u8]) -> &[u8]
    ensures value { result.now ≡ kind_of rule name.now }
{
    match rule {
        KindRule::Extension => extension_of(name),
        KindRule::Folder => up_to(memrchr(b'/', name), name),
        KindRule::Top => up_to(memchr(b'/', name), name),
        KindRule::Work => word(work_of(name)),
    }
}

fn extension_of(name: &[u8]) -> &[u8]
    ensures value { result.now ≡ extension_of name.now }
{
    match memrchr2(b'.', b'/', name) {
        Some(at) if name[at] == b'.' => &name[at..],
        _ => b"",
    }
}

// The name up to that place, with what stands there; empty if there is none.
fn up_to(at: Option<usize>, name: &[u8]) -> &[u8]
    ensures { MatchOption at (result.now ≡ []) (λ i. i < length name.now → result.now ≡ take (i + 1) name.now) }
{
    match at {
        Some(at) if at < name.len() => &name[..at + 1],
        _ => b"",
    }
}

/// The name without its folder.
pub fn base_of(name: &[u8]) -> &[u8]
    ensures { result.now ≡ base_of name.now }
{
    let folder = kind_of(KindRule::Folder, name);
    &name[folder.len().min(name.len())..]
}

#[derive(Clone, Copy, Drop)]
pub enum Work {
    Compile,
    Link,
    Archive,
    Generate,
    Test,
    Other,
}

const COMPILED: [&str; 8] = [".o", ".obj", ".lo", ".pch", ".gch", ".pcm", ".bc", ".class"];

const LINKED: [&str; 6] = ["", ".so", ".exe", ".dll", ".dylib", ".wasm"];

const ARCHIVED: [&str; 4] = [".a", ".lib", ".rlib", ".jar"];

const GENERATED: [&str; 14] = [
    ".c", ".h", ".cc", ".cpp", ".cxx", ".hpp", ".inc", ".def", ".py", ".rs", ".go", ".js", ".json",
    ".cmake",
];

const TESTED: [&str; 3] = [".test", ".passed", ".tap"];

/// `name` is that of the command's first output.
pub fn work_of(name: &[u8]) -> Work
    ensures value { result ≡ work_of name.now }
{
    let extension = extension_of(name);
    if is_in(extension, COMPILED.as_slice()) {
        Work::Compile
    } else if is_in(extension, LINKED.as_slice()) {
        Work::Link
    } else if is_in(extension, ARCHIVED.as_slice()) {
        Work::Archive
    } else if is_in(extension, GENERATED.as_slice()) {
        Work::Generate
    } else if is_in(extension, TESTED.as_slice()) {
        Work::Test
    } else {
        Work::Other
    }
}

fn is_in(extension: &[u8], words: &[&str]) -> bool
    ensures { result ≡ is_in extension.now (map (λ w. w.now) words.now) }
{
    for word in words {
        if word.as_bytes() == extension {
            return true;
        }
    }
    false
}

/// A picture shows this word, and `summary` at a terminal.
pub fn word(work: Work) -> &'static [u8]
    ensures { result.now ≡ word work }
{
    match work {
        Work::Compile => b"compile",
        Work::Link => b"link",
        Work::Archive => b"archive",
        Work::Generate => b"generate",
        Work::Test => b"test",
        Work::Other => b"other",
    }
}

pub fn place(work: Work) -> u32
    ensures value { result ≡ place work }
{
    work as u32
}
