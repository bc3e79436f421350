// The files of a dump, as arguments name them: `IMAGE=winch.image TABLE=winch.table`.
ghost use Rattle.std.specs.Prelude.{◌≡◌, true, false, MatchOption};
ghost use Rattle.dump.specs.Files.{names_file, file_name, file_bytes};

use crate::Dump;
use std::env::FillError;
use std::fmt::{Display, Formatter};
use std::io::Write;
use std::rt::{Env, Files};
use std::{fmt, fs, io};

// The words begin with these.
const IMAGE: &[u8] = b"IMAGE=";

const TABLE: &[u8] = b"TABLE=";

// Such a word has at most 4,096 bytes of name.
pub const LONGEST_WORD: usize = 4102;

// A file, and what it is to hold.
#[derive(Clone, Copy)]
pub struct Named<'a> {
    pub name: &'a [u8],
    pub bytes: &'a [u8],
}

// Whether a word names a file for a dump. The name may be empty.
#[tactic(auto, unfolding(crate::specs::Files::names_file, crate::specs::Files::names_image))]
pub fn names_file(word: &[u8]) -> bool
    ensures { result ≡ names_file word.now }
{
    word.starts_with(IMAGE) || word.starts_with(TABLE)
}

impl Dump {
    // The file that a word names.
    #[tactic(auto, unfolding(crate::specs::Files::names_file, crate::specs::Files::names_image, crate::specs::Files::file_name, crate::specs::Files::file_bytes))]
    pub fn named<'a>(&'a self, word: &'a [u8]) -> Option<Named<'a>>
        ensures { MatchOption result (names_file word.now ≡ false) (λ file. (names_file word.now ≡ true) × (file.name.now ≡ file_name word.now) × (file.bytes.now ≡ file_bytes self.now.image self.now.entries word.now)) }
    {
        if let Some(name) = word.strip_prefix(IMAGE) {
            return Some(Named {
                name,
                bytes: &self.image,
            });
        }
        let name = word.strip_prefix(TABLE)?;
        Some(Named {
            name,
            bytes: &self.entries,
        })
    }

    // Writes the file that argument i names, if it names one. A failure is told on standard error, and the exit status stays 0.
    // Without a clause: std's say nothing of arguments and files.
    pub fn write_named(&self, rt: &(impl Env + Files + Eprint), i: usize) {
        let mut buf = [0u8; LONGEST_WORD];
        match rt.arg(i, &mut buf) {
            Ok(n) => {
                if let Some(file) = self.named(&buf[..n]) {
                    file.write(rt);
                }
            }
            Err(FillError::NotPresent) => {}
            Err(FillError::TooLong) => fail(rt, "name of a dump", "File name too long"),
        }
    }
}

impl Named<'_> {
    // Makes `bytes` the whole of the file; an empty name is none. The library takes text alone as a name.
    fn write(&self, rt: &(impl Files + Eprint)) {
        if self.name.is_empty() {
            return;
        }
        let Ok(name) = str::from_utf8(self.name) else {
            fail(rt, "name of a dump", "Not UTF-8");
            return;
        };
        if let Err(error) = fs::write(rt, name, self.bytes) {
            fail(rt, name, Reason(error));
        }
    }
}

// Writes a line to standard error: what failed, a colon and why.
fn fail(rt: &impl Eprint, what: &str, why: impl Display + Drop) {
    let _ = eprintln!(rt; "{what}: {why}");
}

// Why the system declined: C's text, without the ` (os error 2)` that an error writes behind it.
#[derive(Drop)]
struct Reason(io::Error);

impl Display for Reason {
    fn fmt<W: fmt::Write>(&self, f: &mut Formatter<W>) -> fmt::Result {
        let mut text = [0u8; 128];
        let error = self.0;
        let _ = write!(&mut text[..], "{error}");
        let text = str::from_utf8(&text).unwrap_or("");
        let (reason, _) = text.split_once(" (os error ").unwrap_or((text, ""));
        f.write_str(reason.trim_end_matches('\0'))
    }
}
