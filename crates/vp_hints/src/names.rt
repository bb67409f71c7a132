//! Names of files and addresses, as they are printed.

use std::fmt;

/// Text in a user's words. Control characters are written as `\u{..}`, so that a name can't move a terminal's cursor.
#[derive(Clone, Copy)]
pub struct Printable<'a>(pub &'a str);

impl fmt::Display for Printable<'_> {
    fn fmt<W: fmt::Write>(&self, f: &mut fmt::Formatter<W>) -> fmt::Result {
        for letter in self.0.chars() {
            write_letter(letter, f)?;
        }
        Ok(())
    }
}

fn write_letter<W: fmt::Write>(letter: char, f: &mut fmt::Formatter<W>) -> fmt::Result {
    if letter.is_control() {
        let number = u32::from(letter);
        write!(f, "\\u{{{number:x}}}")
    } else {
        f.write_char(letter)
    }
}

/// A name with an ending, as a word of a shell's command: in quotation marks, unless all its characters are plain.
#[derive(Clone, Copy)]
pub struct ShellWord<'a>(pub &'a str, pub &'a str);

impl fmt::Display for ShellWord<'_> {
    fn fmt<W: fmt::Write>(&self, f: &mut fmt::Formatter<W>) -> fmt::Result {
        let mark = if is_plain(self.0) { "" } else { "'" };
        f.write_str(mark)?;
        for letter in self.0.chars() {
            write_quoted(letter, f)?;
        }
        f.write_str(self.1)?;
        f.write_str(mark)
    }
}

// Whether a shell reads all characters of a name as they are.
fn is_plain(name: &str) -> bool {
    name.bytes().all(|byte| byte.is_ascii_alphanumeric() || b"._-/+,:=@%".contains(&byte))
}

// Writes a character between quotation marks.
fn write_quoted<W: fmt::Write>(letter: char, f: &mut fmt::Formatter<W>) -> fmt::Result {
    if letter == '\'' {
        f.write_str("'\\''")
    } else {
        write_letter(letter, f)
    }
}
