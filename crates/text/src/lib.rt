//! Text into a lent list of bytes. An `Out` writes at its place, as far as the bytes go, and its place goes on past them: on no bytes it measures.
#![tactic(auto)]

ghost use Rattle.std.specs.Prelude.{List, ℕ, [], ◌∷◌, ⊤};
ghost use Rattle.rules.specs.Lines.{digits, number, dash, alpha-bytes};
ghost use Rattle.text.specs.Texts.{signed, Writes};

/// Attributes and filter paints.
pub mod details;
/// The lines of `rowlist`.
pub mod lines;
/// A screen's rows.
pub mod listing;
/// Painted rows and a screen's attributes.
pub mod painted;
/// A file's recording.
pub mod recording;
mod rows;

pub use crate::listing::{list_screen, print_first, refusal_line, try_print_first};
pub use crate::painted::{Tables, attrs_text, row_text};
pub use crate::recording::{
    FILE_WORDS, FileBytes, FileText, Size, no_screen, no_width_of, no_width_refusal, read_file,
    recording_text, refuse, size_of,
};

/// Where text goes: into the bytes from place `at` on.
#[derive(Drop)]
pub struct Out<'a> {
    pub bytes: &'a mut [u8],
    pub at: usize,
}

/// What prints itself.
pub trait Print {
    // The bytes that it prints.
    ghost printed: { Self → List ℕ };

    // What has to be so for that.
    ghost ready: { Self → Type 0 } = { λ _. ⊤ };

    fn print(&self, out: &mut Out<'_>)
        requires { ready self.now }
        ensures { Writes (printed self.now) out.old out.new };
}

impl Out<'_> {
    /// One byte.
    pub fn byte(&mut self, b: u8)
        ensures { Writes (b ∷ []) self.old self.new }
    {
        if self.at < self.bytes.len() {
            self.bytes[self.at] = b;
            self.at += 1;
        } else {
            self.at = self.at.saturating_add(1);
        }
    }

    /// A text as it stands.
    pub fn text(&mut self, s: &[u8])
        ensures { Writes s.now self.old self.new }
    {
        for &b in s {
            self.byte(b);
        }
    }

    /// A number in decimal, its last k digits at most.
    pub fn digits(&mut self, n: u64, k: usize)
        ensures { Writes (digits k n) self.old self.new }
    {
        if k == 0 {
            return;
        }
        if 10 <= n {
            self.digits(n / 10, k - 1);
        }
        self.byte(b'0' + (n % 10) as u8);
    }

    /// A space and a number.
    pub fn number(&mut self, n: u32)
        ensures { Writes (number n) self.old self.new }
    {
        self.byte(b' ');
        if n < 10 {
            self.byte(b'0' + n as u8);
        } else if n < 100 {
            self.byte(b'0' + (n / 10) as u8);
            self.byte(b'0' + (n % 10) as u8);
        } else {
            self.digits(n as u64, 10);
        }
    }

    /// A space and a dash.
    pub fn dash(&mut self)
        ensures { Writes dash self.old self.new }
    {
        self.text(b" -");
    }

    /// An alpha index, or a dash.
    pub fn alpha(&mut self, index: Option<u32>)
        ensures { Writes (alpha-bytes index) self.old self.new }
    {
        match index {
            None => self.dash(),
            Some(i) => self.number(i),
        }
    }

    /// A space, or a space and a dash where it is negative, and the number.
    pub fn signed(&mut self, x: i32)
        ensures { Writes (signed x) self.old self.new }
    {
        if x < 0 {
            self.dash();
        } else {
            self.byte(b' ');
        }
        self.digits(x.unsigned_abs() as u64, 10);
    }
}
