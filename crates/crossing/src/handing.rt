// Texts handed out: printed, or held to the answers expected.
use std::io;

// What the answers of a script are handed to.
pub trait Handing {
    // A whole text.
    fn hand_out(&mut self, text: &[u8]);
}

// Texts are printed. After a print that failed none is, and its error is kept.
#[derive(Drop)]
pub struct Printed<'a, P: Print> {
    pub to: &'a P,
    pub printed: io::Result<()>,
}

impl<P: Print> Handing for Printed<'_, P> {
    fn hand_out(&mut self, text: &[u8]) {
        if self.printed.is_ok() {
            self.printed = self.to.write_all(text);
        }
    }
}

// Texts are held to the answers expected: those still to come, and whether the texts are the same so far.
#[derive(Drop)]
pub struct Met<'a> {
    pub to_come: &'a [u8],
    pub same: bool,
}

impl Handing for Met<'_> {
    fn hand_out(&mut self, text: &[u8]) {
        match self.to_come.strip_prefix(text) {
            Some(rest) => self.to_come = rest,
            None => self.same = false,
        }
    }
}

// The text at the front of `out`.
pub fn hand_front<H: Handing>(answers: &mut H, out: &[u8], length: usize) {
    if let Some(text) = out.get(..length) {
        answers.hand_out(text);
    }
}
