// What each exported call hands out: the answer as nine numbers, and the new record over the image. The numbers are: refusal,
// sense, rule, length of the unit made, bytes copied, complete (0 or 1), more (0 or 1), mark (0 to 6), signalled (0 or 1).
ghost use Rattle.std.specs.Prelude.{◌≡◌, ℕ, List, ◌<◌, length};
ghost use Rattle.image.specs.Image.{IMAGE};
ghost use Rattle.lu62.specs.Handing.{answer_numbers, read_numbers, expedited_numbers, refusal_numbers, handed, handed_out};
ghost use Rattle.lu62.specs.Exported.{opening_out};

use answers::numbers::BAD_BUFFER;
use end::{Answer, Done, ExpeditedAnswer, ReadAnswer};
use image::IMAGE;
use image::codes::{flag_code, mark_code};
use image::encoding::write_image;

// A length as a number of 32 bits. The end's units are at most 1,029 bytes long, and a read copies at most 65,535.
fn word(n: usize) -> u32
    requires { n < 4294967296 }
    ensures { result ≡ n }
{
    n as u32
}

// An answer as the nine numbers.
pub trait Numbers {
    ghost numbers_of: { Self → List ℕ };

    ghost fits: { Self → Type 0 };

    fn numbers(self) -> [u32; 9]
        requires { fits self }
        ensures { result ≡ numbers_of self };
}

impl Numbers for Answer {
    ghost numbers_of = { λ a. answer_numbers a };

    ghost fits = { λ a. a.unit < 4294967296 };

    fn numbers(self) -> [u32; 9] {
        [
            self.refusal as u32,
            self.sense,
            self.rule as u32,
            word(self.unit),
            0,
            0,
            0,
            0,
            0,
        ]
    }
}

impl Numbers for ReadAnswer {
    ghost numbers_of = { λ a. read_numbers a };

    ghost fits = { λ a. (a.answer.unit < 4294967296) × (a.copied < 4294967296) };

    fn numbers(self) -> [u32; 9] {
        let call = self.answer;
        [
            call.refusal as u32,
            call.sense,
            call.rule as u32,
            word(call.unit),
            word(self.copied),
            flag_code(self.complete) as u32,
            flag_code(self.more) as u32,
            mark_code(self.mark) as u32,
            0,
        ]
    }
}

impl Numbers for ExpeditedAnswer {
    ghost numbers_of = { λ a. expedited_numbers a };

    ghost fits = { λ a. a.answer.unit < 4294967296 };

    fn numbers(self) -> [u32; 9] {
        let call = self.answer;
        [
            call.refusal as u32,
            call.sense,
            call.rule as u32,
            word(call.unit),
            0,
            0,
            0,
            0,
            flag_code(self.signalled) as u32,
        ]
    }
}

// The new record goes over the image, and the answer out.
pub fn hand_out<A: Numbers + Copy>(done: Done<A>, image: &mut [u8], answer: &mut [u32; 9]) -> u32
    requires fits { A.fits done.answer }
    requires whole { length image.old ≡ IMAGE }
    ensures { handed result answer.new image.new ≡ handed_out (A.numbers_of done.answer) done.end }
{
    write_image(done.end, image);
    *answer = done.answer.numbers();
    answer[0]
}

// An image that holds no record: the answer is its refusal number, and no cell is changed.
pub fn refuse_image(number: u8, answer: &mut [u32; 9]) -> u32
    ensures { (result ≡ number) × (answer.new ≡ refusal_numbers number) }
{
    let refusal = number as u32;
    *answer = [refusal, 0, 0, 0, 0, 0, 0, 0, 0];
    refusal
}

// After an opening: the new record goes over whatever the image held, if it has the length of one.
pub fn hand_opened(done: Done, image: &mut [u8], answer: &mut [u32; 9]) -> u32
    requires { done.answer.unit < 4294967296 }
    ensures { handed result answer.new image.new ≡ opening_out done image.old }
{
    if image.len() != IMAGE {
        return refuse_image(BAD_BUFFER, answer);
    }
    hand_out(done, image, answer)
}
