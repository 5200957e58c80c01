// Pacing of one direction: the window, the position in it, and how many requests may still go before a pacing response.
// The same rules serve both directions: the sending end counts its credit by them, the receiving end what it has open.
#![tactic(auto)]

ghost use Rattle.std.specs.Prelude.{◌≡◌, ◌≤◌};
ghost use Rattle.pacing.specs.Pacing.{size_good, fresh_window, window_good, whole, left, credit, has_credit, paced, next_position, advanced, answered};

// `size` is document 01's W; `position` its window place; `pending` is its pacing request unanswered (sending) or answer
// owed (receiving).
#[derive(Clone, Copy)]
pub struct Window {
    pub size: u8,
    pub position: u8,
    pub pending: bool,
}

pub const LEAST_WINDOW: u8 = 1;

pub const GREATEST_WINDOW: u8 = 63;

impl Window {
    // The window is 1 to 63, and the position in it 0 to one less.
    pub fn window_good(self) -> bool
        ensures { result ≡ window_good self }
    {
        size_good(self.size) & (self.position < self.size)
    }

    // The requests that may go before the next pacing response; document 01's credit, and its open.
    #[tactic(auto, unfolding(crate::specs::Pacing::credit))]
    pub fn credit(self) -> u16
        ensures { (result ≡ credit self) × (result ≤ 510) }
    {
        whole(self.pending, self.size) + left(self.position, self.size)
    }

    pub fn has_credit(self) -> bool
        ensures { result ≡ has_credit self }
    {
        1 <= self.credit()
    }

    // The next request carries the pacing bit.
    pub fn paced(self) -> bool
        ensures { result ≡ paced self }
    {
        self.position == 0
    }

    // The window after a request.
    #[tactic(auto, unfolding(crate::specs::Pacing::advanced))]
    pub fn advanced(mut self) -> Window
        ensures { result ≡ advanced self }
    {
        self.pending |= self.paced();
        self.position = next_position(self.position, self.size);
        self
    }

    // The window after a pacing response.
    #[tactic(auto, unfolding(crate::specs::Pacing::answered))]
    pub fn answered(mut self) -> Window
        ensures { result ≡ answered self }
    {
        self.pending = false;
        self
    }
}

// A whole window, if no pacing response is pending.
fn whole(pending: bool, size: u8) -> u16
    ensures { (result ≡ whole pending size) × (result ≤ 255) }
{
    if pending { 0 } else { size as u16 }
}

// What is left of the window in hand.
fn left(position: u8, size: u8) -> u16
    ensures { (result ≡ left position size) × (result ≤ 255) }
{
    if position == 0 {
        0
    } else {
        size.saturating_sub(position) as u16
    }
}

// The position after one more request: past the last it is the first again.
fn next_position(position: u8, size: u8) -> u8
    ensures { result ≡ next_position position size }
{
    let next = position.saturating_add(1);
    if next < size { next } else { 0 }
}

pub fn size_good(window: u8) -> bool
    ensures { result ≡ size_good window }
{
    (LEAST_WINDOW <= window) & (window <= GREATEST_WINDOW)
}

pub fn fresh_window(size: u8) -> Window
    ensures { result ≡ fresh_window size }
{
    Window {
        size,
        position: 0,
        pending: false,
    }
}
