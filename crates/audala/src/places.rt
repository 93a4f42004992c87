// The place at which reading a program text stops, for C and Rust, for a message beside 15, 16 and 17 (02 §1 asks for no place).
ghost use Rattle.std.specs.Prelude.{◌≡◌};
ghost use Rattle.text_place.specs.Place.{place};

// How many bytes of the text are before the place.
#[repr(C)]
#[derive(Clone, Copy)]
pub struct Stopped {
    pub at: usize,
}

// Where reading a text stops; at its end where the end is the place.
pub fn audala_place(text: &[u8]) -> Stopped
    ensures { result.at ≡ place text.now }
{
    let at = text_place::place(text);
    Stopped { at }
}
