// Where in the language a list of events has come to.

ghost use Rattle.std.specs.Prelude.{◌≡◌, ◌↔◌, IsTrue};

/// What an event makes of a place inside a piece of the language.
#[derive(Clone, Copy)]
pub(crate) enum Moved<P> {
    /// The piece goes on from this place.
    On(P),
    /// The piece is over. It gave this word, or failed.
    Over(Option<u32>),
    /// No list of the piece goes on so.
    Departs,
}

/// Where the exchange of a byte has come to.
#[derive(Clone, Copy)]
pub(crate) enum Exchange {
    /// The port may be busy this many times more before the byte is sent.
    Put(u16),
    /// The byte is to be written.
    Send,
    /// The port may be busy this many times more before the byte is received.
    Get(u16),
}

/// Where a read or a write of a word of the chip has come to.
#[derive(Clone, Copy)]
pub(crate) enum Transfer {
    /// The chip is to be selected.
    Select,
    /// After so many bytes, in the exchange of the next; the word has the last four bytes received,
    /// the latest one on top.
    Byte(u8, u32, Exchange),
    /// The chip is to be released, and then the transfer has given this word, or failed.
    Release(Option<u32>),
}

/// What a transfer is for.
#[derive(Clone, Copy)]
pub(crate) enum Purpose {
    /// It asks whether the chip is ready; it may be asked this many times more.
    Ask(u8),
    /// It lets the chip receive.
    Begin,
    /// It asks whether a frame waits.
    Poll,
    /// It asks for a frame's length.
    Length,
    /// It reads a word of a frame, with so many words after it.
    Word(u16, Frame),
}

/// What is known of a frame by its length and the words before the present one.
#[derive(Clone, Copy)]
pub(crate) struct Frame {
    /// How many words came before, or 11 where more did.
    pub(crate) index: u16,
    /// Whether its length and the bytes so far are those of a frame that is accepted.
    pub(crate) fits: bool,
    /// The light that it asks for, once byte 42 has come.
    pub(crate) light: bool,
}

/// A place in the whole language.
#[derive(Clone, Copy)]
pub(crate) enum Place {
    /// Before the first event.
    Start,
    /// The light's pin is to be made an output by a write of this word.
    Pin(u32),
    /// In a transfer.
    In(Purpose, Transfer),
    /// Between polls.
    Between,
    /// The light is to be set on or off; the outputs are to be read.
    Light(bool),
    /// The light is to be set by a write of this word.
    Set(u32),
    /// The start failed, and nothing more may come.
    Over,
    /// Outside the language.
    Outside,
}

impl Place {
    /// Whether no member of the language has come here.
    pub(crate) fn is_outside(&self) -> bool
        ensures { IsTrue result ↔ (self.now ≡ Place.Outside) }
    {
        matches!(self, Place::Outside)
    }
}
