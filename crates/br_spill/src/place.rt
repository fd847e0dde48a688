// Where the names of a function stand.

ghost use Rattle.std.specs.Prelude.{◌≡◌, ◌<◌, ◌≤◌};
ghost use Rattle.br_spill.specs.Spill.{IsNear, layout_in, layout_of, register_of};

// The most names that have registers alone, and how many have
// registers in a function with a buffer.
const MOST_ALONE: u32 = 21;

const MOST_BESIDE: u32 = 18;

// The number of the last name that a function can have.
const LAST_NAME: u32 = 1_048_575;

// The registers of register form, and the most names that have registers past these.
const REGISTERS: u32 = 32;

const MOST_PAST: u32 = LAST_NAME + 1 - REGISTERS;

/// Where the word of a name stands.
#[derive(Clone, Copy, Debug, PartialEq, Eq)]
pub enum Place {
    /// In a register.
    Register(u32),
    /// In a word of the function's buffer, counted from 0.
    Slot(u32),
}

/// Which registers names have.
#[derive(Clone, Copy, Debug, PartialEq, Eq)]
pub enum Kind {
    /// Those of register form.
    Narrow,
    /// One each past those, where there are as many.
    Wide,
}

/// The places of so many names.
#[derive(Clone, Copy, Debug, PartialEq, Eq)]
pub struct Places {
    pub kind: Kind,
    pub names: u32,
}

/// The place of a name.
pub(crate) fn place_of(places: Places, x: u32) -> Place
    ensures same { result ≡ (layout_in places).place x }
    ensures near { IsNear result }
{
    match places.kind {
        Kind::Narrow => narrow_place(places.names, x),
        Kind::Wide => {
            if places.names <= MOST_PAST {
                return Place::Register(REGISTERS + x.min(MOST_PAST - 1));
            }
            narrow_place(places.names, x)
        }
    }
}

/// The words of the buffer of a function with such places.
pub(crate) fn slots(places: Places) -> u32
    ensures same { result ≡ (layout_in places).slots }
    ensures few { result ≤ 1048558 }
{
    match places.kind {
        Kind::Narrow => narrow_slots(places.names),
        Kind::Wide => {
            if places.names <= MOST_PAST {
                return 0;
            }
            narrow_slots(places.names)
        }
    }
}

/// How many registers a function with such places has.
pub(crate) fn register_count(places: Places) -> u32
    ensures { result ≡ (layout_in places).registers }
{
    match places.kind {
        Kind::Narrow => REGISTERS,
        Kind::Wide => {
            if places.names <= MOST_PAST {
                return REGISTERS + places.names;
            }
            REGISTERS
        }
    }
}

fn narrow_place(names: u32, x: u32) -> Place
    ensures same { result ≡ (layout_of names).place x }
    ensures near { IsNear result }
{
    if names <= MOST_ALONE {
        return Place::Register(register(3, x));
    }
    if x < MOST_BESIDE {
        return Place::Register(register(6, x));
    }
    Place::Slot(x.min(LAST_NAME) - MOST_BESIDE)
}

fn narrow_slots(names: u32) -> u32
    ensures same { result ≡ (layout_of names).slots }
    ensures few { result ≤ 1048558 }
{
    if names <= MOST_ALONE {
        return 0;
    }
    names.min(LAST_NAME + 1) - MOST_BESIDE
}

fn register(first: u32, x: u32) -> u32
    requires { first ≤ 6 }
    ensures { result ≡ register_of first x }
{
    if x < 10 - first {
        return first + x;
    }
    x.min(20) + first + 8
}
