// What runs of the firmware's functions show. These functions do nothing: each contract is a law.

ghost use Rattle.std.specs.Prelude.{◌≡◌, ℕ, ◌+◌, ◌^◌, ◌≤◌, List, [], ◌∷◌, length, Some};
ghost use Rattle.br_bytes.specs.declared.run.Choice.{Choice};
ghost use Rattle.br_bytes.specs.Memory.{Memory};
ghost use Rattle.br_syntax.specs.declared.program.Func.{Func};
ghost use Rattle.br_syntax.specs.Functions.{function_named};
ghost use Rattle.br_syntax.specs.Offsets.{IsEqualUpToOffsets};
ghost use Rattle.br_source_meaning.specs.Runs.{State};
ghost use Rattle.br_source_meaning.specs.Calls.{function_of, call};
ghost use Rattle.br_lightbulb.specs.Firmware.{IsFirmware, IsFirmwareUpToOffsets};
ghost use Rattle.br_lightbulb.specs.Names as name;
ghost use Rattle.br_lightbulb.specs.Polls.{firmware};
ghost use Rattle.br_lightbulb.specs.Shows.{
  HasSpi,
  HasLan,
  HasFirmware,
  ShowsPiece,
  ShowsEvents,
  put_piece,
  get_piece,
  exchange_piece,
  read_piece,
  write_piece,
  boot_piece,
  IsBuffer,
  Holds,
  Receives,
  handle_piece,
  poll_piece,
  StaysGood,
};

/// The functions for bytes over SPI: whatever the port answers, with any fuel and any depth of
/// calls, a call that returns has added one of its pieces of the trace language to the trace, and 0
/// or 1 tells which; one that stops has added the first events of one. None is undefined, and none
/// changes memory.
pub fn bytes_show_pieces()
    ensures put { (fs : List Func) → HasSpi fs → (depth b : ℕ) (s : State) →
        ShowsPiece s (put_piece b) (function_of fs depth name.spi_put (b ∷ []) s) }
    ensures get { (fs : List Func) → HasSpi fs → (depth : ℕ) (s : State) →
        ShowsPiece s get_piece (function_of fs depth name.spi_get [] s) }
    ensures exchange { (fs : List Func) → HasSpi fs → (depth b : ℕ) (s : State) →
        ShowsPiece s (exchange_piece b) (function_of fs depth name.spi_xchg (b ∷ []) s) }
{}

/// The functions for words of the chip, in the same way: a call selects the chip, exchanges the
/// seven bytes of a read or a write until one fails, and releases it.
pub fn words_show_pieces()
    ensures read { (fs : List Func) → HasLan fs → (depth a : ℕ) (s : State) →
        ShowsPiece s (read_piece a) (function_of fs depth name.lan_read (a ∷ []) s) }
    ensures write { (fs : List Func) → HasLan fs → (depth a v : ℕ) (s : State) →
        ShowsPiece s (write_piece a v) (function_of fs depth name.lan_write (a ∷ v ∷ []) s) }
{}

/// The start, in the same way: the light's pin is made an output, and the chip is asked at most 200
/// times whether it is ready, and let receive once it is.
pub fn boot_shows_piece()
    ensures { (fs : List Func) → HasFirmware fs → (depth : ℕ) (s : State) →
        ShowsPiece s boot_piece (function_of fs depth name.boot [] s) }
{}

/// The functions for frames. With a buffer of 1,520 bytes at hand no load or store of theirs is
/// undefined: `receive` answers the length of a frame, whose bytes then stand in the buffer as far
/// as it has room, and `handle` sets the light as an accepted frame asks, and does nothing for
/// another.
pub fn frames_show_pieces()
    ensures receive { (fs : List Func) → HasFirmware fs → (depth p : ℕ) (s : State) →
        IsBuffer s.memory p 1520 → Receives s p (function_of fs depth name.receive (p ∷ []) s) }
    ensures handle { (fs : List Func) → HasFirmware fs →
        (depth : ℕ) (bytes : List ℕ) (p : ℕ) (s : State) →
        p + 1520 ≤ 2 ^ 32 → Holds s.memory p bytes →
        ShowsPiece s (handle_piece bytes)
        (function_of fs depth name.handle (p ∷ length bytes ∷ []) s) }
{}

/// One look at the chip: no frame waits, or one is received and handled, or a read fails.
pub fn poll_shows_piece()
    ensures { (fs : List Func) → HasFirmware fs → (depth : ℕ) (s : State) →
        ShowsEvents s poll_piece (function_of fs depth name.poll [] s) }
{}

/// The firmware is these trees: its text stands for a program, and each such program is equal to
/// the trees up to offsets and has a function `main`.
pub fn text_stands_for_trees()
    ensures some { (fs : List Func) × IsFirmware fs }
    ensures trees { (fs : List Func) → IsFirmwareUpToOffsets fs → IsEqualUpToOffsets fs firmware }
    ensures main { (fs : List Func) → IsFirmwareUpToOffsets fs →
        (f : Func) × (function_named fs name.main ≡ Some f) }
{}

/// The firmware from its start on: with any memory, whatever the devices answer, wherever its
/// buffers are placed, and with any fuel, no run of `main` is undefined, and a member of the trace
/// language begins with its events.
pub fn firmware_stays_good()
    ensures { (fs : List Func) (f : Func) → IsFirmwareUpToOffsets fs →
        function_named fs name.main ≡ Some f →
        (m : Memory) (answers : List ℕ) (choices : List Choice) (fuel : ℕ) →
        StaysGood (call fs f [] m answers choices fuel) }
{}
